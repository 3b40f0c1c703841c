// A service over bytes: it hears words, and answers by its decision.
#![tactic(auto)]

mod heard;
mod service;

pub use heard::Heard;
pub use service::Service;
