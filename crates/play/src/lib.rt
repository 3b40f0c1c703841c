// A town: a house, services and readers' boxes over one net that belongs to outsiders, played by the lines of a script.
#![tactic(auto)]

mod accounts;
mod bring;
mod draw;
mod founding;
mod hear;
mod outsiders;
mod say;
mod town;
mod want;

pub use founding::{begin, found};
pub use town::Town;
