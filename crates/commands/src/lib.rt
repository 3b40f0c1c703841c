// The commands of a town's script: how a text is cut into lines, and what each line says.
#![tactic(auto)]

mod arguments;
pub mod laws;
pub mod line;
pub mod lines;
mod verbs;
