// Tests of the crates `words` and `script`: first lines, ranges, and what a line reads as.
#![tactic(auto)]

#[cfg(test)]
mod tests;
