// Trials of the lines: a line of another kind, code that works over any line, and the built lines in use.
#![tactic(auto)]

pub mod any_line;
pub mod stutter;
#[cfg(test)]
mod trials;
