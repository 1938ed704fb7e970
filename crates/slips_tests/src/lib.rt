// Trials of slips. Each holder of a slip is proved not to let it go.
#![tactic(auto)]

mod holders;
#[cfg(test)]
mod trials;
