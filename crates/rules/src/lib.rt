// The rules of working one section over the cabinets' own types, where no count ever stays at an end, and the theorems
// about every run.
#![tactic(auto)]

pub mod laws;

pub use cabinets::{cabinet, paper, track};
