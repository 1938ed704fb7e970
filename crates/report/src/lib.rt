// A day's report: its values, and the line of text for each. No line ends in a newline.
#![tactic(auto)]

pub mod lines;
pub mod values;
