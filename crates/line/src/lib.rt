// The line between the stations: what it means, and the two lines that are built.
#![tactic(auto)]

pub mod line;
pub mod message;
pub mod per_station;
pub mod printer;
pub mod telephone;
