// The words that all layers share: stations, the kinds that a byte names, the three kinds of number, the fields of a log's bodies, and the faults.
#![tactic(auto)]

pub mod byte;
pub mod fault;
pub mod fields;
pub mod kind;
pub mod number;
pub mod station;
