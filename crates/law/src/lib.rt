// The law: what every run of the cabinets keeps, each theorem demanded by a contract.
#![tactic(auto)]

pub mod laws;
