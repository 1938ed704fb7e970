// Trials of the day log: what is refused and where, what is read, what is written, and how it is listed; and a caller, proved
// from the contracts of the day log alone.
#![tactic(auto)]

pub mod caller;
#[cfg(test)]
mod lines;
#[cfg(test)]
mod reading;
#[cfg(test)]
mod samples;
#[cfg(test)]
mod writing;
