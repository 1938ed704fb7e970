// The rules of working one section: what a cabinet remembers, the paper, the track, and what a cabinet does at each call.
#![tactic(auto)]

pub mod cabinet;
pub mod call;
pub mod calls;
pub mod paper;
pub mod sight;
mod standing;
pub mod track;
