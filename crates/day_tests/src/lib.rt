// Trials of a day replayed from its log: every refusal that a log can meet, the order of the refusals, and whole days; and a
// caller, proved from the contract of the replay alone.
//
// What no log can meet, and why:
//
// - Fault 6 concerns writing a log, not replaying one.
// - Fault 10 for want of space: whoever replays a log lends the space that its making asks for. The size itself, 0 or above 64, is tried.
// - Fault 11: a log's line is new, so nothing waits on it.
// - 19, arrive while a paper of this station is live: 18 is tested first, so the oldest paper would be the other station's; and no papers of both are ever live.
// - 26 for an ask: that takes 999,999 asks, and a log has at most 5,460 calls.
// - 26 for an issue: that takes 9,999 issues, or a right number of 1,000,000,000, and a call lifts a right number by one at most.
//   For the same reason 26 for accept and release is met only by record numbers, never by the right number.
// - 22 for a release by A: A has something to release only by an open ask or an acceptance; an issue empties both, and with a train out there is no new one. B with the right can meet it.
// - 27 in telephone working: a full tray holds papers of this station, which are then out (22), or of the other one, and then the right is not here (21).
#![tactic(auto)]

pub mod caller;
#[cfg(test)]
mod damaged;
#[cfg(test)]
mod days;
#[cfg(test)]
mod dead;
#[cfg(test)]
mod fields;
#[cfg(test)]
mod lines;
#[cfg(test)]
mod order;
#[cfg(test)]
mod play;
#[cfg(test)]
mod records;
#[cfg(test)]
mod refusals;
#[cfg(test)]
mod rights;
#[cfg(test)]
mod tray;
