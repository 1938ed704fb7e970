// A double-ended queue in a lent space.
#![tactic(auto)]

ghost use Rattle.std.specs.Prelude.{◌≤◌, length};

mod changing;
mod iterator;
mod looking;

pub use iterator::Iter;

// A queue of at most `room` items, kept in the first `room` places of a lent space. The places
// beyond are never touched. Where in the room the items stand is left open: they lie in a ring,
// from place `first` on.
#[derive(Drop)]
pub struct Queue<'a, T> {
    space: &'a mut [T],
    room: usize,
    first: usize,
    count: usize,
    ghost sound: { (room ≤ length space.now) × (first ≤ room) × (count ≤ room) },
}
