// Small callers of the queue, proved from its contracts alone, and runs of it.
#![tactic(auto)]

ghost use Rattle.std.specs.Prelude.{◌≡◌, ◌+◌, ◌<◌, ◌≤◌, [], ◌∷◌, ◌++◌, length, Some, count_by};
ghost use Rattle.queue.specs.Model.{items, room_of};

use queue::Queue;

#[cfg(test)]
mod tests;

// A message, as a line holds it.
#[derive(Clone, Copy)]
struct Message {
    pub number: u32,
    pub urgent: bool,
}

// The messages that come in, and those that go out.
struct Line<'a, 'b, 'c, 'd> {
    coming: &'a mut Queue<'b, Message>,
    going: &'c mut Queue<'d, Message>,
}

// A tray that never holds more than four papers.
struct Tray<'a, 'b> {
    papers: &'a mut Queue<'b, u32>,
    ghost small: { room_of papers.now ≤ 4 },
}

impl Line<'_, '_, '_, '_> {
    // Moves the first message on, and says whether it did, as a line does. None is lost where there is room for it.
    fn relay(&mut self) -> bool
        requires { length (items self.old.going.now) < room_of self.old.going.now }
        ensures { length (items self.new.coming.now) + length (items self.new.going.now) ≡ length (items self.old.coming.now) + length (items self.old.going.now) }
    {
        match self.coming.pop_front() {
            Some(message) => self.going.push_back(message).is_ok(),
            None => false,
        }
    }
}

impl Tray<'_, '_> {
    // Lays a paper behind the others.
    fn lay(&mut self, paper: u32) -> Result<(), u32>
        ensures { length (items self.new.papers.now) ≤ 4 }
    {
        self.papers.push_back(paper)
    }

    // Takes every paper out, one after another until none is left: `Queue::clear` would do it at once, and this is the trial of a loop over a queue.
    fn clear(&mut self)
        ensures { items self.new.papers.now ≡ [] }
    {
        while let Some(_) = self.papers.pop_front() {}
    }
}

// What is put into an empty queue comes out again.
fn through(q: &mut Queue<'_, u32>, x: u32) -> Option<u32>
    requires { (items q.old ≡ []) × (0 < room_of q.old) }
    ensures { (result ≡ Some x) × (items q.new ≡ []) }
{
    let _ = q.push_back(x);
    q.pop_front()
}

// Adds two items where there is room for them, and counts all.
fn two_more<T: Copy>(q: &mut Queue<'_, T>, x: T, y: T) -> usize
    requires { length (items q.old) + 2 ≤ room_of q.old }
    ensures { (result ≡ length (items q.old) + 2) × (items q.new ≡ (items q.old ++ x ∷ []) ++ y ∷ []) }
{
    let _ = q.push_back(x);
    let _ = q.push_back(y);
    q.len()
}

// How many messages are urgent.
fn urgent(q: &Queue<'_, Message>) -> usize
    ensures { result ≡ count_by (λ m. m.urgent) (items q.now) }
{
    q.iter().filter(|message| message.urgent).count()
}

// A full queue stays the very same.
fn one_too_many(q: &mut Queue<'_, u32>, x: u32) -> Result<(), u32>
    requires { length (items q.old) ≡ room_of q.old }
    ensures { q.new ≡ q.old }
{
    q.push_back(x)
}

// Takes out the second of three items, and replaces the one behind it.
fn rearranged(q: &mut Queue<'_, u32>, x: u32) -> Option<u32>
    requires { items q.old ≡ 4 ∷ 5 ∷ 6 ∷ [] }
    ensures { (result ≡ Some 5) × (items q.new ≡ 4 ∷ x ∷ []) }
{
    let second = q.remove(1);
    let _ = q.replace(1, x);
    second
}

// A place beyond the room keeps what it held.
fn beyond() -> u32
    ensures { result ≡ 9 }
{
    let mut space = [7, 7, 7, 9];
    let mut q = Queue::new(&mut space);
    let _ = q.set_room(3);
    let _ = q.push_back(1);
    space[3]
}
