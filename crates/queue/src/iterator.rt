// Going through the items of a queue.
ghost use Rattle.std.specs.Prelude.{◌≡◌, ◌^◌, ◌<◌, length};
ghost use Rattle.std.specs.Iterator.{YieldsFirst, item_count};
ghost use Rattle.std.specs.Iterator.Runs.{YieldsInOrder};
ghost use Rattle.queue.specs.Model.{items};

use super::Queue;
use std::marker::Model;
use std::ops::Range;

// The items of a queue, the front one first. They are copied as they come.
#[derive(Drop)]
pub struct Iter<'q, 'a, T> {
    queue: &'q Queue<'a, T>,
    numbers: Range<usize>,
}

// Clauses see the items that are still to come, the next one first.
impl<'q, 'a, T> Model for Iter<'q, 'a, T> {
    ghost use Rattle.std.specs.Prelude.{◌≤◌, List, length, slice_range};
    ghost use Rattle.queue.specs.Model.{items};

    ghost Value = { List T };

    ghost view = { λ i. slice_range (items i.queue.now) i.numbers.start i.numbers.end };

    ghost invariant = { λ i. i.numbers.end ≤ length (items i.queue.now) };
}

impl<'a, T: Copy> Queue<'a, T> {
    // Goes through the items, the front one first.
    pub fn iter(&self) -> Iter<'_, 'a, T>
        ensures items { result ≡ items self.now }

        // Any chain over it takes the items in their order, and a count of them fits.
        ensures runs { YieldsInOrder (YieldsFirst {A = T} (λ rest. rest)) (λ rest. rest) }
        ensures fits { length (items self.now) < 2 ^ 64 }
    {
        Iter {
            queue: self,
            numbers: 0..self.len(),
        }
    }
}

#[tactic(auto, using(crate::proofs::Facts::sizes, crate::proofs::Lists::looks))]
impl<'q, 'a, T: Copy> Iterator for Iter<'q, 'a, T> {
    type Item = T;

    ghost next_gives = { YieldsFirst (λ rest. rest) };

    ghost remaining = { item_count (λ rest. rest) };

    fn next(&mut self) -> Option<T> {
        let number = self.numbers.next()?;
        Some(self.queue.item(number))
    }
}
