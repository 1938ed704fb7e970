// Making a queue, and looking at what it holds.
ghost use Rattle.std.specs.Prelude.{◌≡◌, ◌<◌, ◌≤◌, [], length, Some, ◌==◌, nat_le, slice_get};
ghost use Rattle.queue.specs.Layout.{place_of};
ghost use Rattle.queue.specs.Model.{items, room_of, places};
ghost use Rattle.queue.specs.Outcomes.{last_item};

use super::Queue;

#[tactic(auto, using(crate::proofs::Facts::sizes))]
impl<'a, T: Copy> Queue<'a, T> {
    // An empty queue that may use the whole space. No place of the space is altered.
    #[tactic(auto, using(crate::proofs::Facts::ring), unfolding(crate::specs::Model::items))]
    pub fn new(space: &'a mut [T]) -> Queue<'a, T>
        ensures empty { items result ≡ [] }
        ensures room { room_of result ≡ length space.old }
        ensures places { places result ≡ space.old }
        ensures space { result.space.ghost_name ≡ space.entry.ghost_name }
    {
        let room = space.len();
        Queue {
            space,
            room,
            first: 0,
            count: 0,
        }
    }

    // How many items there are.
    pub fn len(&self) -> usize
        ensures value { result ≡ length (items self.now) }
        ensures fits { result ≤ room_of self.now }
    {
        self.count
    }

    // How many items there may be.
    pub fn room(&self) -> usize
        ensures { result ≡ room_of self.now }
    {
        self.room
    }

    // How many places the space has.
    pub fn space(&self) -> usize
        ensures { result ≡ length (places self.now) }
    {
        self.space.len()
    }

    // Whether there is no item.
    pub fn is_empty(&self) -> bool
        ensures { result ≡ (length (items self.now) == 0) }
    {
        self.len() == 0
    }

    // Whether there is no room for another item.
    pub fn is_full(&self) -> bool
        ensures { result ≡ nat_le (room_of self.now) (length (items self.now)) }
    {
        self.len() >= self.room
    }

    // The first item.
    pub fn front(&self) -> Option<T>
        ensures { result ≡ slice_get (items self.now) 0 }
    {
        self.get(0)
    }

    // The last item.
    pub fn back(&self) -> Option<T>
        ensures { result ≡ last_item (items self.now) }
    {
        let last = self.len().checked_sub(1)?;
        self.get(last)
    }

    // The item at `at`, counted from 0 at the front.
    pub fn get(&self, at: usize) -> Option<T>
        ensures { result ≡ slice_get (items self.now) at }
    {
        if at < self.len() {
            Some(self.item(at))
        } else {
            None
        }
    }

    // The item at `at`.
    #[tactic(auto, using(crate::proofs::Facts::ring), unfolding(crate::specs::Model::items))]
    pub(super) fn item(&self, at: usize) -> T
        requires { at < length (items self.now) }
        ensures { Some result ≡ slice_get (items self.now) at }
    {
        self.space[self.place(at)]
    }

    // Where the item at `at` stands in the space, or would stand.
    pub(super) fn place(&self, at: usize) -> usize
        requires { at ≤ room_of self.now }
        ensures { result ≡ place_of self.now.room self.now.first at }
    {
        let ahead = self.room - self.first;
        if at < ahead {
            self.first + at
        } else {
            at - ahead
        }
    }
}
