// Changing what a queue holds.
ghost use Rattle.std.specs.Prelude.{◌≡◌, ◌+◌, ◌-◌, ◌<◌, false, [], ◌∷◌, ◌++◌, length, take, drop, is_some, is_ok, if◌then◌else◌, slice_set};
ghost use Rattle.std.specs.List.{remove};
ghost use Rattle.queue.specs.Model.{items, room_of, places, Kept};
ghost use Rattle.queue.specs.Outcomes.{room_set, pushed, front_taken, back_taken, replaced, taken_out};

use super::Queue;

#[tactic(auto, using(crate::proofs::Facts::sizes))]
impl<T: Copy> Queue<'_, T> {
    // Sets how many places of its space an empty queue may use. More places than the space has are
    // refused, and so is any change while there are items: the room is then handed back.
    #[tactic(auto, using(crate::proofs::Facts::ring), unfolding(crate::specs::Model::items))]
    pub fn set_room(&mut self, room: usize) -> Result<(), usize>
        ensures held { (result, room_of self.new) ≡ room_set (length (items self.old)) (length (places self.old)) (room_of self.old) room }
        ensures items { items self.new ≡ items self.old }
        ensures places { places self.new ≡ places self.old }
        ensures space { self.new.space.ghost_name ≡ self.old.space.ghost_name }
        ensures refused { is_ok result ≡ false → self.new ≡ self.old }
    {
        if !self.is_empty() || room > self.space.len() {
            return Err(room);
        }
        self.room = room;
        self.first = 0;
        Ok(())
    }

    // Lets every item go. No place of the space is altered.
    #[tactic(auto, using(crate::proofs::Facts::ring), unfolding(crate::specs::Model::items))]
    pub fn clear(&mut self)
        ensures held { items self.new ≡ [] }
        ensures places { places self.new ≡ places self.old }
        ensures kept { Kept self.old self.new }
    {
        self.count = 0;
    }

    // Adds an item at the back. A full queue hands it back.
    pub fn push_back(&mut self, item: T) -> Result<(), T>
        ensures held { (result, items self.new) ≡ pushed (room_of self.old) (items self.old) item }
        ensures len { length (items self.new) ≡ length (items self.old) + (if is_ok result then 1 else 0) }
        ensures kept { Kept self.old self.new }
        ensures refused { is_ok result ≡ false → self.new ≡ self.old }
    {
        if self.is_full() {
            return Err(item);
        }
        self.append(item);
        Ok(())
    }

    // Takes the first item.
    pub fn pop_front(&mut self) -> Option<T>
        ensures held { (result, items self.new) ≡ front_taken (items self.old) }
        ensures len { length (items self.new) + (if is_some result then 1 else 0) ≡ length (items self.old) }
        ensures kept { Kept self.old self.new }
        ensures refused { is_some result ≡ false → self.new ≡ self.old }
    {
        let item = self.front()?;
        self.drop_front();
        Some(item)
    }

    // Takes the last item. It is told from `pop_front` by its end alone, in three lines.
    pub fn pop_back(&mut self) -> Option<T>
        ensures held { (result, items self.new) ≡ back_taken (items self.old) }
        ensures len { length (items self.new) + (if is_some result then 1 else 0) ≡ length (items self.old) }
        ensures kept { Kept self.old self.new }
        ensures refused { is_some result ≡ false → self.new ≡ self.old }
    {
        let item = self.back()?;
        self.drop_back();
        Some(item)
    }

    // Puts an item in the place of the one at `at`, which is the answer. Where there is none, the
    // new item is handed back.
    #[tactic(auto, using(crate::proofs::Facts::sizes, crate::proofs::Lists::looks))]
    pub fn replace(&mut self, at: usize, item: T) -> Result<T, T>
        ensures held { (result, items self.new) ≡ replaced (items self.old) at item }
        ensures len { length (items self.new) ≡ length (items self.old) }
        ensures kept { Kept self.old self.new }
        ensures refused { is_ok result ≡ false → self.new ≡ self.old }
    {
        let old = self.get(at).ok_or(item)?;
        self.put(at, item);
        Ok(old)
    }

    // Takes out the item at `at`. The others keep their order.
    #[tactic(auto, using(crate::proofs::Facts::sizes, crate::proofs::Lists::looks))]
    pub fn remove(&mut self, at: usize) -> Option<T>
        ensures held { (result, items self.new) ≡ taken_out (items self.old) at }
        ensures len { length (items self.new) + (if is_some result then 1 else 0) ≡ length (items self.old) }
        ensures kept { Kept self.old self.new }
        ensures refused { is_some result ≡ false → self.new ≡ self.old }
    {
        let item = self.get(at)?;
        self.close_gap(at);
        Some(item)
    }

    // Adds an item at the back.
    #[tactic(auto, using(crate::proofs::Facts::ring), unfolding(crate::specs::Model::items))]
    fn append(&mut self, item: T)
        requires { length (items self.old) < room_of self.old }
        ensures held { items self.new ≡ items self.old ++ item ∷ [] }
        ensures kept { Kept self.old self.new }
    {
        self.count += 1;
        self.put(self.count - 1, item);
    }

    // Lets the first item go.
    #[tactic(auto, using(crate::proofs::Facts::ring), unfolding(crate::specs::Model::items))]
    fn drop_front(&mut self)
        requires { 0 < length (items self.old) }
        ensures held { items self.new ≡ drop 1 (items self.old) }
        ensures kept { Kept self.old self.new }
    {
        self.first = self.place(1);
        self.count -= 1;
    }

    // Lets the last item go.
    #[tactic(auto, using(crate::proofs::Facts::ring), unfolding(crate::specs::Model::items))]
    fn drop_back(&mut self)
        requires { 0 < length (items self.old) }
        ensures held { items self.new ≡ take (length (items self.old) - 1) (items self.old) }
        ensures kept { Kept self.old self.new }
    {
        self.count -= 1;
    }

    // Lets the item at `at` go: each one behind it moves one place forward.
    #[tactic(auto, using(crate::proofs::Facts::gaps))]
    fn close_gap(&mut self, at: usize)
        requires { at < length (items self.old) }
        ensures held { items self.new ≡ remove (items self.old) at }
        ensures kept { Kept self.old self.new }
    {
        // By number, since no slice holds the items in their order.
        for gap in at..self.len() - 1 {
            let next = self.item(gap + 1);
            self.put(gap, next);
        }
        self.drop_back();
    }

    // Puts an item in the place of the one at `at`.
    #[tactic(auto, using(crate::proofs::Facts::ring), unfolding(crate::specs::Model::items))]
    fn put(&mut self, at: usize, item: T)
        requires { at < length (items self.old) }
        ensures held { items self.new ≡ slice_set (items self.old) at item }
        ensures kept { Kept self.old self.new }
    {
        self.space[self.place(at)] = item;
    }
}
