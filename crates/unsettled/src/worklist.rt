// A list that is worked off from its start, in lent memory.
ghost use Rattle.std.specs.Prelude.{◌≡◌, ◌+◌, ◌<◌, ◌≤◌, [], ◌∷◌, ◌++◌, length, drop, ◌==◌, nat_le, nat_lt, if◌then◌else◌, Ok, Err};
ghost use Rattle.std.specs.List.{slice_get};

use crate::slot::MapError;

// It holds `len` places from `start`. Its methods are those of a table, but a table begins where its memory does: a list that
// is worked off does not. It has no model for the reason that the table has none.
#[derive(Drop)]
pub struct Worklist<'a, X> {
    slots: &'a mut [X],
    start: usize,
    len: usize,
    ghost fits: { start + len ≤ length slots.now },
}

impl<'a, X: Copy> Worklist<'a, X> {
    ghost use Rattle.unsettled.specs.Worklists.{items, space};

    // An empty list in this memory.
    pub fn new(slots: &'a mut [X]) -> Worklist<'a, X>
        ensures holds { items result ≡ [] }
        ensures space { space result ≡ length slots.old }
    {
        Worklist {
            slots,
            start: 0,
            len: 0,
        }
    }

    // What it holds, in order.
    pub fn front(&self) -> &[X]
        ensures { result.now ≡ items self.now }
    {
        &self.slots[self.start..self.start + self.len]
    }

    pub fn count(&self) -> usize
        ensures value { result ≡ length (items self.now) }
        ensures within { result ≤ space self.now }
    {
        self.front().len()
    }

    pub fn capacity(&self) -> usize
        ensures { result ≡ space self.now }
    {
        self.slots.len()
    }

    pub fn is_empty(&self) -> bool
        ensures { result ≡ (length (items self.now) == 0) }
    {
        self.front().is_empty()
    }

    pub fn is_full(&self) -> bool
        ensures { result ≡ nat_le (space self.now) (length (items self.now)) }
    {
        self.count() >= self.capacity()
    }

    // The oldest item.
    pub fn first(&self) -> Option<X>
        ensures { result ≡ slice_get (items self.now) 0 }
    {
        self.front().first().copied()
    }

    // Takes the oldest item out.
    #[tactic(auto, using(crate::proofs::Spans::popped))]
    pub fn pop_front(&mut self) -> Option<X>
        ensures answer { result ≡ slice_get (items self.old) 0 }
        ensures holds { items self.new ≡ drop 1 (items self.old) }
        ensures space { space self.new ≡ space self.old }
    {
        let item = self.first()?;
        self.start += 1;
        self.len -= 1;
        Some(item)
    }

    // Where the memory's end is reached, the items move to its front.
    fn make_room(&mut self)
        requires { length (items self.old) < space self.old }
        ensures holds { items self.new ≡ items self.old }
        ensures space { space self.new ≡ space self.old }
        ensures room { self.new.start + self.new.len < space self.new }
    {
        let end = self.start + self.len;
        if end == self.slots.len() {
            self.slots.copy_within(self.start..end, 0);
            self.start = 0;
        }
    }

    // An item joins the end where there is room.
    #[tactic(auto, using(crate::proofs::Spans::pushed))]
    pub fn push(&mut self, item: X) -> Result<(), MapError>
        ensures answer { result ≡ (if nat_lt (length (items self.old)) (space self.old) then Ok tt else Err MapError.Full) }
        ensures holds { items self.new ≡ (if nat_lt (length (items self.old)) (space self.old) then items self.old ++ item ∷ [] else items self.old) }
        ensures space { space self.new ≡ space self.old }
    {
        if self.is_full() {
            return Err(MapError::Full);
        }
        self.make_room();
        self.slots[self.start + self.len] = item;
        self.len += 1;
        Ok(())
    }

    pub fn clear(&mut self)
        ensures holds { items self.new ≡ [] }
        ensures space { space self.new ≡ space self.old }
    {
        self.len = 0;
    }
}
