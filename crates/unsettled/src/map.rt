// A table of unsettled deliveries by their tags, in lent memory (Part 2, 2.6.13).
ghost use Rattle.std.specs.Prelude.{◌≡◌, ◌<◌, ◌≤◌, [], length, take, is_some, IfSome, if◌then◌else◌, Ok, Err, slice_set};
ghost use Rattle.std.specs.List.{slice_get};
ghost use Rattle.unsettled.specs.Indexes.{keys_of};
ghost use Rattle.unsettled.specs.Keyed.{Keyed, Keyed-prop, key_of};

use crate::index::{Index, PLACES, key_of_bytes};
use crate::slot::{MapError, Slot};
use amqp::tag::DeliveryTag;

// So few slots are searched one by one: that is sooner done than a key is made.
const FEW_SLOTS: usize = 8;

// It holds the first `len` slots, in memory that is lent: a link takes no heap. An index leads from a tag to its slot. It has no model:
// clauses would say `.items` and `.room` where they say `held` and `room`. That a call keeps the room is a fact of two tables.
#[derive(Drop)]
pub struct UnsettledMap<'a, M> {
    slots: &'a mut [Slot<M>],
    len: usize,
    index: Index,
    ghost fits: { len ≤ length slots.now },
    ghost keyed: { Keyed key_of (keys_of index) len slots.now } by { Keyed-prop key_of (keys_of index) len slots.now },
}

// A slot is written, and stands under its key.
fn write<M: Copy>(slots: &mut [Slot<M>], index: &mut Index, i: usize, slot: Slot<M>)
    requires { i < length slots.old }
    ensures slots { slots.new ≡ slice_set slots.old i slot }
    ensures keys { keys_of index.new ≡ slice_set (keys_of index.old) i (key_of slot) }
{
    index.put(i, key_of_bytes(slot.tag.as_slice()));
    slots[i] = slot;
}

impl<'a, M: Copy> UnsettledMap<'a, M> {
    ghost use Rattle.unsettled.specs.Tables.{held, room, full, place, look, can_put, put_in, swap_removed};

    // An empty table in this memory.
    #[tactic(auto, using(crate::proofs::Keyed::keyed_none))]
    pub fn new(slots: &'a mut [Slot<M>]) -> UnsettledMap<'a, M>
        ensures holds { held result ≡ [] }
        ensures room { room result ≡ length slots.old }
    {
        UnsettledMap {
            slots,
            len: 0,
            index: Index::new(),
        }
    }

    // What it holds, in order.
    pub fn front(&self) -> &[Slot<M>]
        ensures { result.now ≡ held self.now }
    {
        &self.slots[..self.len]
    }

    pub fn count(&self) -> usize
        ensures value { result ≡ length (held self.now) }
        ensures within { result ≤ room self.now }
    {
        self.front().len()
    }

    pub fn capacity(&self) -> usize
        ensures { result ≡ room self.now }
    {
        self.slots.len()
    }

    pub fn is_full(&self) -> bool
        ensures { result ≡ full self.now }
    {
        self.count() >= self.capacity()
    }

    pub fn at(&self, i: usize) -> Option<Slot<M>>
        ensures { result ≡ slice_get (held self.now) i }
    {
        self.front().get(i).copied()
    }

    // It is inlined, as are `find` and `put`: in a table of few entries such calls cost as much as the search.
    #[inline(always)]
    #[tactic(auto, unfolding(crate::specs::Tables::same_tag))]
    fn search(&self, tag: &DeliveryTag) -> Option<usize>
        ensures value { result ≡ place tag.now (held self.now) }
        ensures within { IfSome result (λ i. i < length (held self.now)) }
    {
        self.front().iter().position(|slot| slot.tag == *tag)
    }

    // Where a tag stands first. What the index cannot tell is searched for: a tag that shares its key, or one past its places.
    // A place past the last slot was left by a tag that is there no more.
    #[inline(always)]
    pub fn find(&self, tag: &DeliveryTag) -> Option<usize>
        ensures value { result ≡ place tag.now (held self.now) }
        ensures within { IfSome result (λ i. i < length (held self.now)) }
    {
        if self.len <= FEW_SLOTS {
            return self.search(tag);
        }
        let slots = self.front();
        match self.index.find(key_of_bytes(tag.as_slice())) {
            Some(i) if i < slots.len() && slots[i].tag == *tag => Some(i),
            Some(i) if i >= slots.len() => None,
            None if slots.len() <= PLACES => None,
            _ => self.search(tag),
        }
    }

    #[tactic(auto, using(crate::proofs::Memory::there))]
    pub fn contains(&self, tag: &DeliveryTag) -> bool
        ensures { result ≡ is_some (look tag.now (held self.now)) }
    {
        self.find(tag).is_some()
    }

    #[tactic(auto, using(crate::proofs::Memory::look_some, crate::proofs::Memory::look_none))]
    pub fn get(&self, tag: &DeliveryTag) -> Option<M>
        ensures { result ≡ look tag.now (held self.now) }
    {
        let i = self.find(tag)?;
        Some(self.slots[i].entry)
    }

    // A new tag joins the end where there is room, and a present one has its entry replaced.
    #[inline(always)]
    #[tactic(auto, using(crate::proofs::Memory::can_put_some, crate::proofs::Memory::can_put_none, crate::proofs::Memory::put_over, crate::proofs::Memory::put_next))]
    pub fn put(&mut self, tag: DeliveryTag, entry: M) -> Result<(), MapError>
        ensures answer { result ≡ (if can_put (room self.old) tag (held self.old) then Ok tt else Err MapError.Full) }
        ensures holds { held self.new ≡ (if can_put (room self.old) tag (held self.old) then put_in tag entry (held self.old) else held self.old) }
        ensures room { room self.new ≡ room self.old }
    {
        let slot = Slot { tag, entry };
        if let Some(i) = self.find(&tag) {
            self.slots[i] = slot;
            return Ok(());
        }
        if self.is_full() {
            return Err(MapError::Full);
        }
        write(self.slots, &mut self.index, self.len, slot);
        self.len += 1;
        Ok(())
    }

    // Takes a tag out, and answers its entry. The last slot moves into the gap, so no other has to; where it is the one that goes, none does.
    #[tactic(auto, using(crate::proofs::Memory::look_some, crate::proofs::Memory::look_none, crate::proofs::Memory::swap_last, crate::proofs::Memory::last_out))]
    pub fn swap_remove(&mut self, tag: &DeliveryTag) -> Option<M>
        ensures answer { result ≡ look tag.now (held self.old) }
        ensures holds { held self.new ≡ swap_removed tag.now (held self.old) }
        ensures room { room self.new ≡ room self.old }
    {
        let i = self.find(tag)?;
        let entry = self.slots[i].entry;
        let last = self.slots[self.len - 1];
        self.len -= 1;
        self.index.remove(self.len);
        if i == self.len {
            return Some(entry);
        }
        write(self.slots, &mut self.index, i, last);
        Some(entry)
    }

    #[tactic(auto, using(crate::proofs::Keyed::keyed_none))]
    pub fn clear(&mut self)
        ensures holds { held self.new ≡ [] }
        ensures room { room self.new ≡ room self.old }
    {
        self.len = 0;
    }

    // Keeps the first `len` slots.
    #[tactic(auto, using(crate::proofs::Keyed::keyed_fewer))]
    pub fn truncate(&mut self, len: usize)
        ensures holds { held self.new ≡ take len (held self.old) }
        ensures room { room self.new ≡ room self.old }
    {
        self.len = self.len.min(len);
    }
}
