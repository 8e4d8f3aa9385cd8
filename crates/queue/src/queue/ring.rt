// Going round the ring.
ghost use Rattle.std.specs.Prelude.{◌≡◌, ◌<◌, ◌≤◌, vec_len};
ghost use Rattle.queue.specs.Rings.{slot};

use super::Queue;

impl Queue {
    // The place that is i further than the oldest frame's.
    #[tactic(auto, using(crate::proofs::Slots::slot_below, crate::proofs::Slots::slot_above))]
    pub(super) fn slot_at(&self, i: usize) -> usize
        requires some { 0 < vec_len self.now.places }
        requires far { i ≤ vec_len self.now.places }
        ensures value { result ≡ slot (vec_len self.now.places) self.now.head i }
        ensures inside { result < vec_len self.now.places }
    {
        let to_end = self.places.len() - self.head;
        if i < to_end {
            self.head + i
        } else {
            i - to_end
        }
    }
}
