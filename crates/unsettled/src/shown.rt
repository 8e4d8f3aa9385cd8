// What a table tells the peer of its deliveries, as an attach brings it (Part 2, 2.7.3).
ghost use Rattle.std.specs.Prelude.{◌≡◌, ◌≤◌, ◌++◌, map, length, take, drop, Option, IfSome, IfOk};
ghost use Rattle.amqp.specs.declared.state.DeliveryState.{DeliveryState as State};
ghost use Rattle.unsettled.specs.Tables.{held};
ghost use Rattle.unsettled.specs.Shown.{shown_slot, shown_pairs, shown_answer, shown_memory, Tells};

use crate::map::UnsettledMap;
use crate::slot::Slot;
use amqp::error::MemoryError;
use amqp::state::DeliveryState;

// An entry that can tell its delivery state.
pub trait AsDeliveryState {
    // The state that was last recorded, or none.
    ghost state: { Self → Option State };

    fn as_delivery_state(&self) -> Option<DeliveryState>
        ensures { result ≡ state self.now };
}

impl AsDeliveryState for Option<DeliveryState> {
    ghost state = { λ s. s };

    fn as_delivery_state(&self) -> Option<DeliveryState> {
        *self
    }
}

// Writes each tag with its state to the front of `out`.
fn show<M: Copy + AsDeliveryState>(slots: &[Slot<M>], out: &mut [Slot<Option<DeliveryState>>])
    requires { length slots.now ≤ length out.old }
    ensures { out.new ≡ map (shown_slot M.state) slots.now ++ drop (length slots.now) out.old }
{
    // By place: of what is written through an iterator a proof knows nothing.
    for i in 0..slots.len() {
        let slot = slots[i];
        out[i] = Slot {
            tag: slot.tag,
            entry: slot.entry.as_delivery_state(),
        };
    }
}

impl<'a, M: Copy + AsDeliveryState> UnsettledMap<'a, M> {
    // Writes the pairs that are shown to the front of `out`, and answers how many: all for a `partial_unsettled` of 0 or 1, which
    // is the denominator of their share, and none at all when reattaching.
    pub fn get_unsettled_map(
        &self,
        is_reattaching: bool,
        partial_unsettled: usize,
        out: &mut [Slot<Option<DeliveryState>>],
    ) -> Result<Option<usize>, MemoryError>
        ensures answer { result ≡ shown_answer (length out.old) (shown_pairs M.state is_reattaching partial_unsettled (held self.now)) }
        ensures tells { IfOk result (λ o. IfSome o (λ n. Tells M.state partial_unsettled (held self.now) (take n out.new))) }
        ensures memory { out.new ≡ shown_memory out.old (shown_pairs M.state is_reattaching partial_unsettled (held self.now)) }
    {
        let slots = self.front();
        if is_reattaching || slots.is_empty() {
            return Ok(None);
        }
        let count = slots.len() / partial_unsettled.max(1);
        if out.len() < count {
            return Err(MemoryError::TooShort);
        }
        show(&slots[..count], out);
        Ok(Some(count))
    }
}
