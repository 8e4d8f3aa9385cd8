// What our own attach tells the peer of the table.
ghost use Rattle.std.specs.Prelude.{◌≡◌, length, take, IfSome, IfOk};
ghost use Rattle.unsettled.specs.declared.message.UnsettledMessage.{UnsettledMessage as Message};
ghost use Rattle.unsettled.specs.Shown.{shown_pairs, shown_answer, shown_memory, Tells};

use super::SenderLink;
use amqp::error::MemoryError;
use amqp::state::DeliveryState;
use unsettled::slot::Slot;

impl<'a> SenderLink<'a> {
    // The unsettled deliveries' tags and states, as those of `UnsettledMap` are shown; a list's deliveries are not in it.
    pub fn get_unsettled_map(
        &self,
        is_reattaching: bool,
        partial_unsettled: usize,
        out: &mut [Slot<Option<DeliveryState>>],
    ) -> Result<Option<usize>, MemoryError>
        ensures answer { result ≡ shown_answer (length out.old) (shown_pairs (λ (m : Message). m.state) is_reattaching partial_unsettled self.now.held.table) }
        ensures tells { IfOk result (λ o. IfSome o (λ n. Tells (λ (m : Message). m.state) partial_unsettled self.now.held.table (take n out.new))) }
        ensures memory { out.new ≡ shown_memory out.old (shown_pairs (λ (m : Message). m.state) is_reattaching partial_unsettled self.now.held.table) }
    {
        self.unsettled
            .get_unsettled_map(is_reattaching, partial_unsettled, out)
    }
}
