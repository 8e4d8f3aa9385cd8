// The peer's attach (Part 2, 2.7.3).
use amqp::mode::{ReceiverSettleMode, SenderSettleMode};
use unsettled::peer::PeerDelivery;

#[derive(Clone, Copy)]
pub struct Attach<'p> {
    pub handle: u32,
    pub snd_settle_mode: SenderSettleMode,
    pub rcv_settle_mode: ReceiverSettleMode,
    pub has_target: bool,
    pub unsettled: &'p [PeerDelivery<'p>],
    // The attach's own flag (Part 2, 2.7.3): what the map lists counts all the same.
    pub incomplete_unsettled: bool,
    // 0 for no limit, as on the wire (Part 2, 2.7.3).
    pub max_message_size: u64,
}

// What the exchange of attaches came to.
#[derive(Clone, Copy, PartialEq, Eq)]
pub enum SenderAttachExchange {
    // No delivery was unsettled at either end.
    Complete,
    // At least one end's map is not complete.
    IncompleteUnsettled,
    Resume,
}
