// What both ends agree on for a link.
ghost use Rattle.std.specs.Prelude.{◌≡◌};
ghost use Rattle.link.specs.Settings.{settles, smaller_limit, with_limit, exceeds, conflict};

use amqp::mode::{ReceiverSettleMode, SenderSettleMode};

#[derive(Clone, Copy)]
pub struct Settings {
    pub snd_settle_mode: SenderSettleMode,
    pub rcv_settle_mode: ReceiverSettleMode,
    // The longest message, or 0 for no limit, as attaches have it on the wire (Part 2, 2.7.3).
    pub max_message_size: u64,
    // The longest frame without the four bytes of its length.
    pub max_frame_size: usize,
}

impl Settings {
    // Whether a delivery goes out settled, by the mode, or where that leaves it open, as asked: three modes, three answers.
    pub fn is_settled_on_send(&self, asked: Option<bool>) -> bool
        ensures { result ≡ settles self.now.snd_settle_mode asked }
    {
        match self.snd_settle_mode {
            SenderSettleMode::Settled => true,
            SenderSettleMode::Unsettled => false,
            SenderSettleMode::Mixed => asked.unwrap_or(false),
        }
    }

    // Whether a message is longer than the limit.
    pub fn is_exceeded_by(&self, len: usize) -> bool
        ensures { result ≡ exceeds self.now.max_message_size len }
    {
        self.max_message_size != 0 && len as u64 > self.max_message_size
    }

    // The peer's limit holds too.
    pub fn limit_by(&mut self, max_message_size: u64)
        ensures { self.new ≡ with_limit (smaller_limit self.old.max_message_size max_message_size) self.old }
    {
        let own = self.max_message_size;
        self.max_message_size = match (own, max_message_size) {
            (0, limit) => limit,
            (limit, 0) => limit,
            (a, b) => a.min(b),
        };
    }

    // Whether the peer wants the sender to settle otherwise than it does.
    pub fn conflicts_with(&self, peer: SenderSettleMode) -> bool
        ensures { result ≡ conflict self.now.snd_settle_mode peer }
    {
        matches!(
            (self.snd_settle_mode, peer),
            (SenderSettleMode::Settled, SenderSettleMode::Unsettled)
                | (SenderSettleMode::Unsettled, SenderSettleMode::Settled)
        )
    }
}
