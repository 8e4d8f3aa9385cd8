// What a frame says besides its payload (Part 2, 2.7.5 and 2.7.6).
ghost use Rattle.std.specs.Prelude.{◌≡◌};
ghost use Rattle.amqp.specs.Headers.{continuation_of};

use crate::state::DeliveryState;
use crate::tag::DeliveryTag;

// A transfer. The receiver's settle mode is always absent: the one of the attach holds.
#[derive(Clone, Copy, PartialEq, Eq)]
pub struct Transfer {
    pub handle: u32,
    pub delivery_id: Option<u32>,
    pub delivery_tag: Option<DeliveryTag>,
    pub message_format: Option<u32>,
    pub settled: Option<bool>,
    pub more: bool,
    pub state: Option<DeliveryState>,
    pub resume: bool,
    pub aborted: bool,
    pub batchable: bool,
}

// A sender's disposition of one delivery: its role is sender, and it has no last id.
#[derive(Clone, Copy, PartialEq, Eq)]
pub struct Disposition {
    pub first: u32,
    pub settled: bool,
    pub state: Option<DeliveryState>,
    pub batchable: bool,
}

#[derive(Clone, Copy, PartialEq, Eq)]
pub enum Header {
    Transfer(Transfer),
    Disposition(Disposition),
}

#[derive(Clone, Copy, PartialEq, Eq)]
pub enum FrameKind {
    First,
    Continuation,
    Disposition,
}

impl Transfer {
    // The transfer of a frame after a delivery's first, which says only once what holds of all.
    pub fn continuation(&self) -> Transfer
        ensures { result ≡ continuation_of self.now }
    {
        Transfer {
            delivery_id: None,
            delivery_tag: None,
            message_format: None,
            settled: None,
            state: None,
            ..*self
        }
    }
}
