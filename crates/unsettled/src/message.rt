// An unsettled delivery's message, which lies in a pool of bytes that many messages share.
ghost use Rattle.std.specs.Prelude.{◌≡◌, length};
ghost use Rattle.unsettled.specs.Messages.{outside, any_outside};

use crate::shown::AsDeliveryState;
use crate::slot::Slot;
use amqp::state::DeliveryState;

// The most bytes that a pool may have.
const MAX_POOL: usize = 67_108_864;

// Where a message lies in the pool. It is no slice, since each call is lent the pool anew.
#[derive(Clone, Copy, Default)]
pub struct Place {
    pub start: usize,
    pub len: usize,
}

// What is kept of a delivery until it is settled: its message, the state last recorded, and the
// number of its ticket.
#[derive(Clone, Copy, Default)]
pub struct UnsettledMessage {
    pub place: Place,
    pub state: Option<DeliveryState>,
    pub message_format: u32,
    pub ticket: u32,
}

impl Place {
    // It does not lie within this pool, or the pool is too long.
    pub fn is_outside(&self, pool: &[u8]) -> bool
        ensures { result ≡ outside self.now (length pool.now) }
    {
        let n = pool.len();
        n > MAX_POOL || self.start > n || self.len > n - self.start
    }
}

impl AsDeliveryState for UnsettledMessage {
    ghost state = { λ m. m.state };

    fn as_delivery_state(&self) -> Option<DeliveryState> {
        self.state
    }
}

// Some entry's message does not lie within the pool.
pub fn any_outside(slots: &[Slot<UnsettledMessage>], pool: &[u8]) -> bool
    ensures { result ≡ any_outside slots.now (length pool.now) }
{
    slots.iter().any(|slot| slot.entry.place.is_outside(pool))
}
