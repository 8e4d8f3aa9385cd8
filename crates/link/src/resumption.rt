// What is to be done with a delivery after the link came back (Part 2, 2.6.13).
ghost use Rattle.std.specs.Prelude.{◌≡◌};
ghost use Rattle.link.specs.Resuming.{same_kind, resumption, delivery_of};

use amqp::header::Transfer;
use amqp::state::{DeliveryState, Received};
use amqp::tag::DeliveryTag;
use unsettled::message::{Place, UnsettledMessage};
use unsettled::slot::Slot;

// What our state of a delivery and the peer's come to.
#[derive(Clone, Copy, PartialEq, Eq)]
pub enum Resumption {
    // The peer does not know it: it is sent again under a new tag.
    Resend,
    // The peer has a part of it, up to a place.
    Resume(Received),
    Abort,
    // The peer has another outcome: ours is told.
    RestateOutcome,
    // It ends, and the peer does not list it.
    End(DeliveryState),
    // It ends, and the peer is told how.
    Settle(DeliveryState),
}

#[derive(Clone, Copy)]
pub enum ResumingDelivery {
    Resend(Slot<UnsettledMessage>),
    Resume(Slot<UnsettledMessage>, Received),
    Abort(Slot<UnsettledMessage>),
    RestateOutcome(Slot<UnsettledMessage>),
    // It has ended, and the peer still lists its tag: the peer is told the outcome. No delivery stands behind it.
    Settling {
        tag: DeliveryTag,
        message_format: u32,
        outcome: DeliveryState,
    },
}

// What is put for a delivery that came back, and what becomes of it.
#[derive(Clone, Copy)]
pub struct Task {
    pub transfer: Transfer,
    // Where the payload lies in the pool.
    pub payload: Place,
    // The entry that joins the table.
    pub joins: Option<Slot<UnsettledMessage>>,
    // The number of the delivery that ends.
    pub ends: Option<u32>,
}

// What a step through one of the lists came to.
#[derive(Clone, Copy, PartialEq, Eq)]
pub enum Progress {
    // Nothing was left.
    Done,
    Worked,
}

impl ResumingDelivery {
    // The delivery that comes back, if one stands behind it.
    pub fn delivery(&self) -> Option<Slot<UnsettledMessage>>
        ensures { result ≡ delivery_of self.now }
    {
        match self {
            ResumingDelivery::Resend(slot)
            | ResumingDelivery::Resume(slot, _)
            | ResumingDelivery::Abort(slot)
            | ResumingDelivery::RestateOutcome(slot) => Some(*slot),
            ResumingDelivery::Settling { .. } => None,
        }
    }
}

// Two outcomes are of one kind, whatever their condition or marks.
fn is_same_kind(own: &DeliveryState, peer: &DeliveryState) -> bool
    ensures { result ≡ same_kind own.now peer.now }
{
    matches!(
        (own, peer),
        (DeliveryState::Accepted, DeliveryState::Accepted)
            | (DeliveryState::Rejected(_), DeliveryState::Rejected(_))
            | (DeliveryState::Released, DeliveryState::Released)
            | (
                DeliveryState::Modified { .. },
                DeliveryState::Modified { .. }
            )
    )
}

// Our state of a delivery, and the peer's if it lists it, where a null one stands for the message's start.
pub fn resume_delivery(
    local: Option<DeliveryState>,
    remote: Option<Option<DeliveryState>>,
) -> Resumption
    ensures { result ≡ resumption local remote }
{
    let remote = remote.map(|state| {
        state.unwrap_or(DeliveryState::Received(Received {
            section_number: 0,
            section_offset: 0,
        }))
    });
    match (local, remote) {
        (None, None) => Resumption::Resend,
        (None, Some(DeliveryState::Received(peer))) => Resumption::Resume(peer),
        (None, Some(outcome)) => Resumption::Settle(outcome),
        (Some(DeliveryState::Received(_)), None) => Resumption::Resend,
        (Some(DeliveryState::Received(own)), Some(DeliveryState::Received(peer))) => {
            if own.is_at_most(&peer) {
                Resumption::Resume(peer)
            } else {
                Resumption::Abort
            }
        }
        (Some(DeliveryState::Received(_)), Some(outcome)) => Resumption::Settle(outcome),
        (Some(outcome), None) => Resumption::End(outcome),
        (Some(_), Some(DeliveryState::Received(_))) => Resumption::Abort,
        (Some(own), Some(peer)) => {
            if is_same_kind(&own, &peer) {
                Resumption::Settle(own)
            } else {
                Resumption::RestateOutcome
            }
        }
    }
}
