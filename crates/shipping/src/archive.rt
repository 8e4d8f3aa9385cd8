// The archive at the link's other end: it joins the payloads that come, and judges what they make.
ghost use Rattle.std.specs.Prelude.{◌≡◌, Some, None, OnOk, MatchOption};
ghost use Rattle.shipping.specs.Archives.{Intake, untouched, tag_in, took, granting, Judged};

use amqp::condition::AmqpError;
use amqp::header::{FrameKind, Header};
use amqp::state::DeliveryState;
use amqp::tag::DeliveryTag;
use link::flow::LinkFlow;
use sink::frame::Frame;
use std::alloc::{AllocError, Global};
use std::marker::Model;

#[derive(Drop)]
pub struct Archive {
    // How many deliveries have begun.
    deliveries: u32,
    // The tag of the last of them, and what has come of it.
    tag: Option<DeliveryTag>,
    joined: Vec<u8>,
}

impl Model for Archive {
    ghost Value = { Intake };

    ghost view = { λ a. record { deliveries = a.deliveries; tag = a.tag; joined = a.joined.items } };
}

fn tag_of(header: &Header) -> Option<DeliveryTag>
    ensures { result ≡ tag_in header.now }
{
    match header {
        Header::Transfer(transfer) => transfer.delivery_tag,
        Header::Disposition(_) => None,
    }
}

// Accepted where what came is the message, and else rejected.
pub fn judge(joined: &[u8], message: &[u8]) -> DeliveryState
    ensures { Judged joined.now message.now result }
{
    if joined == message {
        DeliveryState::Accepted
    } else {
        DeliveryState::Rejected(Some(AmqpError::DecodeError))
    }
}

impl Archive {
    pub fn new(heap: Global) -> Archive
        ensures { result ≡ untouched }
    {
        Archive {
            deliveries: 0,
            tag: None,
            joined: Vec::new(heap),
        }
    }

    // A first frame begins anew, a continuation is appended, and a disposition brings no payload. It is inlined where frames are
    // read out, so that no header is copied for the call.
    #[inline(always)]
    pub fn receive(&mut self, frame: Frame<'_>) -> Result<(), AllocError>
        ensures { OnOk result (self.new ≡ took frame.entry.kind frame.entry.header frame.entry.payload.now self.old) }
    {
        match frame.kind {
            FrameKind::First => {
                self.deliveries = self.deliveries.wrapping_add(1);
                self.tag = tag_of(&frame.header);
                self.joined.clear();
                self.joined.extend_from_slice(frame.payload)
            }
            FrameKind::Continuation => self.joined.extend_from_slice(frame.payload),
            FrameKind::Disposition => Ok(()),
        }
    }

    // The last delivery's tag, and how the archive judges what came of it against the message. Nothing if no tag is known.
    pub fn answer(&self, message: &[u8]) -> Option<(DeliveryTag, DeliveryState)>
        ensures { MatchOption result (self.now.tag ≡ None) (λ a. (self.now.tag ≡ Some a.0) × Judged self.now.joined message.now a.1) }
    {
        let tag = self.tag?;
        Some((tag, judge(self.joined.as_slice(), message)))
    }

    // A flow that grants this credit from what has come so far.
    pub fn grant(&self, credit: u32) -> LinkFlow
        ensures { result ≡ granting credit self.now }
    {
        LinkFlow {
            handle: None,
            delivery_count: Some(self.deliveries),
            link_credit: Some(credit),
            available: None,
            drain: false,
            echo: false,
        }
    }
}
