// The archive, which keeps what came of a delivery that is not finished. On a link one delivery's frames come after the other's
// (Part 2, 2.6.14), and one that was cut off is resumed before anything else comes: so at most one is unfinished.
ghost use Rattle.std.specs.Prelude.{◌≡◌, None, MatchResult};
ghost use Rattle.std.specs.Option.{option_map};
ghost use Rattle.voyage.specs.declared.receiver.ReceiveError.TheVariants.{NoMemory};
ghost use Rattle.voyage.specs.Receiving.{Piece, Intake, untouched, fresh, reached, known, listed, kept_of, came_of, beginning, continuing, joining, joined, unfinished, finished, Taken, Received as ReceivedAs};

use amqp::header::{FrameKind, Header, Transfer};
use amqp::state::{DeliveryState, Received};
use amqp::tag::DeliveryTag;
use sink::frame::Frame;
use std::alloc::{AllocError, Global};
use std::marker::Model;
use unsettled::peer::PeerDelivery;

// What came of a delivery.
#[derive(Drop)]
pub struct Part {
    pub tag: DeliveryTag,
    // How many frames brought it.
    pub frames: usize,
    pub bytes: Vec<u8>,
}

impl Model for Part {
    ghost Value = { Piece };

    ghost view = { λ p. record { tag = p.tag; frames = p.frames; bytes = p.bytes.items } };
}

#[derive(Drop)]
pub struct Receiver {
    heap: Global,
    frames: u64,
    part: Option<Part>,
}

impl Model for Receiver {
    ghost Value = { Intake };

    ghost view = { λ r. record { frames = r.frames; part = r.part } };
}

// Why a frame cannot be taken in.
#[derive(Clone, Copy, Debug, PartialEq, Eq)]
pub enum ReceiveError {
    NoMemory,
    // A first frame names no tag.
    NoTag,
    // A continuation of no delivery.
    Stray,
    // Another delivery is not finished.
    Interleaved,
    // It goes on past what came.
    Beyond,
}

impl From<AllocError> for ReceiveError {
    ghost from_gives = { λ _ r. r ≡ NoMemory };

    fn from(_e: AllocError) -> ReceiveError {
        ReceiveError::NoMemory
    }
}

// How many bytes of what came a first frame goes on from: a resuming one says it, and any other begins anew.
fn kept_by(transfer: &Transfer) -> u64
    ensures { result ≡ kept_of transfer.now }
{
    match (transfer.resume, transfer.state) {
        (true, Some(DeliveryState::Received(at))) => at.section_offset,
        _ => 0,
    }
}

impl Part {
    fn new(heap: Global, tag: DeliveryTag) -> Part
        ensures { result ≡ fresh tag }
    {
        Part {
            tag,
            frames: 0,
            bytes: Vec::new(heap),
        }
    }

    // How far the archive has come with it.
    pub fn place(&self) -> Received
        ensures { result ≡ reached self.now }
    {
        Received {
            section_number: 0,
            section_offset: self.bytes.len() as u64,
        }
    }

    fn known(&self) -> PeerDelivery<'_>
        ensures { listed result ≡ known self.now }
    {
        PeerDelivery {
            tag: self.tag.as_slice(),
            state: Some(DeliveryState::Received(self.place())),
        }
    }
}

impl Receiver {
    pub fn new(heap: Global) -> Receiver
        ensures { result ≡ untouched }
    {
        Receiver {
            heap,
            frames: 0,
            part: None,
        }
    }

    // How many frames were read.
    pub fn frames(&self) -> u64
        ensures { result ≡ self.now.frames }
    {
        self.frames
    }

    // What came of the delivery that is not finished.
    pub fn part(&self) -> Option<&Part>
        ensures { option_map (λ p. p.now) result ≡ self.now.part }
    {
        self.part.as_ref()
    }

    // What the archive says that it has, when the link comes back: a place in the message's only section (Part 3, 3.4.1).
    pub fn unsettled(&self) -> Option<PeerDelivery<'_>>
        ensures { option_map listed result ≡ option_map known self.now.part }
    {
        self.part.as_ref().map(|part| part.known())
    }

    #[tactic(auto, unfolding(unsettled::specs::Tables::same_tag))]
    fn came_of(&self, tag: &DeliveryTag) -> Result<usize, ReceiveError>
        ensures { result ≡ came_of tag.now self.now.part }
    {
        match &self.part {
            None => Ok(0),
            Some(part) if part.tag == *tag => Ok(part.bytes.len()),
            Some(_) => Err(ReceiveError::Interleaved),
        }
    }

    fn begins(&self, transfer: &Transfer) -> Result<(DeliveryTag, usize), ReceiveError>
        ensures { result ≡ beginning transfer.now.delivery_tag (kept_of transfer.now) self.now.part }
    {
        let tag = transfer.delivery_tag.ok_or(ReceiveError::NoTag)?;
        let came = self.came_of(&tag)?;
        let kept = kept_by(transfer);
        if (came as u64) < kept {
            return Err(ReceiveError::Beyond);
        }
        Ok((tag, kept as usize))
    }

    fn continues(&self) -> Result<(DeliveryTag, usize), ReceiveError>
        ensures { result ≡ continuing self.now.part }
    {
        let part = self.part.as_ref().ok_or(ReceiveError::Stray)?;
        Ok((part.tag, part.bytes.len()))
    }

    // The delivery of a frame, and how many bytes of what came of it stay.
    fn joins(
        &self,
        kind: FrameKind,
        transfer: &Transfer,
    ) -> Result<(DeliveryTag, usize), ReceiveError>
        ensures { result ≡ joining kind transfer.now self.now.part }
    {
        match kind {
            FrameKind::Continuation => self.continues(),
            FrameKind::First | FrameKind::Disposition => self.begins(transfer),
        }
    }

    // What came of the delivery with the payload.
    fn join(&mut self, tag: DeliveryTag, kept: usize, payload: &[u8]) -> Result<Part, ReceiveError>
        ensures joined { MatchResult result (λ p. p ≡ joined tag kept payload.now self.old.part) (λ e. e ≡ NoMemory) }
        ensures frames { self.new.frames ≡ self.old.frames }
        ensures part { self.new.part ≡ None }
    {
        let mut part = match self.part.take() {
            Some(part) => part,
            None => Part::new(self.heap, tag),
        };
        part.tag = tag;
        part.frames = part.frames.saturating_add(1);
        part.bytes.truncate(kept);
        part.bytes.extend_from_slice(payload)?;
        Ok(part)
    }

    // Keeps what is not finished, and hands out what is.
    fn keep(&mut self, transfer: &Transfer, part: Part) -> Option<Part>
        ensures answer { result ≡ finished transfer.now.aborted transfer.now.more part }
        ensures part { self.old.part ≡ None → self.new.part ≡ unfinished transfer.now.aborted transfer.now.more part }
        ensures frames { self.new.frames ≡ self.old.frames }
    {
        if transfer.aborted {
            return None;
        }
        if transfer.more {
            self.part = Some(part);
            return None;
        }
        Some(part)
    }

    fn take_in(
        &mut self,
        kind: FrameKind,
        transfer: &Transfer,
        payload: &[u8],
    ) -> Result<Option<Part>, ReceiveError>
        ensures { Taken kind transfer.now payload.now self.old result self.new }
    {
        let (tag, kept) = self.joins(kind, transfer)?;
        let part = self.join(tag, kept, payload)?;
        self.frames = self.frames.saturating_add(1);
        Ok(self.keep(transfer, part))
    }

    // A frame comes. A delivery that it finishes is handed out; of one that it does not finish the archive keeps what came.
    pub fn receive(&mut self, frame: Frame<'_>) -> Result<Option<Part>, ReceiveError>
        ensures { ReceivedAs frame.entry.kind frame.entry.header frame.entry.payload.now self.old result self.new }
    {
        match frame.header {
            Header::Transfer(transfer) => self.take_in(frame.kind, &transfer, frame.payload),
            Header::Disposition(_) => Ok(None),
        }
    }
}
