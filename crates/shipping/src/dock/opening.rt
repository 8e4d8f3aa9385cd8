// Opening a dock: memory, and a link that is attached at both ends.
ghost use Rattle.std.specs.Prelude.{◌≡◌, ℕ, IfOk, IsOkAnd};
ghost use Rattle.queue.specs.Queues.{model_of};
ghost use Rattle.sink.specs.Frames.{empty};
ghost use Rattle.link.specs.Views.{Rooms, fresh};
ghost use Rattle.shipping.specs.Openings.{settings_for, Answering, opened, AttachedIn, Opening};

use super::Dock;
use crate::archive::Archive;
use crate::outbox::Outbox;
use crate::report::{OutOfMemory, ShipError};
use amqp::mode::{ReceiverSettleMode, SenderSettleMode};
use link::attach::Attach;
use link::settings::Settings;
use memory::LinkMemory;
use queue::place::Place as QueuePlace;
use queue::queue::Queue;
use sender::sender_link::SenderLink;
use std::alloc::Global;
use unsettled::peer::PeerDelivery;

// The longest frame that is asked for. A sink's payloads have at most so many bytes, and a frame's has fewer.
pub const LONGEST_FRAME: usize = 65535;

// How many deliveries a dock's link has room for: each ticket is collected before the next message is sent, so that few entries
// are in use at a time.
pub const ENTRIES: usize = 16;

// How many frames the sink has room for at first.
const PLACES: usize = 16;

// A queue of so many places, each as wide as asked. A payload has at most 65,535 bytes: wider is told as OutOfMemory.
pub fn empty_queue(heap: Global, places: usize, widest: usize) -> Result<Queue, OutOfMemory>
    ensures { IfOk result (λ q. model_of q ≡ empty places widest) }
{
    let size = places.checked_mul(widest).ok_or(OutOfMemory)?;
    let places = vec![in heap; QueuePlace::blank(); places]?;
    let bytes = vec![in heap; 0u8; size]?;
    Queue::new(places, bytes, widest).map_err(|_| OutOfMemory)
}

// Memory to read payloads to.
fn reader(heap: Global, widest: usize) -> Result<Vec<u8>, OutOfMemory> {
    Ok(vec![in heap; 0u8; widest]?)
}

// How a link goes that sends unsettled, in frames of this size: the receiver settles first, and no message is too long.
pub fn settings_for(max_frame_size: usize) -> Settings
    ensures { result ≡ settings_for max_frame_size }
{
    Settings {
        snd_settle_mode: SenderSettleMode::Unsettled,
        rcv_settle_mode: ReceiverSettleMode::First,
        max_message_size: 0,
        max_frame_size,
    }
}

// The other end's attach: it knows these deliveries of ours.
pub fn answering<'p>(unsettled: &'p [PeerDelivery<'p>]) -> Attach<'p>
    ensures { Answering unsettled.now result }
{
    Attach {
        handle: 0,
        snd_settle_mode: SenderSettleMode::Unsettled,
        rcv_settle_mode: ReceiverSettleMode::First,
        has_target: true,
        unsettled,
        incomplete_unsettled: false,
        max_message_size: 0,
    }
}

// Our attach goes out, and the archive's comes. A new link takes both.
fn attach_ends(link: &mut SenderLink<'_>) -> Result<(), ShipError>
    ensures { (frame seats : ℕ) (rooms : Rooms) → link.old ≡ fresh (settings_for frame) 0 rooms seats → IsOkAnd result (λ _. link.new ≡ opened frame 0 rooms seats) }
{
    link.open(0, false).map_err(|_| ShipError::Link)?;
    link.attach(&answering(&[]), &[])
        .map_err(|_| ShipError::Link)?;
    Ok(())
}

// A link that sends unsettled, in frames of this size, attached at both ends.
fn attached(memory: &mut LinkMemory, max_frame_size: usize) -> Result<SenderLink<'_>, ShipError>
    ensures { AttachedIn memory.old max_frame_size result }
{
    let mut link = memory
        .link(settings_for(max_frame_size), 0)
        .map_err(|_| ShipError::Link)?;
    attach_ends(&mut link)?;
    Ok(link)
}

impl<'a, S: Outbox> Dock<'a, S> {
    // A dock whose link is attached and has this credit. A frame longer than the longest is cut to that.
    pub fn open(
        heap: Global,
        memory: &'a mut LinkMemory,
        frame: u32,
        credit: u32,
    ) -> Result<Dock<'a, S>, ShipError>
        ensures { Opening memory.old frame credit result }
    {
        let frame = (frame as usize).min(LONGEST_FRAME);
        let widest = frame.max(1);
        let mut dock = Dock {
            heap,
            link: attached(memory, frame)?,
            sink: S::with_places(heap, PLACES, widest)?,
            out: reader(heap, widest)?,
            log: Vec::new(heap),
            archive: Archive::new(heap),
            credit,
        };
        dock.grant();
        Ok(dock)
    }
}
