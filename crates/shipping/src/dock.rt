// Where files are shipped: a link, the sink of its frames, and the archive that reads them.
use crate::archive::Archive;
use crate::outbox::Outbox;
use sender::sender_link::SenderLink;
use std::alloc::Global;
use std::marker::Model;

pub mod opening;
pub mod sending;
pub mod shipping;

#[derive(Drop)]
pub struct Dock<'a, S: Outbox> {
    heap: Global,
    link: SenderLink<'a>,
    sink: S,
    // Payloads are read out to it.
    out: Vec<u8>,
    // What the sink keeps of the frames that were read out.
    log: Vec<u8>,
    archive: Archive,
    // What the archive grants at a time.
    credit: u32,
}

// What callers see of a dock, without its log.
impl<'a, S: Outbox> Model for Dock<'a, S> {
    ghost use Rattle.shipping.specs.Docks.{Docked};

    ghost Value = { Docked };

    ghost view = { λ d. record { link = d.link; sink = S.Sink.model d.sink; archive = d.archive; credit = d.credit } };
}
