// A frame as programs hold it: what goes into a sink, and what comes out of one.
use amqp::header::{FrameKind, Header};

#[derive(Clone, Copy)]
pub struct Frame<'a> {
    // Who reads frames goes by it, and need not look into the header.
    pub kind: FrameKind,
    // The handle that the peer gave the link, or 0 for a disposition.
    pub handle: u32,
    pub header: Header,
    pub payload: &'a [u8],
}
