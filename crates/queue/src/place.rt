// A place of a queue.
ghost use Rattle.std.specs.Prelude.{◌≡◌};
ghost use Rattle.sink.specs.Frames.{waiting_of};
ghost use Rattle.queue.specs.Rings.{blank, frame_of};

use amqp::header::{Disposition, FrameKind, Header};
use sink::frame::Frame;

// What a place holds of its frame besides the payload, which lies in the queue's bytes, or in a reader's memory.
#[derive(Clone, Copy)]
pub struct Place {
    pub kind: FrameKind,
    pub handle: u32,
    pub header: Header,
    // How many bytes the payload has.
    pub size: usize,
}

impl Place {
    // A place to fill the memory of a queue with. What is in it does not matter: a queue is empty at first.
    pub fn blank() -> Place
        ensures { result ≡ blank }
    {
        let header = Header::Disposition(Disposition {
            first: 0,
            settled: false,
            state: None,
            batchable: false,
        });
        Place {
            kind: FrameKind::Disposition,
            handle: 0,
            header,
            size: 0,
        }
    }

    // The frame, with the payload at the front of `memory`, as far as that reaches. It is inlined where frames are read out: a
    // call would copy the header.
    #[inline]
    pub fn frame<'m>(&self, memory: &'m [u8]) -> Frame<'m>
        ensures { waiting_of result ≡ frame_of self.now memory.now }
    {
        Frame {
            kind: self.kind,
            handle: self.handle,
            header: self.header,
            payload: &memory[..self.size.min(memory.len())],
        }
    }
}
