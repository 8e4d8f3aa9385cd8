// Cutting a message into frames, for any sink.
ghost use Rattle.std.specs.Prelude.{◌≡◌, max};
ghost use Rattle.sink.specs.Cuts.{Split};

use crate::frame::Frame;
use crate::sink::{Sink, ask_room};
use amqp::error::SinkError;
use amqp::header::{FrameKind, Header, Transfer};

// Puts a message in as many frames as it needs, or none of them. The message lies in the pool that was lent to the
// link, and so do the parts that the sink is given. A share of 0 is taken for 1, so that every cut makes progress.
pub fn split<S: Sink>(
    sink: &mut S,
    message: &[u8],
    share: usize,
    handle: u32,
    transfer: &Transfer,
) -> Result<(), SinkError>
    ensures { Split (S.model sink.old) message.now (max 1 share) handle transfer.now result (S.model sink.new) }
{
    let share = share.max(1);
    let (first, rest) = message.split_at(share.min(message.len()));
    let parts = rest.chunks(share);
    let count = parts.len();
    ask_room(sink, first.len(), 1 + count)?;
    // An empty message has a first frame too.
    let more = count > 0;
    sink.put(Frame {
        kind: FrameKind::First,
        handle,
        header: Header::Transfer(Transfer { more, ..*transfer }),
        payload: first,
    })?;
    // Counted, since all but the last have `more` set.
    for (i, part) in parts.enumerate() {
        let more = i + 1 < count;
        let continuation = Transfer {
            more,
            ..transfer.continuation()
        };
        sink.put(Frame {
            kind: FrameKind::Continuation,
            handle,
            header: Header::Transfer(continuation),
            payload: part,
        })?;
    }
    Ok(())
}
