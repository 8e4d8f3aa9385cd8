// The line that is printed of a record.
ghost use Rattle.std.specs.Prelude.{Some};
ghost use Rattle.sink.specs.Frames.{waiting_of};
ghost use Rattle.unspool.specs.Lines.{kind_text, line_text};

use amqp::header::FrameKind;
use headers_text::show::Shown;
use sink::frame::Frame;
use std::fmt;

#[derive(Clone, Copy)]
struct Kind(FrameKind);

impl fmt::Display for Kind {
    ghost output = { λ k. Some (kind_text k.0) };

    fn fmt<W: fmt::Write>(&self, f: &mut fmt::Formatter<W>) -> fmt::Result {
        f.write_str(match self.0 {
            FrameKind::First => "first",
            FrameKind::Continuation => "continuation",
            FrameKind::Disposition => "disposition",
        })
    }
}

// A frame that was read: its payload is told by its length.
#[derive(Clone, Copy)]
pub(crate) struct Line<'a>(pub(crate) Frame<'a>);

impl fmt::Display for Line<'_> {
    ghost output = { λ l. Some (line_text (waiting_of l.0)) };

    fn fmt<W: fmt::Write>(&self, f: &mut fmt::Formatter<W>) -> fmt::Result {
        let kind = Kind(self.0.kind);
        let handle = self.0.handle;
        let len = self.0.payload.len();
        let header = Shown(self.0.header);
        write!(f, "{kind}, handle {handle}, {len} bytes: {header}")
    }
}
