// What is told of a break.
ghost use Rattle.std.specs.Prelude.{Some};
ghost use Rattle.voyage.specs.Reports.{unfinished_text, break_text};

use amqp::tag::DeliveryTag;
use amqp::text::Or;
use headers_text::show::Digits;
use std::fmt;

// A delivery of which the archive has so many bytes.
#[derive(Clone, Copy)]
pub struct Unfinished {
    pub tag: DeliveryTag,
    pub bytes: usize,
}

impl fmt::Display for Unfinished {
    ghost output = { λ u. Some (unfinished_text u) };

    fn fmt<W: fmt::Write>(&self, f: &mut fmt::Formatter<W>) -> fmt::Result {
        write!(f, "{} at received(0,{})", Digits(self.tag), self.bytes)
    }
}

#[derive(Clone, Copy)]
pub struct Break {
    // How many frames the archive had read.
    pub frames: u64,
    // How many files it had accepted, and of how many it knew nothing.
    pub accepted: usize,
    pub unknown: usize,
    pub unfinished: Option<Unfinished>,
}

impl fmt::Display for Break {
    ghost output = { λ b. Some (break_text b) };

    fn fmt<W: fmt::Write>(&self, f: &mut fmt::Formatter<W>) -> fmt::Result {
        write!(
            f,
            "break after {} frames: {} accepted, {}, {} unknown",
            self.frames,
            self.accepted,
            Or(self.unfinished, "none unfinished"),
            self.unknown
        )
    }
}
