// The parts of a list that a line tells: each printed as it stands there.
ghost use Rattle.std.specs.Prelude.{ℕ, List};
ghost use Rattle.std.specs.Fmt.{WritesOnOk};
ghost use Rattle.scenario_play.specs.Texts.{next, spaced, bracketed, named, pair_text, kept_text, returning_text, occupied_text, ending_text};

use crate::snapshot::Occupied;
use amqp::state::DeliveryState;
use amqp::text::Or;
use headers_text::show::Digits;
use link::delivery::Outcome;
use link::resumption::ResumingDelivery;
use std::fmt;
use unsettled::message::UnsettledMessage;
use unsettled::slot::Slot;

pub trait Part {
    ghost text: { Self → List ℕ };

    fn write<W: fmt::Write>(&self, f: &mut fmt::Formatter<W>) -> fmt::Result
        ensures { WritesOnOk W.write_str_gives f.old result (text self.now) f.new };
}

fn write_next<P: Part, W: fmt::Write>(part: &P, f: &mut fmt::Formatter<W>) -> fmt::Result
    ensures { WritesOnOk W.write_str_gives f.old result (next P.text part.now) f.new }
{
    f.write_str(" ")?;
    part.write(f)
}

// Each with a blank before it.
pub fn write_spaced<P: Part, W: fmt::Write>(parts: &[P], f: &mut fmt::Formatter<W>) -> fmt::Result
    ensures { WritesOnOk W.write_str_gives f.old result (spaced P.text parts.now) f.new }
{
    for part in parts {
        write_next(part, f)?;
    }
    Ok(())
}

// In brackets, with blanks between them.
fn write_bracketed<P: Part, W: fmt::Write>(parts: &[P], f: &mut fmt::Formatter<W>) -> fmt::Result
    ensures { WritesOnOk W.write_str_gives f.old result (bracketed P.text parts.now) f.new }
{
    let Some((first, rest)) = parts.split_first() else {
        return f.write_str("[]");
    };
    f.write_str("[")?;
    first.write(f)?;
    write_spaced(rest, f)?;
    f.write_str("]")
}

// A name, and its list in brackets.
pub fn write_list<P: Part, W: fmt::Write>(
    name: &str,
    parts: &[P],
    f: &mut fmt::Formatter<W>,
) -> fmt::Result
    ensures { WritesOnOk W.write_str_gives f.old result (named name.now P.text parts.now) f.new }
{
    f.write_str(name)?;
    write_bracketed(parts, f)
}

// What an attach tells of a delivery.
impl Part for Slot<Option<DeliveryState>> {
    ghost text = { pair_text };

    fn write<W: fmt::Write>(&self, f: &mut fmt::Formatter<W>) -> fmt::Result {
        write!(f, "{}={}", Digits(self.tag), Or(self.entry, "none"))
    }
}

// A delivery of the table or of the resend list.
impl Part for Slot<UnsettledMessage> {
    ghost text = { kept_text };

    fn write<W: fmt::Write>(&self, f: &mut fmt::Formatter<W>) -> fmt::Result {
        let tag = Digits(self.tag);
        let start = self.entry.place.start;
        let len = self.entry.place.len;
        let state = Or(self.entry.state, "none");
        let format = self.entry.message_format;
        let ticket = self.entry.ticket;
        write!(f, "{tag}:{start}+{len}:{state}:{format}:{ticket}")
    }
}

impl Part for ResumingDelivery {
    ghost text = { returning_text };

    fn write<W: fmt::Write>(&self, f: &mut fmt::Formatter<W>) -> fmt::Result {
        match self {
            ResumingDelivery::Resend(slot) => {
                f.write_str("resend:")?;
                slot.write(f)
            }
            ResumingDelivery::Abort(slot) => {
                f.write_str("abort:")?;
                slot.write(f)
            }
            ResumingDelivery::RestateOutcome(slot) => {
                f.write_str("restate:")?;
                slot.write(f)
            }
            ResumingDelivery::Resume(slot, peer) => {
                f.write_str("resume:")?;
                slot.write(f)?;
                write!(f, ":{}", DeliveryState::Received(*peer))
            }
            ResumingDelivery::Settling {
                tag,
                message_format,
                outcome,
            } => write!(f, "settling:{}:{message_format}:{outcome}", Digits(*tag)),
        }
    }
}

// No blank stands within a part.
fn write_ending<W: fmt::Write>(outcome: &Outcome, f: &mut fmt::Formatter<W>) -> fmt::Result
    ensures { WritesOnOk W.write_str_gives f.old result (ending_text outcome.now) f.new }
{
    match outcome {
        Outcome::RemoteClosedWithError(e) => write!(f, "RemoteClosedWithError={}", e.number()),
        _ => write!(f, "{outcome}"),
    }
}

impl Part for Occupied {
    ghost text = { occupied_text };

    fn write<W: fmt::Write>(&self, f: &mut fmt::Formatter<W>) -> fmt::Result {
        write!(f, "{}:", self.number)?;
        match &self.outcome {
            None => f.write_str("pending"),
            Some(outcome) => write_ending(outcome, f),
        }
    }
}
