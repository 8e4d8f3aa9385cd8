// What a call answers, and how a line tells it.
ghost use Rattle.std.specs.Prelude.{◌≡◌, Some};
ghost use Rattle.std.specs.Fmt.{WritesOnOk};
ghost use Rattle.amqp.specs.Refusals.{attach_number};
ghost use Rattle.scenario_play.specs.Answers.{of_state, of_sink, of_send};
ghost use Rattle.scenario_play.specs.Texts.{refusal_text, standing_text, asking_text, flow_text, taken_text, answer_text};
ghost use Rattle.scenario_play.specs.declared.answer.Refusal.TheVariants.{Number};

use crate::parts::write_spaced;
use crate::snapshot::Snapshot;
use amqp::condition::AmqpError;
use amqp::error::{LinkStateError, SendError, SenderAttachError, SinkError};
use amqp::header::FrameKind;
use amqp::state::DeliveryState;
use amqp::stop::SessionStopReason;
use amqp::tag::DeliveryTag;
use amqp::text::{Or, YesNo};
use headers_text::show::{ByteDigits, Digits};
use link::attach::SenderAttachExchange;
use link::delivery::Outcome;
use link::flow::LinkFlow;
use link::resumption::Progress;
use link::state::LinkState;
use scenario_text::command::EncoderForm;
use scenario_text::names::{ExchangeName, ProgressName, StateName};
use scenario_text::reason::SessionReason;
use spool::kind::code_of;
use std::fmt;
use unsettled::slot::Slot;

#[derive(Clone, Copy)]
pub enum Refusal {
    Number(u8),
    // A stopped sink, with its reason.
    Stopped(SessionStopReason),
}

// A frame that was taken, its header in the encoder's bytes.
#[derive(Drop)]
pub struct Taken {
    pub kind: FrameKind,
    pub handle: u32,
    pub header: Vec<u8>,
    pub payload: Vec<u8>,
}

#[derive(Drop)]
pub enum Answer {
    Made,
    Encoder(EncoderForm),
    Pool(usize),
    State(LinkState),
    Exchange(SenderAttachExchange),
    Flow(Option<LinkFlow>),
    Ticket(u32),
    Settled(DeliveryTag),
    Echo(bool),
    Done,
    Progress(Progress),
    RemoteDetached(AmqpError),
    RemoteClosed(AmqpError),
    Outcome(Option<Outcome>),
    NoTicket(u32),
    Frame(Option<Taken>),
    Records(Vec<u8>),
    Stopped,
    Shown(Option<Vec<Slot<Option<DeliveryState>>>>),
    Whole(Snapshot),
    Refused(Refusal),
}

impl From<LinkStateError> for Refusal {
    ghost from_gives = { λ e r. r ≡ of_state e };

    fn from(e: LinkStateError) -> Refusal {
        match e {
            LinkStateError::SessionStopped(reason) => Refusal::Stopped(reason),
            LinkStateError::IllegalState => Refusal::Number(e.number()),
        }
    }
}

impl From<SinkError> for Refusal {
    ghost from_gives = { λ e r. r ≡ of_sink e };

    fn from(e: SinkError) -> Refusal {
        match e {
            SinkError::SessionStopped(reason) => Refusal::Stopped(reason),
            _ => Refusal::Number(e.number()),
        }
    }
}

impl From<SendError> for Refusal {
    ghost from_gives = { λ e r. r ≡ of_send e };

    fn from(e: SendError) -> Refusal {
        match e {
            SendError::LinkState(e) => Refusal::from(e),
            _ => Refusal::Number(e.number()),
        }
    }
}

impl From<SenderAttachError> for Refusal {
    ghost from_gives = { λ e r. r ≡ Number (attach_number e) };

    fn from(e: SenderAttachError) -> Refusal {
        Refusal::Number(e.number())
    }
}

impl fmt::Display for Refusal {
    ghost output = { λ x. Some (refusal_text x) };

    fn fmt<W: fmt::Write>(&self, f: &mut fmt::Formatter<W>) -> fmt::Result {
        match *self {
            Refusal::Number(number) => write!(f, "refused {number}"),
            Refusal::Stopped(reason) => write!(f, "refused 15 {}", SessionReason(reason)),
        }
    }
}

impl fmt::Display for Taken {
    ghost output = { λ x. Some (taken_text x) };

    fn fmt<W: fmt::Write>(&self, f: &mut fmt::Formatter<W>) -> fmt::Result {
        let kind = code_of(self.kind);
        let handle = self.handle;
        let header = ByteDigits(&self.header);
        let payload = ByteDigits(&self.payload);
        write!(
            f,
            "kind={kind} handle={handle} header={header} payload={payload}"
        )
    }
}

fn write_standing<W: fmt::Write>(flow: &LinkFlow, f: &mut fmt::Formatter<W>) -> fmt::Result
    ensures { WritesOnOk W.write_str_gives f.old result (standing_text flow.now) f.new }
{
    let handle = Or(flow.handle, "none");
    let count = Or(flow.delivery_count, "none");
    let credit = Or(flow.link_credit, "none");
    write!(f, "handle={handle} count={count} credit={credit}")
}

fn write_asking<W: fmt::Write>(flow: &LinkFlow, f: &mut fmt::Formatter<W>) -> fmt::Result
    ensures { WritesOnOk W.write_str_gives f.old result (asking_text flow.now) f.new }
{
    let available = Or(flow.available, "none");
    let drain = YesNo(flow.drain);
    let echo = YesNo(flow.echo);
    write!(f, " available={available} drain={drain} echo={echo}")
}

fn write_flow<W: fmt::Write>(flow: &LinkFlow, f: &mut fmt::Formatter<W>) -> fmt::Result
    ensures { WritesOnOk W.write_str_gives f.old result (flow_text flow.now) f.new }
{
    write_standing(flow, f)?;
    write_asking(flow, f)
}

impl fmt::Display for Answer {
    ghost output = { λ x. Some (answer_text x) };

    fn fmt<W: fmt::Write>(&self, f: &mut fmt::Formatter<W>) -> fmt::Result {
        match self {
            Answer::Made => f.write_str("made"),
            Answer::Encoder(EncoderForm::Compact) => f.write_str("compact"),
            Answer::Encoder(EncoderForm::Wide) => f.write_str("wide"),
            Answer::Pool(bytes) => write!(f, "{bytes} bytes"),
            Answer::State(state) => write!(f, "{}", StateName(*state)),
            Answer::Exchange(exchange) => write!(f, "{}", ExchangeName(*exchange)),
            Answer::Flow(Some(answered)) => write_flow(answered, f),
            Answer::Ticket(number) => write!(f, "ticket {number}"),
            Answer::Settled(tag) => write!(f, "settled {}", Digits(*tag)),
            Answer::Echo(waits) => write!(f, "echo {}", YesNo(*waits)),
            Answer::Done => f.write_str("done"),
            Answer::Progress(progress) => write!(f, "{}", ProgressName(*progress)),
            Answer::RemoteDetached(e) => write!(f, "RemoteDetachedWithError {}", e.number()),
            Answer::RemoteClosed(e) => write!(f, "RemoteClosedWithError {}", e.number()),
            Answer::Outcome(outcome) => write!(f, "{}", Or(*outcome, "pending")),
            Answer::NoTicket(number) => write!(f, "no ticket {number}"),
            Answer::Frame(Some(taken)) => write!(f, "{taken}"),
            Answer::Records(bytes) => write!(f, "{}", ByteDigits(bytes)),
            Answer::Stopped => f.write_str("stopped"),
            Answer::Shown(Some(pairs)) => {
                write!(f, "{}", pairs.len())?;
                write_spaced(pairs.as_slice(), f)
            }
            Answer::Whole(snapshot) => write!(f, "{snapshot}"),
            Answer::Refused(refusal) => write!(f, "{refusal}"),
            Answer::Flow(None) | Answer::Frame(None) | Answer::Shown(None) => f.write_str("none"),
        }
    }
}
