// What a line of a scenario asks for. docs/SCENARIO.md has the language.
use amqp::condition::AmqpError;
use amqp::mode::{ReceiverSettleMode, SenderSettleMode};
use amqp::state::DeliveryState;
use amqp::stop::SessionStopReason;
use amqp::tag::DeliveryTag;
use link::delivery::{Disposal, Sendable};
use link::flow::LinkFlow;
use link::settings::Settings;

#[derive(Clone, Copy)]
pub struct LinkSizes {
    pub table: usize,
    pub resume: usize,
    pub resend: usize,
    pub seats: usize,
    pub settings: Settings,
    pub initial_delivery_count: u32,
}

// The encoder that measures headers from now on.
#[derive(Clone, Copy, PartialEq, Eq)]
pub enum EncoderForm {
    Compact,
    Wide,
}

// What the pool holds from now on.
#[derive(Clone, Copy)]
pub enum PoolSource<'l> {
    Digits(&'l str),
    Repeat { count: usize, byte: u8 },
    File(&'l str),
}

// The peer's attach. Its map of unsettled deliveries stands in the parser's list.
#[derive(Clone, Copy)]
pub struct PeerAttach {
    pub handle: u32,
    pub incomplete_unsettled: bool,
    pub rcv_settle_mode: ReceiverSettleMode,
    pub snd_settle_mode: SenderSettleMode,
    pub has_target: bool,
    pub max_message_size: u64,
}

#[derive(Clone, Copy)]
pub enum Command<'l> {
    Link(LinkSizes),
    Queue {
        places: usize,
        widest: usize,
        memory: usize,
    },
    Spool {
        memory: usize,
        widest: usize,
    },
    Encoder(EncoderForm),
    Pool(PoolSource<'l>),
    Open {
        handle: u32,
        incomplete_unsettled: bool,
    },
    Attach(PeerAttach),
    Flow(LinkFlow),
    Send(Sendable),
    Disposition {
        tag: DeliveryTag,
        settled: bool,
        state: Option<DeliveryState>,
    },
    Dispose(Disposal),
    Work,
    Resend,
    Detach {
        closed: bool,
        error: Option<AmqpError>,
    },
    Look(u32),
    Collect(u32),
    Take,
    Empty,
    Stop(SessionStopReason),
    Show {
        is_reattaching: bool,
        partial_unsettled: usize,
        room: usize,
    },
    State,
}
