// A sender link in memory that is lent to it. Each call stands in the module of its name.
use link::flow::LinkFlowState;
use link::resumption::ResumingDelivery;
use link::seat::Seats;
use link::settings::Settings;
use link::state::LinkState;
use std::marker::Model;
use unsettled::map::UnsettledMap;
use unsettled::message::UnsettledMessage;
use unsettled::slot::Slot;
use unsettled::worklist::Worklist;

pub mod attach;
mod carry;
pub mod detach;
pub mod dispose;
pub mod disposition;
pub mod flow;
pub mod making;
pub mod open;
pub mod parts;
pub mod resend;
pub mod send;
pub mod shown;
pub mod tickets;
pub mod work;

#[derive(Drop)]
pub struct SenderLink<'a> {
    local_state: LinkState,
    output_handle: Option<u32>,
    input_handle: Option<u32>,
    settings: Settings,
    flow_state: LinkFlowState,
    unsettled: UnsettledMap<'a, UnsettledMessage>,
    // Deliveries that came back with the link, and what is to be done with each.
    resume: Worklist<'a, ResumingDelivery>,
    // Deliveries that are to be sent again.
    resend: Worklist<'a, Slot<UnsettledMessage>>,
    seats: Seats<'a>,
}

// What callers see of a link: what it holds, without the memory that holds it.
impl<'a> Model for SenderLink<'a> {
    ghost use Rattle.link.specs.Views.{View};

    ghost Value = { View };

    ghost use Rattle.sender.specs.Views.{view_of};

    ghost view = { view_of };
}
