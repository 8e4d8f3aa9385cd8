// Making a link.
ghost use Rattle.std.specs.Prelude.{◌≡◌, length, IfOk};
ghost use Rattle.link.specs.Views.{made};
ghost use Rattle.runs.specs.Safe.{Begun};
ghost use Rattle.sender.specs.Views.{rooms_of};

use super::SenderLink;
use amqp::error::MakeError;
use link::flow::LinkFlowState;
use link::resumption::ResumingDelivery;
use link::seat::{Seat, Seats};
use link::settings::Settings;
use link::state::LinkState;
use unsettled::map::UnsettledMap;
use unsettled::message::UnsettledMessage;
use unsettled::slot::Slot;
use unsettled::worklist::Worklist;

// The most entries of a table, and the most seats.
const MOST: usize = 1024;

impl<'a> SenderLink<'a> {
    // A link with nothing in its table, over memory for the table, the two lists and the seats.
    pub fn new(
        settings: Settings,
        initial_delivery_count: u32,
        table: &'a mut [Slot<UnsettledMessage>],
        resume: &'a mut [ResumingDelivery],
        resend: &'a mut [Slot<UnsettledMessage>],
        seats: &'a mut [Seat],
    ) -> Result<SenderLink<'a>, MakeError>
        ensures link { result ≡ made settings initial_delivery_count (rooms_of (length table.old) (length resume.old) (length resend.old)) (length seats.old) }
        ensures no_delivery_lost_or_ended_twice { IfOk result (λ l. Begun l) }
    {
        if table.is_empty()
            || table.len() > MOST
            || seats.is_empty()
            || seats.len() > MOST
            || resend.len() < table.len()
        {
            return Err(MakeError::Sizes);
        }
        Ok(SenderLink {
            local_state: LinkState::Unattached,
            output_handle: None,
            input_handle: None,
            settings,
            flow_state: LinkFlowState::new(initial_delivery_count),
            unsettled: UnsettledMap::new(table),
            resume: Worklist::new(resume),
            resend: Worklist::new(resend),
            seats: Seats::new(seats),
        })
    }
}
