// What a link holds, part by part, for who shows it.
ghost use Rattle.std.specs.Prelude.{◌≡◌};

use super::SenderLink;
use link::flow::LinkFlowState;
use link::resumption::ResumingDelivery;
use link::seat::Seat;
use link::settings::Settings;
use link::state::LinkState;
use unsettled::message::UnsettledMessage;
use unsettled::slot::Slot;

impl<'a> SenderLink<'a> {
    pub fn local_state(&self) -> LinkState
        ensures { result ≡ self.now.state }
    {
        self.local_state
    }

    pub fn output_handle(&self) -> Option<u32>
        ensures { result ≡ self.now.output }
    {
        self.output_handle
    }

    pub fn input_handle(&self) -> Option<u32>
        ensures { result ≡ self.now.input }
    {
        self.input_handle
    }

    pub fn settings(&self) -> Settings
        ensures { result ≡ self.now.settings }
    {
        self.settings
    }

    pub fn flow_state(&self) -> LinkFlowState
        ensures { result ≡ self.now.flow }
    {
        self.flow_state
    }

    // The table's deliveries, in order.
    pub fn unsettled_deliveries(&self) -> &[Slot<UnsettledMessage>]
        ensures { result.now ≡ self.now.held.table }
    {
        self.unsettled.front()
    }

    // What came back with the link and waits for its turn.
    pub fn resume_list(&self) -> &[ResumingDelivery]
        ensures { result.now ≡ self.now.held.resume }
    {
        self.resume.front()
    }

    // What waits to be sent again.
    pub fn resend_list(&self) -> &[Slot<UnsettledMessage>]
        ensures { result.now ≡ self.now.held.resend }
    {
        self.resend.front()
    }

    pub fn seats(&self) -> &[Seat]
        ensures { result.now ≡ self.now.seats }
    {
        self.seats.as_slice()
    }
}
