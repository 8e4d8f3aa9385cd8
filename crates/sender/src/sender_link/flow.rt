// The peer's flow.
ghost use Rattle.std.specs.Prelude.{◌≡◌};
ghost use Rattle.link.specs.Calls.{Flow, step};
ghost use Rattle.link.specs.Credit.{flowed, flow_answer};
ghost use Rattle.runs.specs.Safe.{SafeAfter};

use super::SenderLink;
use link::flow::LinkFlow;

impl<'a> SenderLink<'a> {
    // The peer grants credit, asks for it back, or asks how we stand.
    pub fn flow(&mut self, flow: &LinkFlow) -> Option<LinkFlow>
        ensures answer { result ≡ flow_answer flow.now self.old.output (flowed flow.now self.old.flow) }
        ensures link { self.new ≡ step self.old (Flow flow.now) }
        ensures no_delivery_lost_or_ended_twice { SafeAfter self.old (Flow flow.now) self.new }
    {
        let handle = self.output_handle;
        self.flow_state.on_incoming_flow(flow, handle)
    }
}
