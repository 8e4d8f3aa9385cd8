// Our own attach.
ghost use Rattle.std.specs.Prelude.{◌≡◌};
ghost use Rattle.link.specs.Attaching.{open_answer};
ghost use Rattle.link.specs.Calls.{Open, step};
ghost use Rattle.runs.specs.Safe.{SafeAfter};

use super::SenderLink;
use amqp::error::LinkStateError;
use link::state::LinkState;

impl<'a> SenderLink<'a> {
    // Our attach goes out under this handle, with a map of unsettled deliveries that is complete or not.
    pub fn open(
        &mut self,
        handle: u32,
        incomplete_unsettled: bool,
    ) -> Result<LinkState, LinkStateError>
        ensures answer { result ≡ open_answer self.old incomplete_unsettled }
        ensures link { self.new ≡ step self.old (Open handle incomplete_unsettled) }
        ensures no_delivery_lost_or_ended_twice { SafeAfter self.old (Open handle incomplete_unsettled) self.new }
    {
        let state = self
            .local_state
            .on_open(incomplete_unsettled)
            .ok_or(LinkStateError::IllegalState)?;
        self.local_state = state;
        self.output_handle = Some(handle);
        Ok(state)
    }
}
