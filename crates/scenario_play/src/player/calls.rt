// The link's own calls.
ghost use Rattle.std.specs.Prelude.{◌≡◌};
ghost use Rattle.link.specs.Attaching.{open_answer, attach_answer};
ghost use Rattle.link.specs.Calls.{Open, Attach as AttachCall, Flow, Send, Disposition, Dispose, Work, Resend, Detach, step};
ghost use Rattle.link.specs.Credit.{flowed, flow_answer};
ghost use Rattle.link.specs.Detaching.{detach_answer};
ghost use Rattle.link.specs.Disposing.{settle_back};
ghost use Rattle.scenario_text.specs.Lists.{listed};
ghost use Rattle.scenario_play.specs.Attaches.{AttachesLine};
ghost use Rattle.scenario_play.specs.Answers.{opened, attached, stepped, detached};
ghost use Rattle.scenario_play.specs.Scenes.{with_link};
ghost use Rattle.scenario_play.specs.Performing.{OrNoMemory};
ghost use Rattle.scenario_play.specs.Puts.{SendsLine, DisposesLine, WorksLine, ResendsLine};

use super::Player;
use crate::answer::{Answer, Refusal};
use crate::outlet::Outlet;
use crate::trouble::Trouble;
use amqp::condition::AmqpError;
use amqp::error::{ApplyRemoteDetachError, SendError};
use amqp::state::DeliveryState;
use amqp::tag::DeliveryTag;
use link::attach::Attach;
use link::delivery::{Disposal, Sendable};
use link::flow::LinkFlow;
use link::resumption::Progress;
use scenario_text::command::PeerAttach;
use scenario_text::peers::PeerList;
use sender::ticket::Settlement;

// What a step through a list came to.
fn progress(done: Result<Progress, SendError>) -> Answer
    ensures { result ≡ stepped done }
{
    match done {
        Ok(progress) => Answer::Progress(progress),
        Err(e) => Answer::Refused(Refusal::from(e)),
    }
}

// What a detach came to: an error that it brought is no refusal.
fn applied(done: Result<(), ApplyRemoteDetachError>) -> Answer
    ensures { result ≡ detached done }
{
    match done {
        Ok(()) => Answer::Done,
        Err(ApplyRemoteDetachError::RemoteDetachedWithError(e)) => Answer::RemoteDetached(e),
        Err(ApplyRemoteDetachError::RemoteClosedWithError(e)) => Answer::RemoteClosed(e),
        Err(e) => Answer::Refused(Refusal::Number(e.number().unwrap_or(0))),
    }
}

impl<'a, S: Outlet> Player<'a, S> {
    pub(super) fn open(&mut self, handle: u32, incomplete_unsettled: bool) -> Answer
        ensures answer { result ≡ opened (open_answer self.old.link incomplete_unsettled) }
        ensures scene { self.new ≡ with_link (step self.old.link (Open handle incomplete_unsettled)) self.old }
    {
        match self.link.open(handle, incomplete_unsettled) {
            Ok(state) => Answer::State(state),
            Err(e) => Answer::Refused(Refusal::from(e)),
        }
    }

    fn attach_with(&mut self, attach: &Attach<'_>) -> Answer
        ensures answer { result ≡ attached (attach_answer self.old.link attach.now self.old.pool) }
        ensures scene { self.new ≡ with_link (step self.old.link (AttachCall attach.now self.old.pool)) self.old }
    {
        match self.link.attach(attach, self.pool.as_slice()) {
            Ok(exchange) => Answer::Exchange(exchange),
            Err(e) => Answer::Refused(Refusal::from(e)),
        }
    }

    pub(super) fn attach(&mut self, attach: &PeerAttach, list: &PeerList) -> Result<Answer, Trouble>
        ensures { OrNoMemory result (λ a. AttachesLine attach.now (listed list.now) self.old a self.new) }
    {
        let unsettled = list.deliveries()?;
        let attach = Attach {
            handle: attach.handle,
            snd_settle_mode: attach.snd_settle_mode,
            rcv_settle_mode: attach.rcv_settle_mode,
            has_target: attach.has_target,
            unsettled: unsettled.as_slice(),
            incomplete_unsettled: attach.incomplete_unsettled,
            max_message_size: attach.max_message_size,
        };
        Ok(self.attach_with(&attach))
    }

    pub(super) fn flow(&mut self, flow: &LinkFlow) -> Answer
        ensures answer { result ≡ Answer.Flow (flow_answer flow.now self.old.link.output (flowed flow.now self.old.link.flow)) }
        ensures scene { self.new ≡ with_link (step self.old.link (Flow flow.now)) self.old }
    {
        Answer::Flow(self.link.flow(flow))
    }

    pub(super) fn send(&mut self, message: &Sendable) -> Result<Answer, Trouble>
        ensures { OrNoMemory result (λ a. SendsLine self.old message.now a self.new) }
    {
        let sent = self.link.send(&mut self.sink, &self.encoder, self.pool.as_slice(), message);
        match sent {
            Ok(Settlement::Settled(tag)) => Ok(Answer::Settled(tag)),
            Ok(Settlement::Unsettled(ticket)) => self.hold(ticket),
            Err(e) => Ok(Answer::Refused(Refusal::from(e))),
        }
    }

    pub(super) fn disposition(
        &mut self,
        tag: &DeliveryTag,
        settled: bool,
        state: Option<DeliveryState>,
    ) -> Answer
        ensures answer { result ≡ Answer.Echo (settle_back self.old.link settled state) }
        ensures scene { self.new ≡ with_link (step self.old.link (Disposition tag.now settled state)) self.old }
    {
        Answer::Echo(self.link.disposition(tag, settled, state))
    }

    pub(super) fn dispose(&mut self, disposal: &Disposal) -> Answer
        ensures { DisposesLine self.old disposal.now result self.new }
    {
        match self.link.dispose(&mut self.sink, disposal) {
            Ok(()) => Answer::Done,
            Err(e) => Answer::Refused(Refusal::from(e)),
        }
    }

    pub(super) fn work(&mut self) -> Answer
        ensures { WorksLine self.old result self.new }
    {
        progress(
            self.link
                .work(&mut self.sink, &self.encoder, self.pool.as_slice()),
        )
    }

    pub(super) fn resend(&mut self) -> Answer
        ensures { ResendsLine self.old result self.new }
    {
        progress(
            self.link
                .resend(&mut self.sink, &self.encoder, self.pool.as_slice()),
        )
    }

    pub(super) fn detach(&mut self, closed: bool, error: Option<AmqpError>) -> Answer
        ensures answer { result ≡ detached (detach_answer self.old.link closed error) }
        ensures scene { self.new ≡ with_link (step self.old.link (Detach closed error)) self.old }
    {
        applied(self.link.detach(closed, error))
    }
}
