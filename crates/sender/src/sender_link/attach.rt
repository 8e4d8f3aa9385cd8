// The peer's attach.
ghost use Rattle.std.specs.Prelude.{◌≡◌, ◌+◌, ◌≤◌, ◌∷◌, ◌++◌, [], length, IfOk};
ghost use Rattle.std.specs.List.{flat_map};
ghost use Rattle.link.specs.Attaching.{attach_answer, attach_refusal, attached_state, late_refusal, attached_settings, exchanged, resumed};
ghost use Rattle.link.specs.Calls.{Attach as AttachCall, step};
ghost use Rattle.link.specs.Resuming.{item_for, end_for, end_of};
ghost use Rattle.link.specs.Rows.{gated};
ghost use Rattle.link.specs.Seats.{seated};
ghost use Rattle.link.specs.Turns.{landed, holding, tell_all};
ghost use Rattle.unsettled.specs.Peers.{LegalTags, peers_of};
ghost use Rattle.unsettled.specs.Tables.{held};
ghost use Rattle.unsettled.specs.Worklists.{items, space};
ghost use Rattle.runs.specs.Safe.{SafeAfter};
ghost use Rattle.sender.specs.Attaches.{item_by, end_by};
ghost use Rattle.sender.specs.Views.{with_settings};

use super::SenderLink;
use amqp::error::SenderAttachError;
use amqp::state::DeliveryState;
use link::attach::{Attach, SenderAttachExchange};
use link::delivery::Outcome;
use link::resumption::{ResumingDelivery, Resumption, resume_delivery};
use link::seat::Seats;
use link::state::LinkState;
use unsettled::map::UnsettledMap;
use unsettled::message::{UnsettledMessage, any_outside};
use unsettled::peer::{FEW_PAIRS, PeerDelivery, has_illegal_tag, peer_map, peer_state};
use unsettled::slot::Slot;
use unsettled::worklist::Worklist;

// The most pairs of the peer's map of unsettled deliveries.
const MOST_PAIRS: usize = 1024;

fn list(resume: &mut Worklist<'_, ResumingDelivery>, item: ResumingDelivery)
    requires { length (items resume.old) + 1 ≤ space resume.old }
    ensures listed { items resume.new ≡ items resume.old ++ item ∷ [] }
    ensures space { space resume.new ≡ space resume.old }
{
    let _room = resume.push(item);
}

// A delivery waits in the resume list for what was decided, or ends; where it ends and the peer lists it, a settling waits.
fn resume_as(
    resume: &mut Worklist<'_, ResumingDelivery>,
    seats: &mut Seats<'_>,
    slot: &Slot<UnsettledMessage>,
    decided: Resumption,
)
    requires { length (items resume.old) + 1 ≤ space resume.old }
    ensures listed { items resume.new ≡ items resume.old ++ item_for decided slot.now }
    ensures space { space resume.new ≡ space resume.old }
    ensures told { seated seats.new ≡ tell_all (end_for decided slot.now) (seated seats.old) }
{
    match decided {
        Resumption::Resend => list(resume, ResumingDelivery::Resend(*slot)),
        Resumption::Resume(place) => list(resume, ResumingDelivery::Resume(*slot, place)),
        Resumption::Abort => list(resume, ResumingDelivery::Abort(*slot)),
        Resumption::RestateOutcome => list(resume, ResumingDelivery::RestateOutcome(*slot)),
        Resumption::End(outcome) => seats.tell(slot.entry.ticket, Outcome::State(outcome)),
        Resumption::Settle(outcome) => {
            seats.tell(slot.entry.ticket, Outcome::State(outcome));
            let settling = ResumingDelivery::Settling {
                tag: slot.tag,
                message_format: slot.entry.message_format,
                outcome,
            };
            list(resume, settling);
        }
    }
}

// So do all, in the table's order, by what the peer's map says of each tag.
fn resume_slots(
    resume: &mut Worklist<'_, ResumingDelivery>,
    seats: &mut Seats<'_>,
    slots: &[Slot<UnsettledMessage>],
    remote: &UnsettledMap<'_, Option<DeliveryState>>,
)
    requires { length (items resume.old) + length slots.now ≤ space resume.old }
    ensures listed { items resume.new ≡ items resume.old ++ flat_map (item_by (held remote.now)) slots.now }
    ensures space { space resume.new ≡ space resume.old }
    ensures told { seated seats.new ≡ tell_all (flat_map (end_by (held remote.now)) slots.now) (seated seats.old) }
{
    for slot in slots {
        let decided = resume_delivery(slot.entry.state, remote.get(&slot.tag));
        resume_as(resume, seats, slot, decided);
    }
}

// So do they by what the peer's pairs say, through a table of the pairs. It is never inlined: within `attach`, which has a
// short way besides, LLVM's probe of so large a frame writes over the register that holds an argument.
#[inline(never)]
fn resume_by_table(
    resume: &mut Worklist<'_, ResumingDelivery>,
    seats: &mut Seats<'_>,
    slots: &[Slot<UnsettledMessage>],
    pairs: &[PeerDelivery<'_>],
)
    requires legal { LegalTags pairs.now }
    requires few { length pairs.now ≤ 1024 }
    requires room { length (items resume.old) + length slots.now ≤ space resume.old }
    ensures listed { items resume.new ≡ items resume.old ++ flat_map (item_by (peers_of pairs.now)) slots.now }
    ensures space { space resume.new ≡ space resume.old }
    ensures told { seated seats.new ≡ tell_all (flat_map (end_by (peers_of pairs.now)) slots.now) (seated seats.old) }
{
    let mut memory = [Slot::default(); MOST_PAIRS];
    let remote = peer_map(&mut memory, pairs);
    resume_slots(resume, seats, slots, &remote);
}

// The same, where the pairs are so few that a search is sooner done than a table is laid out.
fn resume_by_search(
    resume: &mut Worklist<'_, ResumingDelivery>,
    seats: &mut Seats<'_>,
    slots: &[Slot<UnsettledMessage>],
    pairs: &[PeerDelivery<'_>],
)
    requires legal { LegalTags pairs.now }
    requires room { length (items resume.old) + length slots.now ≤ space resume.old }
    ensures listed { items resume.new ≡ items resume.old ++ flat_map (item_by (peers_of pairs.now)) slots.now }
    ensures space { space resume.new ≡ space resume.old }
    ensures told { seated seats.new ≡ tell_all (flat_map (end_by (peers_of pairs.now)) slots.now) (seated seats.old) }
{
    for slot in slots {
        let decided = resume_delivery(slot.entry.state, peer_state(pairs, &slot.tag));
        resume_as(resume, seats, slot, decided);
    }
}

impl<'a> SenderLink<'a> {
    // Only refuses: the state that the link moves to, or what stands against the move.
    fn may_attach(&self, attach: &Attach<'_>, pool: &[u8]) -> Result<LinkState, SenderAttachError>
        ensures answer { result ≡ gated (attach_refusal self.now attach.now pool.now) (attached_state self.now attach.now) }
        ensures legal { IfOk result (λ _. LegalTags attach.now.unsettled.now) }
    {
        let state = self
            .local_state
            .on_incoming_attach(attach.incomplete_unsettled)
            .ok_or(SenderAttachError::IllegalState)?;
        if has_illegal_tag(attach.unsettled) {
            return Err(SenderAttachError::IllegalTag);
        }
        let free = self.resume.capacity() - self.resume.count();
        if attach.unsettled.len() > MOST_PAIRS || self.unsettled.count() > free {
            return Err(SenderAttachError::TooManyUnsettled);
        }
        if any_outside(self.unsettled.front(), pool) {
            return Err(SenderAttachError::OutsidePool);
        }
        Ok(state)
    }

    // Takes over what the peer says, as far as the two ends agree.
    fn negotiate(&mut self, attach: &Attach<'_>) -> Result<(), SenderAttachError>
        ensures answer { result ≡ gated (late_refusal self.old attach.now) tt }
        ensures link { self.new ≡ with_settings (attached_settings self.old attach.now) self.old }
    {
        if !attach.has_target {
            return Err(SenderAttachError::IncomingTargetIsNone);
        }
        self.settings.rcv_settle_mode = attach.rcv_settle_mode;
        if self.settings.conflicts_with(attach.snd_settle_mode) {
            return Err(SenderAttachError::SndSettleModeNotSupported);
        }
        self.settings.limit_by(attach.max_message_size);
        Ok(())
    }

    // What the two maps of unsettled deliveries come to.
    fn exchange(&self, attach: &Attach<'_>) -> SenderAttachExchange
        ensures { result ≡ exchanged self.now.state self.now attach.now }
    {
        if self.unsettled.count() == 0 && attach.unsettled.len() == 0 {
            SenderAttachExchange::Complete
        } else if self.local_state.is_incomplete() {
            SenderAttachExchange::IncompleteUnsettled
        } else {
            SenderAttachExchange::Resume
        }
    }

    // The table is emptied, and each of its deliveries waits for its turn or has ended.
    fn resume_all(&mut self, attach: &Attach<'_>)
        requires legal { LegalTags attach.now.unsettled.now }
        requires few { length attach.now.unsettled.now ≤ 1024 }
        requires room { length self.old.held.resume + length self.old.held.table ≤ self.old.rooms.resume }
        ensures { self.new ≡ landed self.old (holding self.old (resumed self.old attach.now) (flat_map (end_of attach.now) self.old.held.table)) }
    {
        let slots = self.unsettled.front();
        if slots.is_empty() || attach.unsettled.len() <= FEW_PAIRS {
            resume_by_search(&mut self.resume, &mut self.seats, slots, attach.unsettled);
        } else {
            resume_by_table(&mut self.resume, &mut self.seats, slots, attach.unsettled);
        }
        self.unsettled.clear();
    }

    // The peer's attach has come. Where it has no target, or wants another settlement, the refusal leaves the link moved.
    pub fn attach(
        &mut self,
        attach: &Attach<'_>,
        pool: &[u8],
    ) -> Result<SenderAttachExchange, SenderAttachError>
        ensures answer { result ≡ attach_answer self.old attach.now pool.now }
        ensures link { self.new ≡ step self.old (AttachCall attach.now pool.now) }
        ensures no_delivery_lost_or_ended_twice { SafeAfter self.old (AttachCall attach.now pool.now) self.new }
    {
        self.local_state = self.may_attach(attach, pool)?;
        self.input_handle = Some(attach.handle);
        self.negotiate(attach)?;
        let exchange = self.exchange(attach);
        self.resume_all(attach);
        Ok(exchange)
    }
}
