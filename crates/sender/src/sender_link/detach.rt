// The peer's detach.
ghost use Rattle.std.specs.Prelude.{◌≡◌, ◌+◌, ◌≤◌, ◌∷◌, ◌++◌, [], false, length};
ghost use Rattle.link.specs.Calls.{Detach, step};
ghost use Rattle.link.specs.Detaching.{put_back, overfull, all_end, detached_held, detached_ends, detach_answer, told_by};
ghost use Rattle.link.specs.Resuming.{listed};
ghost use Rattle.link.specs.Rows.{gated, unless};
ghost use Rattle.link.specs.Seats.{seated};
ghost use Rattle.link.specs.Sending.{with_table};
ghost use Rattle.link.specs.Views.{empty};
ghost use Rattle.link.specs.Turns.{stay, landed, holding, tell_all};
ghost use Rattle.unsettled.specs.Tables.{held, room};
ghost use Rattle.runs.specs.Safe.{SafeAfter};
ghost use Rattle.sender.specs.Detaches.{Joined, clashing, own_refusal, next_state, let_go_refusal};

use super::SenderLink;
use amqp::condition::AmqpError;
use amqp::error::ApplyRemoteDetachError;
use link::delivery::{Outcome, closed_by};
use link::resumption::ResumingDelivery;
use link::seat::Seats;
use link::state::LinkState;
use unsettled::map::UnsettledMap;
use unsettled::message::UnsettledMessage;
use unsettled::slot::Slot;

// A delivery goes back into the table, unless its tag is there.
fn join(
    table: &mut UnsettledMap<'_, UnsettledMessage>,
    slot: &Slot<UnsettledMessage>,
) -> Result<(), ApplyRemoteDetachError>
    requires { length (held table.old) + 1 ≤ room table.old }
    ensures joined { Joined (held table.old) (slot.now ∷ []) result (held table.new) }
    ensures room { room table.new ≡ room table.old }
{
    if table.contains(&slot.tag) {
        return Err(ApplyRemoteDetachError::TagInTable);
    }
    let _there = table.put(slot.tag, slot.entry);
    Ok(())
}

// So does that of an item, if one stands behind it.
fn join_item(
    table: &mut UnsettledMap<'_, UnsettledMessage>,
    item: &ResumingDelivery,
) -> Result<(), ApplyRemoteDetachError>
    requires { length (held table.old) + length (listed (item.now ∷ [])) ≤ room table.old }
    ensures joined { Joined (held table.old) (listed (item.now ∷ [])) result (held table.new) }
    ensures room { room table.new ≡ room table.old }
{
    match item.delivery() {
        Some(slot) => join(table, &slot),
        None => Ok(()),
    }
}

fn join_items(
    table: &mut UnsettledMap<'_, UnsettledMessage>,
    items: &[ResumingDelivery],
) -> Result<(), ApplyRemoteDetachError>
    requires { length (held table.old) + length (listed items.now) ≤ room table.old }
    ensures joined { Joined (held table.old) (listed items.now) result (held table.new) }
    ensures room { room table.new ≡ room table.old }
{
    for item in items {
        join_item(table, item)?;
    }
    Ok(())
}

fn join_slots(
    table: &mut UnsettledMap<'_, UnsettledMessage>,
    slots: &[Slot<UnsettledMessage>],
) -> Result<(), ApplyRemoteDetachError>
    requires { length (held table.old) + length slots.now ≤ room table.old }
    ensures joined { Joined (held table.old) slots.now result (held table.new) }
    ensures room { room table.new ≡ room table.old }
{
    for slot in slots {
        join(table, slot)?;
    }
    Ok(())
}

// How many deliveries a list has.
fn count_listed(items: &[ResumingDelivery]) -> usize
    ensures { result ≡ length (listed items.now) }
{
    items.iter().filter_map(|item| item.delivery()).count()
}

fn tell_slots(seats: &mut Seats<'_>, slots: &[Slot<UnsettledMessage>], outcome: Outcome)
    ensures { seated seats.new ≡ tell_all (all_end outcome slots.now) (seated seats.old) }
{
    for slot in slots {
        seats.tell(slot.entry.ticket, outcome);
    }
}

fn tell_item(seats: &mut Seats<'_>, item: &ResumingDelivery, outcome: Outcome)
    ensures { seated seats.new ≡ tell_all (all_end outcome (listed (item.now ∷ []))) (seated seats.old) }
{
    if let Some(slot) = item.delivery() {
        seats.tell(slot.entry.ticket, outcome);
    }
}

fn tell_items(seats: &mut Seats<'_>, items: &[ResumingDelivery], outcome: Outcome)
    ensures { seated seats.new ≡ tell_all (all_end outcome (listed items.now)) (seated seats.old) }
{
    for item in items {
        tell_item(seats, item, outcome);
    }
}

// The error that a detach brought.
fn error_of(closed: bool, error: Option<AmqpError>) -> Result<(), ApplyRemoteDetachError>
    ensures { result ≡ told_by closed error }
{
    match (closed, error) {
        (_, None) => Ok(()),
        (true, Some(error)) => Err(ApplyRemoteDetachError::RemoteClosedWithError(error)),
        (false, Some(error)) => Err(ApplyRemoteDetachError::RemoteDetachedWithError(error)),
    }
}

impl<'a> SenderLink<'a> {
    // More would go back than the table has room for.
    fn is_overfull(&self) -> bool
        ensures { result ≡ overfull self.now }
    {
        let listed = count_listed(self.resume.front());
        let free = self.unsettled.capacity() - self.unsettled.count();
        listed > free || self.resend.count() > free - listed
    }

    // Only refuses: the state that the link moves to.
    fn may_detach(&self, closed: bool) -> Result<LinkState, ApplyRemoteDetachError>
        ensures { result ≡ gated (own_refusal self.now closed) (next_state self.now closed) }
    {
        let state = self
            .local_state
            .on_incoming_detach(closed)
            .ok_or(ApplyRemoteDetachError::IllegalState)?;
        if !closed && self.is_overfull() {
            return Err(ApplyRemoteDetachError::TableFull);
        }
        Ok(state)
    }

    fn join_lists(&mut self) -> Result<(), ApplyRemoteDetachError>
        requires { overfull self.old ≡ false }
        ensures joined { Joined self.old.held.table (put_back self.old.held) result self.new.held.table }
        ensures rest { self.new ≡ landed self.old (holding self.old (with_table self.new.held.table self.old.held) []) }
    {
        join_items(&mut self.unsettled, self.resume.front())?;
        join_slots(&mut self.unsettled, self.resend.front())
    }

    // What is listed goes back into the table, or nothing does.
    fn bring_back(&mut self) -> Result<(), ApplyRemoteDetachError>
        requires { overfull self.old ≡ false }
        ensures answer { result ≡ gated (clashing self.old) tt }
        ensures link { self.new ≡ landed self.old (unless (clashing self.old) (stay self.old) (holding self.old (detached_held false self.old.held) [])) }
    {
        let len = self.unsettled.count();
        let joined = self.join_lists();
        if joined.is_err() {
            self.unsettled.truncate(len);
        } else {
            self.resume.clear();
            self.resend.clear();
        }
        joined
    }

    // Every delivery ends.
    #[tactic(auto, using(crate::proofs::Detaching::told_all))]
    fn end_all(&mut self, outcome: Outcome)
        ensures { self.new ≡ landed self.old (holding self.old empty (all_end outcome (self.old.held.table ++ put_back self.old.held))) }
    {
        tell_slots(&mut self.seats, self.unsettled.front(), outcome);
        tell_items(&mut self.seats, self.resume.front(), outcome);
        tell_slots(&mut self.seats, self.resend.front(), outcome);
        self.unsettled.clear();
        self.resume.clear();
        self.resend.clear();
    }

    // The deliveries end, or go back into the table.
    fn let_go(
        &mut self,
        closed: bool,
        error: Option<AmqpError>,
    ) -> Result<(), ApplyRemoteDetachError>
        requires { closed ≡ false → overfull self.old ≡ false }
        ensures answer { result ≡ gated (let_go_refusal self.old closed) tt }
        ensures link { self.new ≡ landed self.old (unless (let_go_refusal self.old closed) (stay self.old) (holding self.old (detached_held closed self.old.held) (detached_ends closed error self.old.held))) }
    {
        if !closed {
            return self.bring_back();
        }
        self.end_all(closed_by(error));
        Ok(())
    }

    // The peer's detach has come. One that closes the link ends every delivery; after any other the deliveries stand in the
    // table again, and the link can come back.
    pub fn detach(
        &mut self,
        closed: bool,
        error: Option<AmqpError>,
    ) -> Result<(), ApplyRemoteDetachError>
        ensures answer { result ≡ detach_answer self.old closed error }
        ensures link { self.new ≡ step self.old (Detach closed error) }
        ensures no_delivery_lost_or_ended_twice { SafeAfter self.old (Detach closed error) self.new }
    {
        let state = self.may_detach(closed)?;
        self.let_go(closed, error)?;
        self.local_state = state;
        self.output_handle = None;
        error_of(closed, error)
    }
}
