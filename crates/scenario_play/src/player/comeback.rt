// A break, after which the link comes back to a peer that has nothing unsettled; and what is then known of each ticket.
ghost use Rattle.std.specs.Prelude.{◌≡◌, ◌≤◌, ◌⊎◌, length, count_by};
ghost use Rattle.link.specs.declared.state.LinkState.TheVariants.{Unattached, Closed};
ghost use Rattle.scenario_play.specs.Keeping.{has_number, stands_for, kept_count, is_kept, all_kept};
ghost use Rattle.scenario_play.specs.Comebacks.{Holding};

use super::Player;
use crate::outlet::Outlet;
use link::attach::Attach;
use link::flow::LinkFlow;
use link::resumption::ResumingDelivery;
use link::state::LinkState;
use sender::ticket::Ticket;
use std::alloc::Global;
use unsettled::message::UnsettledMessage;
use unsettled::slot::Slot;

// What waits in a sink is lost: a queue is taken from, and a spool emptied.
fn lose<S: Outlet>(heap: Global, sink: &mut S, out: &mut [u8]) {
    while let Ok(Some(_place)) = sink.take(out) {}
    let _ = sink.empty(heap);
}

// How many of these deliveries have a number.
fn count_of(number: u32, slots: &[Slot<UnsettledMessage>]) -> usize
    ensures count { result ≡ count_by (has_number number) slots.now }
    ensures within { result ≤ length slots.now }
{
    slots
        .iter()
        .filter(|slot| slot.entry.ticket == number)
        .count()
}

fn stands_for(number: u32, item: &ResumingDelivery) -> bool
    ensures { result ≡ stands_for number item.now }
{
    item.delivery()
        .is_some_and(|slot| slot.entry.ticket == number)
}

// How many of these items stand for the delivery of a number.
fn count_among(number: u32, items: &[ResumingDelivery]) -> usize
    ensures count { result ≡ count_by (stands_for number) items.now }
    ensures within { result ≤ length items.now }
{
    items.iter().filter(|item| stands_for(number, item)).count()
}

impl<'a, S: Outlet> Player<'a, S> {
    fn lose_frames(&mut self)
        ensures { Holding self.old self.new }
    {
        lose(self.heap, &mut self.sink, &mut self.out);
    }

    // Both ends attach again under their handles, and agree on what they agreed on.
    fn reattach(&mut self, handle: u32) -> bool
        ensures { Holding self.old self.new }
    {
        let settings = self.link.settings();
        let attach = Attach {
            handle: self.link.input_handle().unwrap_or(0),
            snd_settle_mode: settings.snd_settle_mode,
            rcv_settle_mode: settings.rcv_settle_mode,
            has_target: true,
            unsettled: &[],
            incomplete_unsettled: false,
            max_message_size: 0,
        };
        self.link.open(handle, false).is_ok()
            && self.link.attach(&attach, self.pool.as_slice()).is_ok()
    }

    fn work_next(&mut self)
        ensures { Holding self.old self.new }
    {
        self.lose_frames();
        let _ = self
            .link
            .work(&mut self.sink, &self.encoder, self.pool.as_slice());
    }

    // The resume list, as far as the link goes on.
    fn work_off(&mut self)
        ensures { Holding self.old self.new }
    {
        let count = self.link.resume_list().len();
        for _ in 0..count {
            self.work_next();
        }
    }

    // Credit for one delivery, where there is none.
    fn grant(&mut self)
        ensures { Holding self.old self.new }
    {
        let flow = self.link.flow_state();
        if flow.link_credit == 0 {
            let _ = self.link.flow(&LinkFlow {
                handle: None,
                delivery_count: Some(flow.delivery_count),
                link_credit: Some(1),
                available: None,
                drain: false,
                echo: false,
            });
        }
    }

    fn resend_next(&mut self)
        ensures { Holding self.old self.new }
    {
        self.lose_frames();
        self.grant();
        let _ = self
            .link
            .resend(&mut self.sink, &self.encoder, self.pool.as_slice());
    }

    // The resend list, as far as the link goes on.
    fn resend_off(&mut self)
        ensures { Holding self.old self.new }
    {
        let count = self.link.resend_list().len();
        for _ in 0..count {
            self.resend_next();
        }
    }

    // A link that is not attached yet has nothing to break, and one that is closed does not come back.
    pub fn break_off(&mut self)
        ensures holding { Holding self.old self.new }
        ensures apart { (self.old.link.state ≡ Unattached) ⊎ (self.old.link.state ≡ Closed) → self.new ≡ self.old }
    {
        if matches!(
            self.link.local_state(),
            LinkState::Unattached | LinkState::Closed
        ) {
            return;
        }
        let handle = self.link.output_handle().unwrap_or(0);
        let _ = self.link.detach(false, None);
        self.lose_frames();
        if self.reattach(handle) {
            self.work_off();
            self.resend_off();
        }
    }

    // How often the delivery of a number stands in table and lists.
    fn count_kept(&self, number: u32) -> usize
        ensures { result ≡ kept_count number self.now.link.held }
    {
        count_of(number, self.link.unsettled_deliveries())
            + count_among(number, self.link.resume_list())
            + count_of(number, self.link.resend_list())
    }

    fn is_told_or_kept(&self, ticket: &Ticket) -> bool
        ensures { result ≡ is_kept self.now.link ticket.now }
    {
        match self.link.look(ticket) {
            Ok(Some(_outcome)) => true,
            Ok(None) => self.count_kept(ticket.number()) == 1,
            Err(_) => false,
        }
    }

    // Every ticket tells an outcome, or its delivery stands once in table or lists.
    pub fn keeps_every_ticket(&self) -> bool
        ensures { result ≡ all_kept self.now }
    {
        self.tickets
            .as_slice()
            .iter()
            .all(|ticket| self.is_told_or_kept(ticket))
    }
}
