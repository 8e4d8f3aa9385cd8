// A link that is attached and has credit, its queue, and the tickets of what it sent.
ghost use Rattle.std.specs.Prelude.{◌≡◌, ◌+◌, ◌≤◌, IfSome};
ghost use Rattle.workloads.specs.Berths.{outcomes};

use crate::credit::{FRAME, credit};
use amqp::state::DeliveryState;
use amqp::tag::DeliveryTag;
use codec::compact::Compact;
use link::delivery::Outcome;
use memory::LinkMemory;
use queue::queue::Queue;
use sender::sender_link::SenderLink;
use sender::ticket::{Settlement, Ticket};
use shipping::dock::opening::{answering, empty_queue, settings_for};
use shipping::dock::sending::plain;
use std::alloc::Global;
use std::collections::VecDeque;

// A data section of three bytes, which each delivery carries.
pub(crate) const MESSAGE: [u8; 8] = [0x00, 0x53, 0x75, 0xa0, 0x03, 0x41, 0x42, 0x43];

// It cannot be let go, since its tickets cannot.
pub(crate) struct Berth<'a> {
    pub(crate) link: SenderLink<'a>,
    pub(crate) queue: Queue,
    tickets: VecDeque<Ticket>,
    // How many tickets told that the delivery was accepted.
    accepted: u64,
}

impl<'a> Berth<'a> {
    // None where there is no memory.
    pub(crate) fn new(heap: Global, memory: &'a mut LinkMemory) -> Option<Berth<'a>>
        ensures { IfSome result (λ b. outcomes b ≡ 0) }
    {
        let mut link = memory.link(settings_for(FRAME), 0).ok()?;
        let queue = empty_queue(heap, 4, FRAME).ok()?;
        link.open(0, false).ok()?;
        link.attach(&answering(&[]), &MESSAGE).ok()?;
        let _ = link.flow(&credit(0));
        Some(Berth {
            link,
            queue,
            tickets: VecDeque::new(heap),
            accepted: 0,
        })
    }

    // The oldest frame is out of the queue.
    pub(crate) fn read(&mut self)
        ensures { outcomes self.new ≡ outcomes self.old }
    {
        let mut out = [0; FRAME];
        let _ = self.queue.take(&mut out);
    }

    fn keep(&mut self, ticket: Ticket)
        ensures { outcomes self.new ≤ outcomes self.old + 1 }
    {
        if let Err(failed) = self.tickets.push_back(ticket) {
            let _ = self.link.collect(failed.value);
        }
    }

    // One more delivery.
    pub(crate) fn send(&mut self)
        ensures { outcomes self.new ≤ outcomes self.old + 1 }
    {
        let sent = self
            .link
            .send(&mut self.queue, &Compact, &MESSAGE, &plain(MESSAGE.len()));
        match sent {
            Ok(Settlement::Unsettled(ticket)) => self.keep(ticket),
            Ok(Settlement::Settled(_)) => {}
            Err(_) => {}
        }
        self.read();
    }

    // So many deliveries.
    pub(crate) fn fill(&mut self, entries: u32)
        ensures { outcomes self.new ≤ outcomes self.old + entries }
    {
        for n in 0..entries {
            self.send();
        }
    }

    // The oldest ticket is collected.
    pub(crate) fn collect(&mut self)
        ensures { outcomes self.new ≤ outcomes self.old }
    {
        if let Some(ticket) = self.tickets.pop_front() {
            let accepted = Outcome::State(DeliveryState::Accepted);
            if self.link.collect(ticket) == Ok(Some(accepted)) {
                self.accepted = self.accepted.saturating_add(1);
            }
        }
    }

    // The peer accepts a delivery.
    pub(crate) fn accept(&mut self, count: u32)
        ensures { outcomes self.new ≡ outcomes self.old }
    {
        let tag = DeliveryTag::from_count(count);
        let _ = self
            .link
            .disposition(&tag, true, Some(DeliveryState::Accepted));
    }

    // All tickets are collected: how many told that their delivery was accepted.
    pub(crate) fn finish(self) -> u64
        ensures { result ≤ outcomes self.entry }
    {
        let Berth {
            mut link,
            queue: _,
            mut tickets,
            mut accepted,
        } = self;
        while let Some(ticket) = tickets.pop_front() {
            if link.collect(ticket) == Ok(Some(Outcome::State(DeliveryState::Accepted))) {
                accepted = accepted.saturating_add(1);
            }
        }
        tickets.destroy_empty();
        accepted
    }
}
