// What a link is lent, from the heap.
#![tactic(auto)]

ghost use Rattle.std.specs.Prelude.{◌≡◌, IfOk};
ghost use Rattle.link.specs.Views.{made};
ghost use Rattle.memory.specs.Sizes.{rooms_in, seats_in};
ghost use Rattle.runs.specs.Safe.{Begun};
ghost use Rattle.sender.specs.Views.{rooms_of};

use amqp::error::MakeError;
use amqp::tag::DeliveryTag;
use link::resumption::ResumingDelivery;
use link::seat::Seat;
use link::settings::Settings;
use sender::sender_link::SenderLink;
use std::alloc::{AllocError, Global};
use unsettled::message::UnsettledMessage;
use unsettled::slot::Slot;

#[derive(Drop)]
pub struct LinkMemory {
    table: Vec<Slot<UnsettledMessage>>,
    resume: Vec<ResumingDelivery>,
    resend: Vec<Slot<UnsettledMessage>>,
    seats: Vec<Seat>,
}

impl LinkMemory {
    // Room for so many deliveries in the table and in each list, and for so many tickets.
    pub fn with_rooms(
        heap: Global,
        table: usize,
        resume: usize,
        resend: usize,
        seats: usize,
    ) -> Result<LinkMemory, AllocError>
        ensures { IfOk result (λ m. (rooms_in m ≡ rooms_of table resume resend) × (seats_in m ≡ seats)) }
    {
        // Under the tag of the first delivery: a search past what the table holds would find it, and a run would show that.
        let blank = Slot {
            tag: DeliveryTag::from_count(0),
            entry: UnsettledMessage::default(),
        };
        Ok(LinkMemory {
            table: vec![in heap; blank; table]?,
            resume: vec![in heap; ResumingDelivery::Resend(blank); resume]?,
            resend: vec![in heap; blank; resend]?,
            seats: vec![in heap; Seat::Free; seats]?,
        })
    }

    // Room for so many deliveries, and their tickets.
    pub fn with_entries(heap: Global, entries: usize) -> Result<LinkMemory, AllocError>
        ensures { IfOk result (λ m. (rooms_in m ≡ rooms_of entries entries entries) × (seats_in m ≡ entries)) }
    {
        LinkMemory::with_rooms(heap, entries, entries, entries, entries)
    }

    // A link in this memory, with nothing in its table.
    pub fn link(
        &mut self,
        settings: Settings,
        initial_delivery_count: u32,
    ) -> Result<SenderLink<'_>, MakeError>
        ensures link { result ≡ made settings initial_delivery_count (rooms_in self.old) (seats_in self.old) }
        ensures no_delivery_lost_or_ended_twice { IfOk result (λ l. Begun l) }
    {
        SenderLink::new(
            settings,
            initial_delivery_count,
            &mut self.table,
            &mut self.resume,
            &mut self.resend,
            &mut self.seats,
        )
    }
}
