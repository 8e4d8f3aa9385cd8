// What a ticket tells.
ghost use Rattle.std.specs.Prelude.{◌≡◌};
ghost use Rattle.link.specs.Calls.{Look, Collect, step};
ghost use Rattle.link.specs.Disposing.{looked};
ghost use Rattle.runs.specs.Safe.{SafeAfter};

use super::SenderLink;
use crate::ticket::Ticket;
use amqp::error::TicketError;
use link::delivery::Outcome;

impl<'a> SenderLink<'a> {
    // How the ticket's delivery has ended, or none while it has not.
    pub fn look(&self, ticket: &Ticket) -> Result<Option<Outcome>, TicketError>
        ensures answer { result ≡ looked self.now ticket.now.number }
        ensures no_delivery_lost_or_ended_twice { SafeAfter self.now (Look ticket.now.number) self.now }
    {
        self.seats.look(ticket.number)
    }

    // The same, and the ticket is spent: its seat is free, and its delivery, if it has not ended, goes on without it.
    pub fn collect(&mut self, ticket: Ticket) -> Result<Option<Outcome>, TicketError>
        ensures answer { result ≡ looked self.old ticket.number }
        ensures link { self.new ≡ step self.old (Collect ticket.number) }
        ensures no_delivery_lost_or_ended_twice { SafeAfter self.old (Collect ticket.number) self.new }
    {
        self.seats.vacate(ticket.spend())
    }
}
