// Tickets: held, looked at and collected.
ghost use Rattle.std.specs.Prelude.{◌≡◌, ◌++◌, ◌∷◌, [], OnOk, OnErr};
ghost use Rattle.link.specs.Calls.{Collect, step};
ghost use Rattle.link.specs.Disposing.{looked};
ghost use Rattle.scenario_play.specs.Answers.{told};
ghost use Rattle.scenario_play.specs.Looks.{look_answer, collected};
ghost use Rattle.scenario_play.specs.Performing.{OrNoMemory};
ghost use Rattle.scenario_play.specs.Scenes.{with_link, with_tickets};

use super::Player;
use crate::answer::{Answer, Refusal};
use crate::outlet::Outlet;
use crate::trouble::Trouble;
use amqp::error::TicketError;
use link::delivery::Outcome;
use sender::ticket::Ticket;

fn tell(outcome: Result<Option<Outcome>, TicketError>) -> Answer
    ensures { result ≡ told outcome }
{
    match outcome {
        Ok(outcome) => Answer::Outcome(outcome),
        Err(e) => Answer::Refused(Refusal::Number(e.number())),
    }
}

impl<'a, S: Outlet> Player<'a, S> {
    // A ticket that finds no memory is collected at once.
    pub(super) fn hold(&mut self, ticket: Ticket) -> Result<Answer, Trouble>
        ensures answer { OrNoMemory result (λ a. a ≡ Answer.Ticket ticket.number) }
        ensures scene { OnOk result (self.new ≡ with_tickets (self.old.tickets ++ ticket ∷ []) self.old) }
        ensures lost { OnErr result (self.new ≡ with_link (step self.old.link (Collect ticket.number)) self.old) }
    {
        let number = ticket.number();
        match self.tickets.hold(ticket) {
            Ok(()) => Ok(Answer::Ticket(number)),
            Err(failed) => {
                let _ = self.link.collect(failed.value);
                Err(Trouble::Memory)
            }
        }
    }

    pub(super) fn look(&self, number: u32) -> Answer
        ensures { result ≡ look_answer self.now number }
    {
        match self.tickets.find(number) {
            Some(ticket) => tell(self.link.look(ticket)),
            None => Answer::NoTicket(number),
        }
    }

    pub(super) fn collect(&mut self, number: u32) -> Answer
        ensures answer { result ≡ look_answer self.old number }
        ensures scene { self.new ≡ collected number self.old }
    {
        match self.tickets.take(number) {
            Some(ticket) => tell(self.link.collect(ticket)),
            None => Answer::NoTicket(number),
        }
    }
}
