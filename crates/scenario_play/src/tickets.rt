// The tickets that a run holds, in the order of their sends.
ghost use Rattle.std.specs.Prelude.{◌≡◌, ◌<◌, ◌++◌, ◌∷◌, [], position, is_ok, length, IfSome, IfErr, if◌then◌else◌};
ghost use Rattle.std.specs.Option.{option_copied};
ghost use Rattle.scenario_play.specs.Tickets.{is_of, first_of, without, all_collected};

use sender::sender_link::SenderLink;
use sender::ticket::Ticket;
use std::alloc::{AllocFailed, Global};
use std::marker::Model;

// It cannot be let go: each ticket is collected.
pub struct Tickets {
    held: Vec<Ticket>,
}

impl Model for Tickets {
    ghost use Rattle.std.specs.Prelude.{List, vec_items};
    ghost use Rattle.sender.specs.declared.ticket.Ticket.{Ticket as Held};

    ghost Value = { List Held };

    ghost view = { λ t. vec_items t.held };
}

impl Tickets {
    pub fn new(heap: Global) -> Tickets
        ensures { result ≡ [] }
    {
        Tickets {
            held: Vec::new(heap),
        }
    }

    // Without memory the ticket comes back.
    pub fn hold(&mut self, ticket: Ticket) -> Result<(), AllocFailed<Ticket>>
        ensures held { self.new ≡ (if is_ok result then self.old ++ ticket ∷ [] else self.old) }
        ensures back { IfErr result (λ e. e.value ≡ ticket) }
    {
        self.held.push(ticket)
    }

    pub fn as_slice(&self) -> &[Ticket]
        ensures { result.now ≡ self.now }
    {
        self.held.as_slice()
    }

    fn place(&self, number: u32) -> Option<usize>
        ensures place { result ≡ position (is_of number) self.now }
        ensures within { IfSome result (λ i. i < length self.now) }
    {
        self.held
            .iter()
            .position(|ticket| ticket.number() == number)
    }

    // The first one of this number.
    pub fn find(&self, number: u32) -> Option<&Ticket>
        ensures { option_copied result ≡ first_of number self.now }
    {
        self.held.get(self.place(number)?)
    }

    // The same, which is then no longer held.
    pub fn take(&mut self, number: u32) -> Option<Ticket>
        ensures taken { result ≡ first_of number self.old }
        ensures rest { self.new ≡ without number self.old }
    {
        let i = self.place(number)?;
        Some(self.held.remove(i))
    }

    // Every ticket is collected, the last one first.
    #[tactic(auto, using(crate::proofs::Collecting::all_collected_last))]
    pub fn collect_all(self, link: &mut SenderLink<'_>)
        ensures { link.new ≡ all_collected self link.old }
    {
        let Tickets { mut held } = self;
        while let Some(ticket) = held.pop() {
            let _ = link.collect(ticket);
        }
        held.destroy_empty();
    }
}
