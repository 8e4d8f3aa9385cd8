// How deliveries come back with the link (Part 2, 2.6.13).
ghost use Rattle.std.specs.Prelude.{◌≡◌, Some};
ghost use Rattle.voyage.specs.Returns.{return_of, counted, returns_text};

use amqp::header::Transfer;
use amqp::state::DeliveryState;
use std::fmt;

#[derive(Clone, Copy, Debug, PartialEq, Eq)]
pub enum Return {
    // From so many bytes on.
    Resumed(u64),
    // All of it, with an outcome.
    Restated,
    // All of it, under a new tag.
    Resent,
    Aborted,
}

impl Return {
    // What a first frame says, if it is of a delivery that comes back under its tag.
    pub fn under_old_tag(transfer: &Transfer) -> Option<Return>
        ensures { result ≡ return_of transfer.now.resume transfer.now.aborted transfer.now.state }
    {
        match (transfer.resume, transfer.aborted, transfer.state) {
            (false, _, _) | (true, false, None) => None,
            (true, true, _) => Some(Return::Aborted),
            (true, false, Some(DeliveryState::Received(at))) => {
                Some(Return::Resumed(at.section_offset))
            }
            (true, false, Some(_)) => Some(Return::Restated),
        }
    }
}

// How many came back, and how.
#[derive(Clone, Copy, PartialEq, Eq, Default)]
pub struct Returns {
    pub resumed: u64,
    pub resent: u64,
    pub restated: u64,
    pub aborted: u64,
}

impl Returns {
    // One more.
    pub fn add(&mut self, one: Return)
        ensures { self.new ≡ counted one self.old }
    {
        match one {
            Return::Resumed(_) => self.resumed = self.resumed.saturating_add(1),
            Return::Restated => self.restated = self.restated.saturating_add(1),
            Return::Resent => self.resent = self.resent.saturating_add(1),
            Return::Aborted => self.aborted = self.aborted.saturating_add(1),
        }
    }
}

impl fmt::Display for Returns {
    ghost output = { λ r. Some (returns_text r) };

    fn fmt<W: fmt::Write>(&self, f: &mut fmt::Formatter<W>) -> fmt::Result {
        write!(
            f,
            "{} resumed, {} resent, {} restated, {} aborted",
            self.resumed, self.resent, self.restated, self.aborted
        )
    }
}
