// Tickets: who sent an unsettled delivery holds one, and learns its outcome by it.
ghost use Rattle.std.specs.Prelude.{◌≡◌, false, true};

use amqp::tag::DeliveryTag;

// Letting a ticket go asks that it was spent. A send hands out none that was, and only collecting spends one.
pub struct Ticket {
    pub(crate) number: u32,
    spent: bool,
}

impl Drop for Ticket {
    fn drop(self)
        requires { self.spent ≡ true }
    {
        let Ticket {
            number: _,
            spent: _,
        } = self;
    }
}

impl Ticket {
    // The ticket of a delivery that begins.
    pub(crate) fn new(number: u32) -> Ticket
        ensures { result ≡ record { number = number; spent = false } }
    {
        Ticket {
            number,
            spent: false,
        }
    }

    // The number of its delivery.
    pub fn number(&self) -> u32
        ensures { result ≡ self.now.number }
    {
        self.number
    }

    pub(crate) fn spend(mut self) -> u32
        ensures { result ≡ self.number }
    {
        self.spent = true;
        self.number()
    }
}

// What a send came to.
pub enum Settlement {
    Settled(DeliveryTag),
    Unsettled(Ticket),
}
