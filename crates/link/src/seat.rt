// Seats: where a delivery's outcome waits for its ticket.
ghost use Rattle.std.specs.Prelude.{◌≡◌, ◌<◌, length, replicate, IfSome, slice_set};
ghost use Rattle.std.specs.List.{list_any, position};
ghost use Rattle.unsettled.specs.Indexes.{keys_of};
ghost use Rattle.unsettled.specs.Keyed.{Keyed, Keyed-prop};
ghost use Rattle.link.specs.declared.seat.Seat.TheVariants.{Free};
ghost use Rattle.link.specs.Seating.{number_of, Taken};

use crate::delivery::Outcome;
use amqp::error::TicketError;
use unsettled::index::{Index, PLACES};

// A number is that of the delivery's ticket.
#[derive(Clone, Copy)]
pub enum Seat {
    Free,
    Pending(u32),
    Ended(u32, Outcome),
}

// The seats of a link, in lent memory. With a model of them `look` and `vacate` did not prove.
#[derive(Drop)]
pub struct Seats<'a> {
    seats: &'a mut [Seat],
    // Seats by their numbers.
    index: Index,
    // All seats before it are taken.
    taken: usize,
    ghost keyed: { Keyed number_of (keys_of index) (length seats.now) seats.now } by { Keyed-prop number_of (keys_of index) (length seats.now) seats.now },
    ghost full: { Taken taken seats.now },
}

impl Seat {
    ghost use Rattle.link.specs.Seats.{is_free, sits, told};

    // The number that has it.
    fn number(&self) -> Option<u32>
        ensures { result ≡ number_of self.now }
    {
        match self {
            Seat::Free => None,
            Seat::Pending(number) | Seat::Ended(number, _) => Some(*number),
        }
    }

    fn is_free(&self) -> bool
        ensures { result ≡ is_free self.now }
    {
        matches!(self, Seat::Free)
    }

    // It is the seat of a number.
    fn is_of(&self, number: u32) -> bool
        ensures { result ≡ sits number self.now }
    {
        matches!(self, Seat::Pending(n) | Seat::Ended(n, _) if *n == number)
    }

    // How its delivery ended, if it has.
    fn outcome(&self) -> Option<Outcome>
        ensures { result ≡ told self.now }
    {
        match self {
            Seat::Ended(_, outcome) => Some(*outcome),
            _ => None,
        }
    }
}

// A seat is written, and found by its number.
fn write(seats: &mut [Seat], index: &mut Index, i: usize, seat: Seat)
    requires { i < length seats.old }
    ensures seats { seats.new ≡ slice_set seats.old i seat }
    ensures keys { keys_of index.new ≡ slice_set (keys_of index.old) i (number_of seat) }
{
    match seat.number() {
        Some(number) => index.put(i, number),
        None => index.remove(i),
    }
    seats[i] = seat;
}

impl<'a> Seats<'a> {
    ghost use Rattle.link.specs.Seats.{is_free, sits, seated, sit, tell, vacate, seat_answer};

    // All seats are free.
    pub fn new(seats: &'a mut [Seat]) -> Seats<'a>
        ensures { seated result ≡ replicate (length seats.old) Free }
    {
        seats.fill(Seat::Free);
        Seats {
            seats,
            index: Index::new(),
            taken: 0,
        }
    }

    // Every seat, free or not.
    pub fn as_slice(&self) -> &[Seat]
        ensures { result.now ≡ seated self.now }
    {
        self.seats
    }

    // The first free seat.
    fn free(&self) -> Option<usize>
        ensures found { result ≡ position is_free (seated self.now) }
        ensures within { IfSome result (λ i. i < length (seated self.now)) }
    {
        // By place: the seats before are known to be taken.
        let seats = &*self.seats;
        for i in self.taken..seats.len() {
            if seats[i].is_free() {
                return Some(i);
            }
        }
        None
    }

    fn search(&self, number: u32) -> Option<usize>
        ensures found { result ≡ position (sits number) (seated self.now) }
        ensures within { IfSome result (λ i. i < length (seated self.now)) }
    {
        self.seats.iter().position(|seat| seat.is_of(number))
    }

    // The seat of a number. Seats past the index's places are searched.
    fn find(&self, number: u32) -> Option<usize>
        ensures found { result ≡ position (sits number) (seated self.now) }
        ensures within { IfSome result (λ i. i < length (seated self.now)) }
    {
        match self.index.find(number) {
            Some(i) if i < self.seats.len() => Some(i),
            None if self.seats.len() <= PLACES => None,
            _ => self.search(number),
        }
    }

    #[tactic(auto, using(crate::proofs::Seating::any_free))]
    pub fn has_free(&self) -> bool
        ensures { result ≡ list_any is_free (seated self.now) }
    {
        self.free().is_some()
    }

    // The first free seat waits for this delivery's outcome.
    #[tactic(auto, using(crate::proofs::Places::written_at, crate::proofs::Places::written_nowhere))]
    pub fn sit(&mut self, number: u32)
        ensures { seated self.new ≡ sit number (seated self.old) }
    {
        if let Some(i) = self.free() {
            write(self.seats, &mut self.index, i, Seat::Pending(number));
            self.taken = i + 1;
        }
    }

    // The delivery's seat, if its ticket was not collected before, keeps the outcome.
    #[tactic(auto, using(crate::proofs::Places::written_at, crate::proofs::Places::written_nowhere))]
    pub fn tell(&mut self, number: u32, outcome: Outcome)
        ensures { seated self.new ≡ tell number outcome (seated self.old) }
    {
        if let Some(i) = self.find(number) {
            self.seats[i] = Seat::Ended(number, outcome);
        }
    }

    // How the delivery of a number ended, or none while it has not.
    pub fn look(&self, number: u32) -> Result<Option<Outcome>, TicketError>
        ensures { result ≡ seat_answer number (seated self.now) }
    {
        let i = self.find(number).ok_or(TicketError::NoSeat)?;
        let seat = self.seats[i];
        Ok(seat.outcome())
    }

    // Frees the seat of a number, and answers what it told.
    #[tactic(auto, using(crate::proofs::Places::written_at, crate::proofs::Places::written_nowhere))]
    pub fn vacate(&mut self, number: u32) -> Result<Option<Outcome>, TicketError>
        ensures answer { result ≡ seat_answer number (seated self.old) }
        ensures after { seated self.new ≡ vacate number (seated self.old) }
    {
        let i = self.find(number).ok_or(TicketError::NoSeat)?;
        let seat = self.seats[i];
        self.taken = self.taken.min(i);
        write(self.seats, &mut self.index, i, Seat::Free);
        Ok(seat.outcome())
    }
}
