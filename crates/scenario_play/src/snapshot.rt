// A whole link, as a line tells it.
ghost use Rattle.std.specs.Prelude.{◌≡◌, Some, filter_map, vec_items, IfOk, IsPermutation};
ghost use Rattle.std.specs.Fmt.{WritesOnOk};
ghost use Rattle.scenario_play.specs.Snapshots.{occupied_of, ShowsLink};
ghost use Rattle.scenario_play.specs.Texts.{snapshot_text, link_text};

use crate::parts::write_list;
use amqp::text::Or;
use link::delivery::Outcome;
use link::resumption::ResumingDelivery;
use link::seat::Seat;
use link::state::LinkState;
use scenario_text::names::StateName;
use sender::sender_link::SenderLink;
use std::alloc::{AllocError, Global};
use std::fmt;
use unsettled::message::UnsettledMessage;
use unsettled::slot::Slot;

// A seat that is taken.
#[derive(Clone, Copy)]
pub struct Occupied {
    pub number: u32,
    pub outcome: Option<Outcome>,
}

#[derive(Drop)]
pub struct Snapshot {
    pub state: LinkState,
    pub output: Option<u32>,
    pub input: Option<u32>,
    pub delivery_count: u32,
    pub link_credit: u32,
    pub max_message_size: u64,
    pub table: Vec<Slot<UnsettledMessage>>,
    pub resume: Vec<ResumingDelivery>,
    pub resend: Vec<Slot<UnsettledMessage>>,
    // By rising number.
    pub seats: Vec<Occupied>,
}

impl Occupied {
    fn of(seat: &Seat) -> Option<Occupied>
        ensures { result ≡ occupied_of seat.now }
    {
        match *seat {
            Seat::Free => None,
            Seat::Pending(number) => Some(Occupied {
                number,
                outcome: None,
            }),
            Seat::Ended(number, outcome) => Some(Occupied {
                number,
                outcome: Some(outcome),
            }),
        }
    }
}

// The taken seats, in order.
fn taken_seats(heap: Global, seats: &[Seat]) -> Result<Vec<Occupied>, AllocError>
    ensures { IfOk result (λ v. vec_items v ≡ filter_map occupied_of seats.now) }
{
    seats
        .iter()
        .filter_map(|seat| Occupied::of(seat))
        .collect(heap)
}

// The same, by rising number.
fn sorted_seats(heap: Global, seats: &[Seat]) -> Result<Vec<Occupied>, AllocError>
    ensures { IfOk result (λ v. IsPermutation (filter_map occupied_of seats.now) (vec_items v)) }
{
    let mut taken = taken_seats(heap, seats)?;
    taken.sort_by_key(|seat| seat.number)?;
    Ok(taken)
}

impl Snapshot {
    pub fn new(heap: Global, link: &SenderLink<'_>) -> Result<Snapshot, AllocError>
        ensures { IfOk result (λ x. ShowsLink link.now x) }
    {
        let flow = link.flow_state();
        Ok(Snapshot {
            state: link.local_state(),
            output: link.output_handle(),
            input: link.input_handle(),
            delivery_count: flow.delivery_count,
            link_credit: flow.link_credit,
            max_message_size: link.settings().max_message_size,
            table: Vec::from_slice(heap, link.unsettled_deliveries())?,
            resume: Vec::from_slice(heap, link.resume_list())?,
            resend: Vec::from_slice(heap, link.resend_list())?,
            seats: sorted_seats(heap, link.seats())?,
        })
    }

    // All but the lists.
    fn write_link<W: fmt::Write>(&self, f: &mut fmt::Formatter<W>) -> fmt::Result
        ensures { WritesOnOk W.write_str_gives f.old result (link_text self.now) f.new }
    {
        let state = StateName(self.state);
        let output = Or(self.output, "none");
        let input = Or(self.input, "none");
        let count = self.delivery_count;
        let credit = self.link_credit;
        let limit = self.max_message_size;
        write!(
            f,
            "{state} output={output} input={input} count={count} credit={credit} limit={limit}"
        )
    }
}

impl fmt::Display for Snapshot {
    ghost output = { λ x. Some (snapshot_text x) };

    fn fmt<W: fmt::Write>(&self, f: &mut fmt::Formatter<W>) -> fmt::Result {
        self.write_link(f)?;
        write_list(" table=", self.table.as_slice(), f)?;
        write_list(" resume=", self.resume.as_slice(), f)?;
        write_list(" resend=", self.resend.as_slice(), f)?;
        write_list(" seats=", self.seats.as_slice(), f)
    }
}
