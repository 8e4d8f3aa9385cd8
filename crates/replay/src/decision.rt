// What becomes of a delivery when its link comes back.
use crate::word::{bytes, optional_state};
use amqp::state::DeliveryState;
use amqp::text::Or;
use anyhow::Result;
use link::resumption::{Resumption, resume_delivery};
use sections::split_off_at_section_and_offset;
use std::alloc::Global;
use std::io::Write;

// `absent` where the peer does not list the delivery.
fn peer_state(word: &str) -> Result<Option<Option<DeliveryState>>> {
    if word == "absent" {
        return Ok(None);
    }
    Ok(Some(optional_state(word)?))
}

pub(crate) fn resume<W: Write>(
    local: &str,
    peer: &str,
    message: &str,
    heap: Global,
    out: &mut W,
) -> Result<()> {
    let message = bytes(message, heap)?;
    let local = optional_state(local)?;
    match resume_delivery(local, peer_state(peer)?) {
        Resumption::Resend => writeln!(out, "resend")?,
        Resumption::Resume(place) => {
            let start = split_off_at_section_and_offset(message.as_slice(), &place).unwrap_or(0);
            writeln!(out, "resume {start}")?;
        }
        Resumption::Abort => writeln!(out, "abort")?,
        Resumption::RestateOutcome => writeln!(out, "restate {}", Or(local, "none"))?,
        Resumption::End(outcome) => writeln!(out, "end {outcome}")?,
        Resumption::Settle(outcome) => writeln!(out, "settle {outcome}")?,
    }
    Ok(())
}
