// Headers as they are read (Part 2, 2.7.5 and 2.7.6).
ghost use Rattle.std.specs.Prelude.{◌≡◌};
ghost use Rattle.reader.specs.Headers.{transfer_at, disposition_at, header_at, read_of};
ghost use Rattle.reader.specs.Inputs.{Reads};

use crate::input::Input;
use crate::parse::Parse;
use crate::same::only;
use crate::state::described;
use amqp::header::{Disposition, Header, Transfer};
use amqp::state::DeliveryState;
use amqp::tag::DeliveryTag;
use codec::error::ReadError;

#[tactic(auto, unfolding(crate::specs::Headers::transfer_at))]
fn transfer<P: Parse>(input: &mut Input<'_>) -> Result<Header, ReadError>
    ensures { Reads (transfer_at P.Parse.reading) input.old input.new result }
{
    P::list(input, 1..=11)?;
    let handle = input.must::<P, u32>()?;
    let delivery_id = input.may::<P, u32>()?;
    let delivery_tag = input.may::<P, DeliveryTag>()?;
    let message_format = input.may::<P, u32>()?;
    let settled = input.may::<P, bool>()?;
    let more = input.flag::<P>()?;
    // The receiver's settle mode.
    input.null::<P>()?;
    let state = input.may::<P, DeliveryState>()?;
    let resume = input.flag::<P>()?;
    let aborted = input.flag::<P>()?;
    let batchable = input.flag::<P>()?;
    Ok(Header::Transfer(Transfer {
        handle,
        delivery_id,
        delivery_tag,
        message_format,
        settled,
        more,
        state,
        resume,
        aborted,
        batchable,
    }))
}

#[tactic(auto, unfolding(crate::specs::Headers::disposition_at))]
fn disposition<P: Parse>(input: &mut Input<'_>) -> Result<Header, ReadError>
    ensures { Reads (disposition_at P.Parse.reading) input.old input.new result }
{
    P::list(input, 2..=6)?;
    let role = input.at;
    let is_receiver = input.must::<P, bool>()?;
    if is_receiver {
        return Err(input.fault_from(role));
    }
    let first = input.must::<P, u32>()?;
    // The last id.
    input.null::<P>()?;
    let settled = input.flag::<P>()?;
    let state = input.may::<P, DeliveryState>()?;
    let batchable = input.flag::<P>()?;
    Ok(Header::Disposition(Disposition {
        first,
        settled,
        state,
        batchable,
    }))
}

#[tactic(auto, unfolding(crate::specs::Headers::header_at))]
fn header<P: Parse>(input: &mut Input<'_>) -> Result<Header, ReadError>
    ensures { Reads (header_at P.Parse.reading) input.old input.new result }
{
    let start = input.at;
    // Codes stay numbers (docs/DECISIONS.md, Forms).
    match described::<P>(input)? {
        0x14 => transfer::<P>(input),
        0x15 => disposition::<P>(input),
        _ => Err(input.fault_from(start + 1)),
    }
}

// Codes, counts and values first; then what was read is written again, for the sizes and for spare bytes.
pub(crate) fn whole<P: Parse>(form: &P, src: &[u8]) -> Result<Header, ReadError>
    ensures { result ≡ read_of P.Parse.reading src.now }
{
    let header = header::<P>(&mut Input::new(src))?;
    // An encoder writes into memory that is lent to it.
    let mut bytes = [0; 256];
    let len = form.write(&header, &mut bytes).unwrap();
    only(src, &bytes[..len], header)
}
