// The compact form as it is read.
ghost use Rattle.std.specs.Prelude.{◌^◌, ◌<◌, IfOk};
ghost use Rattle.reader.specs.Compact.{number_at, compact_reading};
ghost use Rattle.reader.specs.Compacts.{compact_lawful, compact_written};
ghost use Rattle.reader.specs.Inputs.{Reads};
ghost use Rattle.reader.specs.Numbers.{from_at};
ghost use Rattle.reader.specs.Widths.{width_of};
ghost use Rattle.reader.specs.Steadies.{compact_steady};
ghost use Rattle.reader.specs.Picky.{compact_picky};
ghost use Rattle.reader.specs.Sizes.{compact_sizes};

use crate::input::Input;
use crate::parse::Parse;
use crate::width::Width;
use codec::codes::{Codes, UINT, ULONG};
use codec::compact::Compact;
use codec::error::ReadError;
use std::ops::RangeInclusive;

// A number by its codes; all of its bytes are `width`.
fn number(input: &mut Input<'_>, codes: Codes, width: Width) -> Result<u64, ReadError>
    ensures read { Reads (number_at codes.none codes.small codes.wide (from_at (width_of width) 256)) input.old input.new result }
    ensures fits { IfOk result (λ x. x < 256 ^ width_of width) }
{
    let fault = input.fault();
    match input.next()? {
        code if code == codes.none => Ok(0),
        code if code == codes.small => input.number_from(Width::One, 1),
        code if code == codes.wide => input.number_from(width, 256),
        _ => Err(fault),
    }
}

impl Parse for Compact {
    ghost reading = { compact_reading };

    ghost lawful = { compact_lawful };

    ghost steady = { compact_steady };

    ghost picky = { compact_picky };

    ghost sizes = { compact_sizes };

    ghost writes = { λ _ h. compact_written h };

    fn terse() -> bool {
        true
    }

    fn uint(input: &mut Input<'_>) -> Result<u32, ReadError> {
        Ok(number(input, UINT, Width::Four)? as u32)
    }

    fn ulong(input: &mut Input<'_>) -> Result<u64, ReadError> {
        number(input, ULONG, Width::Eight)
    }

    fn boolean(input: &mut Input<'_>) -> Result<bool, ReadError> {
        let fault = input.fault();
        match input.next()? {
            0x41 => Ok(true),
            0x42 => Ok(false),
            _ => Err(fault),
        }
    }

    fn binary<'a>(input: &mut Input<'a>, most: u64) -> Result<&'a [u8], ReadError> {
        input.sized(0xa0, Width::One, most)
    }

    fn symbol<'a>(input: &mut Input<'a>, most: u64) -> Result<&'a [u8], ReadError> {
        input.sized(0xa3, Width::One, most)
    }

    fn list(input: &mut Input<'_>, fields: RangeInclusive<u8>) -> Result<(), ReadError> {
        let (least, most) = fields.into_inner();
        if input.peek()? == 0x45 {
            return input.empty(least);
        }
        input.byte(0xc0)?;
        // The size.
        input.take(1)?;
        input.count(Width::One, least.max(1)..=most)
    }
}
