// The wide form as it is read.
ghost use Rattle.reader.specs.Wide.{wide_reading};
ghost use Rattle.reader.specs.Wides.{wide_lawful, wide_written};
ghost use Rattle.reader.specs.Steadies.{wide_steady};
ghost use Rattle.reader.specs.Picky.{wide_picky};
ghost use Rattle.reader.specs.Sizes.{wide_sizes};

use crate::input::Input;
use crate::parse::Parse;
use crate::width::Width;
use codec::error::ReadError;
use codec::wide::Wide;
use std::ops::RangeInclusive;

impl Parse for Wide {
    ghost reading = { wide_reading };

    ghost lawful = { wide_lawful };

    ghost steady = { wide_steady };

    ghost picky = { wide_picky };

    ghost sizes = { wide_sizes };

    ghost writes = { λ _ h. wide_written h };

    fn terse() -> bool {
        false
    }

    fn uint(input: &mut Input<'_>) -> Result<u32, ReadError> {
        input.byte(0x70)?;
        Ok(input.number(Width::Four)? as u32)
    }

    fn ulong(input: &mut Input<'_>) -> Result<u64, ReadError> {
        input.byte(0x80)?;
        input.number(Width::Eight)
    }

    fn boolean(input: &mut Input<'_>) -> Result<bool, ReadError> {
        input.byte(0x56)?;
        let fault = input.fault();
        match input.next()? {
            1 => Ok(true),
            0 => Ok(false),
            _ => Err(fault),
        }
    }

    fn binary<'a>(input: &mut Input<'a>, most: u64) -> Result<&'a [u8], ReadError> {
        input.sized(0xb0, Width::Four, most)
    }

    fn symbol<'a>(input: &mut Input<'a>, most: u64) -> Result<&'a [u8], ReadError> {
        input.sized(0xb3, Width::Four, most)
    }

    // Every field is there.
    fn list(input: &mut Input<'_>, fields: RangeInclusive<u8>) -> Result<(), ReadError> {
        input.byte(0xd0)?;
        // The size.
        input.take(4)?;
        let (_, most) = fields.into_inner();
        input.count(Width::Four, most..=most)
    }
}
