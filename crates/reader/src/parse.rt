// How a form is read: what differs from form to form.
ghost use Rattle.std.specs.Prelude.{◌≡◌, ◌≤◌, length, IfOk};
ghost use Rattle.amqp.specs.declared.header.Header.{Header as HeaderModel};
ghost use Rattle.std.specs.Range.{range_inclusive_start, range_inclusive_end};
ghost use Rattle.reader.specs.Ranges.{IsFresh};
ghost use Rattle.reader.specs.Inputs.{Reads, Spells, Opens};
ghost use Rattle.reader.specs.Reading.{Reading};
ghost use Rattle.reader.specs.Laws.{Lawful, Written};
ghost use Rattle.reader.specs.Steadies.{SteadyReading};
ghost use Rattle.reader.specs.Picky.{Picky};
ghost use Rattle.reader.specs.Sizes.{SizesDiffer};

use crate::input::Input;
use codec::encoder::Encoder;
use codec::error::ReadError;
use std::ops::RangeInclusive;

pub(crate) trait Parse: Encoder {
    ghost reading: { Reading };

    // Whether what may be left out is left out: said once more, since the encoder's trait of forms is private to codec.
    fn terse() -> bool
        ensures { result ≡ reading.form.terse };

    // One method for each of AMQP's types: a shared one would take the type as a number.
    fn uint(input: &mut Input<'_>) -> Result<u32, ReadError>
        ensures { Reads reading.uint_at input.old input.new result };

    fn ulong(input: &mut Input<'_>) -> Result<u64, ReadError>
        ensures { Reads reading.ulong_at input.old input.new result };

    fn boolean(input: &mut Input<'_>) -> Result<bool, ReadError>
        ensures { Reads reading.bool_at input.old input.new result };

    // At most `most` bytes.
    fn binary<'a>(input: &mut Input<'a>, most: u64) -> Result<&'a [u8], ReadError>
        ensures read { Spells (reading.binary_at most) input.old input.new result }
        ensures few { IfOk result (λ s. length s.now ≤ most) };

    fn symbol<'a>(input: &mut Input<'a>, most: u64) -> Result<&'a [u8], ReadError>
        ensures { Spells (reading.symbol_at most) input.old input.new result };

    // Up to the fields of a list, whose number has to be one of `fields`.
    fn list(input: &mut Input<'_>, fields: RangeInclusive<u8>) -> Result<(), ReadError>
        requires { IsFresh fields }
        ensures { Opens (reading.list_at (range_inclusive_start fields) (range_inclusive_end fields)) input.old input.new result };

    ghost lawful: { Lawful reading };

    // What is read of bytes stays so whatever follows them, unless they end too soon.
    ghost steady: { SteadyReading reading };

    // A byte that is no code is refused in place of one.
    ghost picky: { Picky reading };

    // Two sizes of a list differ nowhere but in the size.
    ghost sizes: { SizesDiffer reading.form };

    // What the encoder of the form writes is what is read, and never long.
    ghost writes: { (e : Self) (h : HeaderModel) → Written reading.form (Self.Encoder.bytes e) h };
}
