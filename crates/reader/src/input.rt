// The bytes that are read, and how far. An error is the place of the fault.
ghost use Rattle.std.specs.Prelude.{◌≡◌, ◌≤◌, length};

use crate::width::Width;
use codec::error::ReadError;
use std::ops::RangeInclusive;

#[derive(Drop)]
pub(crate) struct Input<'a> {
    src: &'a [u8],
    pub(crate) at: usize,
    // How many fields of the list that is read are still to come.
    pub(crate) left: u8,
    ghost within: { at ≤ length src.now },
}

impl<'a> Input<'a> {
    ghost use Rattle.std.specs.Prelude.{◌+◌, ◌^◌, ◌<◌, IfOk};
    ghost use Rattle.codec.specs.declared.error.ReadError.TheVariants.{NotEncoded};
    ghost use Rattle.reader.specs.Places.{value_place, byte_at};
    ghost use Rattle.reader.specs.Numbers.{peek_at, next_at, taken_at, whole_at, from_at, sized_at, count_of, none_of};
    ghost use Rattle.std.specs.Range.{range_inclusive_start, range_inclusive_end};
    ghost use Rattle.reader.specs.Ranges.{IsFresh};
    ghost use Rattle.reader.specs.Widths.{width_of};
    ghost use Rattle.reader.specs.Inputs.{outcome, Tells, Reads, Spells, Opens};

    pub(crate) fn new(src: &'a [u8]) -> Input<'a>
        ensures src { result.src.now ≡ src.now }
        ensures at { result.at ≡ 0 }
    {
        Input {
            src,
            at: 0,
            left: 0,
        }
    }

    // The fault of what stands here.
    pub(crate) fn fault(&self) -> ReadError
        ensures { result ≡ NotEncoded self.now.at }
    {
        ReadError::NotEncoded { at: self.at }
    }

    // The fault of a value from `start` to here: it begins after its code, or at it where nothing follows.
    pub(crate) fn fault_from(&self, start: usize) -> ReadError
        ensures { result ≡ NotEncoded (value_place start self.now.at) }
    {
        let last = self.at.saturating_sub(1);
        ReadError::NotEncoded {
            at: start.saturating_add(1).min(last),
        }
    }

    // The next byte, which is not passed.
    pub(crate) fn peek(&self) -> Result<u8, ReadError>
        ensures { outcome result (λ b. b) ≡ peek_at self.now.src.now self.now.at }
    {
        self.src.get(self.at).copied().ok_or(self.fault())
    }

    pub(crate) fn next(&mut self) -> Result<u8, ReadError>
        ensures { Reads next_at self.old self.new result }
    {
        let byte = self.peek()?;
        self.at += 1;
        Ok(byte)
    }

    // This byte, and nothing else.
    pub(crate) fn byte(&mut self, expected: u8) -> Result<(), ReadError>
        ensures { Tells self.old self.new result (λ _. self.new.at) (byte_at expected self.old.src.now self.old.at) }
    {
        let fault = self.fault();
        if self.next()? == expected {
            Ok(())
        } else {
            Err(fault)
        }
    }

    pub(crate) fn take(&mut self, n: usize) -> Result<&'a [u8], ReadError>
        ensures { Tells self.old self.new result (λ s. (s.now, self.new.at)) (taken_at n self.old.src.now self.old.at) }
    {
        if self.src.len() - self.at < n {
            return Err(ReadError::NotEncoded { at: self.src.len() });
        }
        let start = self.at;
        self.at += n;
        Ok(&self.src[start..self.at])
    }

    // The number of the next bytes, as many as `width` says, the highest first.
    pub(crate) fn number(&mut self, width: Width) -> Result<u64, ReadError>
        ensures read { Reads (whole_at (width_of width)) self.old self.new result }
        ensures fits { IfOk result (λ x. x < 256 ^ width_of width) }
    {
        let mut x = 0;
        for byte in self.take(width.bytes())? {
            x = x * 256 + u64::from(*byte);
        }
        Ok(x)
    }

    // The same, and not below `least`: a smaller number has a shorter code.
    pub(crate) fn number_from(&mut self, width: Width, least: u64) -> Result<u64, ReadError>
        ensures read { Reads (from_at (width_of width) least) self.old self.new result }
        ensures fits { IfOk result (λ x. x < 256 ^ width_of width) }
    {
        let fault = self.fault();
        let x = self.number(width)?;
        if x < least { Err(fault) } else { Ok(x) }
    }

    // A code, the number of the bytes, as wide as `width` says, and the bytes, at most `most`.
    pub(crate) fn sized(&mut self, code: u8, width: Width, most: u64) -> Result<&'a [u8], ReadError>
        ensures read { Spells (sized_at (width_of width) code most) self.old self.new result }
        ensures few { IfOk result (λ s. length s.now ≤ most) }
    {
        self.byte(code)?;
        let fault = self.fault();
        let n = self.number(width)?;
        if n > most {
            Err(fault)
        } else {
            self.take(n as usize)
        }
    }

    // The number of the fields of a list, as wide as `width` says, and one of `fields`: they begin here.
    pub(crate) fn count(
        &mut self,
        width: Width,
        fields: RangeInclusive<u8>,
    ) -> Result<(), ReadError>
        requires { IsFresh fields }
        ensures { Opens (count_of (width_of width) (range_inclusive_start fields) (range_inclusive_end fields)) self.old self.new result }
    {
        let fault = self.fault();
        // Counts are matched with guards (docs/DECISIONS.md, Forms).
        match u8::try_from(self.number(width)?) {
            Ok(count) if fields.contains(&count) => {
                self.left = count;
                Ok(())
            }
            _ => Err(fault),
        }
    }

    // A code alone, for a list with no fields, if it may have none.
    pub(crate) fn empty(&mut self, least: u8) -> Result<(), ReadError>
        requires { self.old.at < length self.old.src.now }
        ensures { Opens (none_of least) self.old self.new result }
    {
        if least > 0 {
            return Err(self.fault());
        }
        self.at += 1;
        self.left = 0;
        Ok(())
    }
}
