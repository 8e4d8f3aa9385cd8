// The fields of a list, read one by one.
ghost use Rattle.std.specs.Prelude.{◌≡◌, cond, true, false, Some, None, IfOk};
ghost use Rattle.reader.specs.Inputs.{cursor, Tells, Reads, Takes, Skips};
ghost use Rattle.reader.specs.Places.{Reader};
ghost use Rattle.reader.specs.Reading.{Reading};
ghost use Rattle.reader.specs.Fields.{must_at, absent_at, may_at, null_at, flag_at};

use crate::input::Input;
use crate::parse::Parse;
use codec::error::ReadError;

// What a field may be.
pub(crate) trait Item: Sized {
    // How it is read in each form.
    ghost reader: { Reading → Reader Self };

    fn read<P: Parse>(input: &mut Input<'_>) -> Result<Self, ReadError>
        ensures { Reads (reader P.Parse.reading) input.old input.new result };
}

// Each type has its own method of a form: one impl for all would need a trait that picks it, and is no shorter.
impl Item for u32 {
    ghost reader = { λ R. R.uint_at };

    fn read<P: Parse>(input: &mut Input<'_>) -> Result<u32, ReadError> {
        P::uint(input)
    }
}

impl Item for u64 {
    ghost reader = { λ R. R.ulong_at };

    fn read<P: Parse>(input: &mut Input<'_>) -> Result<u64, ReadError> {
        P::ulong(input)
    }
}

impl Item for bool {
    ghost reader = { λ R. R.bool_at };

    fn read<P: Parse>(input: &mut Input<'_>) -> Result<bool, ReadError> {
        P::boolean(input)
    }
}

impl Input<'_> {
    // A field that has to be there.
    #[tactic(auto, unfolding(crate::specs::Fields::must_at))]
    pub(crate) fn must<P: Parse, T: Item>(&mut self) -> Result<T, ReadError>
        ensures { Takes (must_at (T.Item.reader P.Parse.reading)) self.old self.new result }
    {
        let left = self.left.saturating_sub(1);
        let x = T::read::<P>(self)?;
        self.left = left;
        Ok(x)
    }

    // Whether the next field is absent, which is then passed: it is past the last, or a null, which a
    // terse form does not have in the last place.
    fn absent<P: Parse>(&mut self) -> Result<bool, ReadError>
        ensures value { Tells self.old self.new result (λ b. cond b (Some (cursor self.new)) None) (absent_at P.Parse.reading.form.terse self.old.src.now (cursor self.old)) }
        ensures stays { IfOk result (λ b. b ≡ false → cursor self.new ≡ cursor self.old) }
    {
        if self.left == 0 {
            return Ok(true);
        }
        if self.peek()? != 0x40 {
            return Ok(false);
        }
        if P::terse() && self.left == 1 {
            return Err(self.fault());
        }
        self.at += 1;
        self.left -= 1;
        Ok(true)
    }

    // A field that may be absent.
    #[tactic(auto, unfolding(crate::specs::Fields::may_at))]
    pub(crate) fn may<P: Parse, T: Item>(&mut self) -> Result<Option<T>, ReadError>
        ensures { Takes (may_at P.Parse.reading.form.terse (T.Item.reader P.Parse.reading)) self.old self.new result }
    {
        if self.absent::<P>()? {
            return Ok(None);
        }
        Ok(Some(self.must::<P, T>()?))
    }

    // A field that is always absent.
    #[tactic(auto, unfolding(crate::specs::Fields::null_at))]
    pub(crate) fn null<P: Parse>(&mut self) -> Result<(), ReadError>
        ensures { Skips (null_at P.Parse.reading.form.terse) self.old self.new result }
    {
        let fault = self.fault();
        if self.absent::<P>()? {
            Ok(())
        } else {
            Err(fault)
        }
    }

    // A boolean that is false where it is absent: a terse form has no false there.
    #[tactic(auto, unfolding(crate::specs::Fields::flag_at))]
    pub(crate) fn flag<P: Parse>(&mut self) -> Result<bool, ReadError>
        ensures { Takes (flag_at P.Parse.reading) self.old self.new result }
    {
        if !P::terse() {
            return self.must::<P, bool>();
        }
        let start = self.at;
        match self.may::<P, bool>()? {
            None => Ok(false),
            Some(true) => Ok(true),
            Some(false) => Err(self.fault_from(start)),
        }
    }
}
