// The lines of a scenario, one after the other in the same memory.
ghost use Rattle.std.specs.Prelude.{◌≡◌, ◌+◌, ◌≤◌, [], true, false, min, vec_len, vec_items, Ok, OnOk, IfOk, IfSome, IsUtf8, MatchResult};
ghost use Rattle.std.specs.Io.BufRead.{take_through, DropsThrough};
ghost use Rattle.scenario_play.specs.Inputs.{says_nothing, Advances};
ghost use Rattle.scenario_play.specs.declared.trouble.Trouble.TheVariants.{NoText};

use crate::limited::Limited;
use crate::trouble::Trouble;
use std::alloc::Global;
use std::io::BufRead;
use std::str;

// A pool of 70,000,000 bytes in digits, and 1,024 bytes more for its word and blanks: no command is longer.
const LONGEST: usize = 140_001_024;

#[derive(Drop)]
pub struct Lines<R: Drop> {
    input: Limited<R>,
    line: Vec<u8>,
    number: u64,
}

impl<R: BufRead + Drop> Lines<R> {
    pub fn new(heap: Global, input: R) -> Lines<R>
        ensures number { result.number ≡ 0 }
        ensures input { result.input.reader ≡ input }
    {
        Lines {
            input: Limited::new(input),
            line: Vec::new(heap),
            number: 0,
        }
    }

    // How many lines were begun.
    pub fn number(&self) -> u64
        ensures { result ≡ self.now.number }
    {
        self.number
    }

    // Whether there was another line, which stands in the memory then.
    fn read(&mut self) -> Result<bool, Trouble>
        ensures number { self.new.number ≡ min (self.old.number + 1) 18446744073709551615 }
        ensures bound { OnOk result (vec_len self.new.line ≤ 140001024) }
        ensures line { OnOk result (IfSome (R.remaining self.old.input.reader) (λ xs. vec_items self.new.line ≡ take_through 10 xs)) }
        ensures rest { OnOk result (DropsThrough (R.remaining self.old.input.reader) (R.remaining self.new.input.reader) 10) }
        ensures over { result ≡ Ok false → vec_items self.new.line ≡ [] }
    {
        self.line.clear();
        self.number = self.number.saturating_add(1);
        self.input.allow(LONGEST + 1);
        let read = self.input.read_until(b'\n', &mut self.line);
        if self.line.len() > LONGEST {
            return Err(Trouble::TooLong);
        }
        Ok(read? > 0)
    }

    // It is blank, or a comment.
    fn is_passed_over(&self) -> bool
        ensures { result ≡ says_nothing (vec_items self.now.line) }
    {
        match self.line.trim_ascii_start().first() {
            Some(first) => *first == b'#',
            None => true,
        }
    }

    // Whether there is another line that is neither blank nor a comment, which is read then.
    #[tactic(auto, using(crate::proofs::Telling::same_at_first))]
    pub fn advance(&mut self) -> Result<bool, Trouble>
        ensures bound { OnOk result (vec_len self.new.line ≤ 140001024) }
        ensures told { result ≡ Ok true → says_nothing (vec_items self.new.line) ≡ false }
        ensures next { IfOk result (λ more. Advances more (vec_items self.new.line) (R.remaining self.old.input.reader) (R.remaining self.new.input.reader)) }
    {
        for _ in 0..u64::MAX {
            if !self.read()? {
                return Ok(false);
            }
            if !self.is_passed_over() {
                return Ok(true);
            }
        }
        Err(Trouble::TooLong)
    }

    // The line, which has to be text.
    pub fn text(&self) -> Result<&str, Trouble>
        ensures { MatchResult result (λ t. t.now ≡ vec_items self.now.line) (λ e. (e ≡ NoText) × ¬ (IsUtf8 (vec_items self.now.line))) }
    {
        match str::from_utf8(self.line.as_slice()) {
            Ok(text) => Ok(text),
            Err(_) => Err(Trouble::NoText),
        }
    }
}
