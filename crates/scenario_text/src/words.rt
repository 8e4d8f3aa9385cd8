// The words of a line, in their order, separated by blanks.
ghost use Rattle.std.specs.Prelude.{◌≡◌, ℕ, List, [], ◌∷◌, ◌++◌, MatchOption, MatchResult};
ghost use Rattle.scenario_text.specs.Words.{keyed};

use crate::fault::Fault;
use std::str::SplitAsciiWhitespace;

#[derive(Drop)]
pub(crate) struct Words<'l> {
    rest: SplitAsciiWhitespace<'l>,
}

impl<'l> Words<'l> {
    ghost use Rattle.scenario_text.specs.Words.{words, left};

    pub(crate) fn new(line: &'l str) -> Words<'l>
        ensures { left result ≡ words line.now }
    {
        Words {
            rest: line.split_ascii_whitespace(),
        }
    }

    pub(crate) fn next(&mut self) -> Option<&'l str>
        ensures { MatchOption result ((left self.old ≡ []) × (left self.new ≡ [])) (λ w. left self.old ≡ w.now ∷ left self.new) }
    {
        self.rest.next()
    }

    // A word without a key, and what it is.
    pub(crate) fn word(&mut self, what: &'static str) -> Result<&'l str, Fault>
        ensures { MatchResult result (λ w. left self.old ≡ w.now ∷ left self.new) (λ f. left self.old ≡ []) }
    {
        self.next().ok_or(Fault::Missing(what))
    }

    // What stands after the key and an equals sign.
    pub(crate) fn value(&mut self, key: &'static str) -> Result<&'l str, Fault>
        ensures { MatchResult result (λ v. left self.old ≡ keyed key.now v.now ∷ left self.new) (λ f. (v : List ℕ) (rest : List (List ℕ)) → left self.old ≡ keyed key.now v ∷ rest → ⊥) }
    {
        let word = self.word(key)?;
        value_of(word, key).ok_or(Fault::OtherKey(key))
    }

    pub(crate) fn end(&mut self) -> Result<(), Fault>
        ensures { MatchResult result (λ _. left self.old ≡ []) (λ f. left self.old ≡ [] → ⊥) }
    {
        match self.next() {
            None => Ok(()),
            Some(_) => Err(Fault::WordTooMany),
        }
    }
}

pub(crate) fn value_of<'l>(word: &'l str, key: &str) -> Option<&'l str>
    ensures { MatchOption result ((v : List ℕ) → word.now ≡ keyed key.now v → ⊥) (λ v. word.now ≡ keyed key.now v.now) }
{
    word.strip_prefix(key)?.strip_prefix('=')
}
