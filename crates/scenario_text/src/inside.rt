ghost use Rattle.std.specs.Prelude.{◌≡◌, ℕ, List, MatchOption};
ghost use Rattle.scenario_text.specs.Reading.{closed};

// What stands between a head, which ends with a bracket, and the bracket that closes it.
pub(crate) fn inside<'l>(text: &'l str, head: &str) -> Option<&'l str>
    ensures { MatchOption result ((x : List ℕ) → text.now ≡ closed head.now x → ⊥) (λ x. text.now ≡ closed head.now x.now) }
{
    text.strip_prefix(head)?.strip_suffix(')')
}
