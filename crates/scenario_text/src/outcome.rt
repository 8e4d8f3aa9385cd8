// How deliveries end, read. The printing is the `Display` of `Outcome`.
ghost use Rattle.std.specs.Prelude.{◌≡◌, codes};
ghost use Rattle.link.specs.Texts.{outcome_text};
ghost use Rattle.scenario_text.specs.Reading.{Reads};
ghost use Rattle.scenario_text.specs.Values.{IsOutcome};

use crate::condition::read_error;
use crate::state::read_state;
use link::delivery::Outcome;

pub fn read_outcome(text: &str) -> Option<Outcome>
    ensures { Reads outcome_text IsOutcome text.now result }
{
    match text {
        "none" => Some(Outcome::NoState),
        "RemoteClosed" => Some(Outcome::RemoteClosed),
        _ => read_outcome_with_value(text),
    }
}

fn read_outcome_with_value(text: &str) -> Option<Outcome>
    ensures { (text.now ≡ codes "none" → ⊥) → (text.now ≡ codes "RemoteClosed" → ⊥) → Reads outcome_text IsOutcome text.now result }
{
    if let Some(error) = text.strip_prefix("RemoteClosedWithError ") {
        return Some(Outcome::RemoteClosedWithError(read_error(error)?));
    }
    Some(Outcome::State(read_state(text)?))
}
