// Numbers in decimal digits, with no sign and no zero in front.
ghost use Rattle.std.specs.Prelude.{◌≡◌, ◌≤◌, ◌<◌, ◌^◌, IsTrue, ◌↔◌, decimal};
ghost use Rattle.headers_text.specs.Shows.{or_none};
ghost use Rattle.scenario_text.specs.Reading.{Reads};
ghost use Rattle.scenario_text.specs.Values.{HasPlainStart, IfThere};

// It has no sign, which `parse` takes too, and no zero in front.
fn has_plain_start(text: &str) -> bool
    ensures { IsTrue result ↔ HasPlainStart text.now }
{
    matches!(text.as_bytes(), [b'0'] | [b'1'..=b'9', ..])
}

// A number of at most so much.
pub fn read_number(text: &str, most: u64) -> Option<u64>
    ensures { Reads decimal (λ n. n ≤ most) text.now result }
{
    if !has_plain_start(text) {
        return None;
    }
    let n = text.parse::<u64>().ok()?;
    (n <= most).then_some(n)
}

pub fn read_u32(text: &str) -> Option<u32>
    ensures { Reads decimal (λ n. n < 2 ^ 32) text.now result }
{
    Some(read_number(text, u64::from(u32::MAX))? as u32)
}

pub(crate) fn read_optional_u32(text: &str) -> Option<Option<u32>>
    ensures { Reads (or_none decimal) (IfThere (λ n. n < 2 ^ 32)) text.now result }
{
    if text == "none" {
        return Some(None);
    }
    Some(Some(read_u32(text)?))
}
