// Bytes as pairs of lower-case hexadecimal digits.
ghost use Rattle.std.specs.Prelude.{◌≡◌, ℕ, ◌+◌, ◌-◌, ◌*◌, ◌/◌, ◌%◌, ◌<◌, ◌≤◌, ◌↔◌, ◌++◌, length, ◌⊎◌, MatchOption, IsErrOf, vec_len, vec_capacity};
ghost use Rattle.headers_text.specs.Hex.{glyph, pairs, Digit, Pair, Decoded};
ghost use Rattle.headers_text.specs.declared.hex.HexFault.TheVariants.{Odd, Memory};

use std::alloc::AllocFailed;

// The value of one digit. The kit's crate `hex` reads upper case too, which here no digit is.
fn digit(b: u8) -> Option<u8>
    ensures { MatchOption result (Digit b → ⊥) (λ d. (d < 16) × (b ≡ glyph d)) }
{
    match b {
        b'0'..=b'9' => Some(b - b'0'),
        b'a'..=b'f' => Some(b - b'a' + 10),
        _ => None,
    }
}

fn pair(high: u8, low: u8) -> Option<u8>
    ensures { MatchOption result ((Digit high → ⊥) ⊎ (Digit low → ⊥)) (λ v. Pair high low v) }
{
    Some(digit(high)? * 16 + digit(low)?)
}

#[derive(Clone, Copy, PartialEq, Eq)]
pub enum HexFault {
    Odd,
    NoDigit,
    Memory,
}

impl<T: Drop> From<AllocFailed<T>> for HexFault {
    ghost from_gives = { λ _ e. e ≡ Memory };

    fn from(_e: AllocFailed<T>) -> HexFault {
        HexFault::Memory
    }
}

// Adds the bytes that the digits write.
pub fn decode(text: &[u8], into: &mut Vec<u8>) -> Result<(), HexFault>
    ensures added { Decoded result text.now into.old.items into.new.items }
    ensures odd { IsErrOf result Odd ↔ (length text.now % 2 ≡ 1) }
    ensures memory { IsErrOf result Memory → vec_capacity into.old < vec_len into.old + length text.now / 2 }
{
    let (digits, odd) = text.as_chunks::<2>();
    if !odd.is_empty() {
        return Err(HexFault::Odd);
    }
    for [high, low] in digits {
        into.push(pair(*high, *low).ok_or(HexFault::NoDigit)?)?;
    }
    Ok(())
}
