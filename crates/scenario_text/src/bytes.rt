// Bytes in digits, and a dash for no bytes.
ghost use Rattle.std.specs.Prelude.{◌≡◌, ℕ, List};
ghost use Rattle.scenario_text.specs.Bytes.{ReadsBytes};

use headers_text::hex::{HexFault, decode};
use std::alloc::Global;

pub fn read_bytes(text: &str, heap: Global) -> Result<Vec<u8>, HexFault>
    ensures { ReadsBytes text.now result }
{
    let mut bytes = Vec::new(heap);
    if text == "-" {
        return Ok(bytes);
    }
    if text.is_empty() {
        return Err(HexFault::NoDigit);
    }
    decode(text.as_bytes(), &mut bytes)?;
    Ok(bytes)
}
