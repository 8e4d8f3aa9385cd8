// Numbers in decimal digits.
ghost use Rattle.shipping.specs.Numbers.{Reads};

// The number of a text that is digits and nothing else, where it fits. `parse` alone would take a sign too.
pub fn read_u32(text: &str) -> Option<u32>
    ensures { Reads text.now result }
{
    if text.starts_with('+') {
        return None;
    }
    text.parse().ok()
}
