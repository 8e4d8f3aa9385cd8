// A message of one data section (Part 3, 3.2.6).
ghost use Rattle.std.specs.Prelude.{◌≡◌, ◌^◌, ◌<◌, ◌≤◌, length, IfOk, MatchResult};
ghost use Rattle.shipping.specs.declared.message.MessageError.TheVariants.{NoMemory};
ghost use Rattle.shipping.specs.Sections.{section_head, data_section, Unwritten};

use std::alloc::{AllocError, Global};

#[derive(Clone, Copy, Debug, PartialEq, Eq)]
pub enum MessageError {
    NoMemory,
    // No binary has so many bytes: its length is written in four.
    TooLong,
}

impl From<AllocError> for MessageError {
    ghost from_gives = { λ _ r. r ≡ NoMemory };

    fn from(_e: AllocError) -> MessageError {
        MessageError::NoMemory
    }
}

// What stands before the bytes: the section's descriptor, and a binary's code with its length (Part 1, 1.6.19).
fn head(heap: Global, len: u32) -> Result<Vec<u8>, AllocError>
    ensures { IfOk result (λ v. v.items ≡ section_head len) }
{
    match u8::try_from(len) {
        Ok(short) => Vec::from_slice(heap, &[0x00, 0x53, 0x75, 0xa0, short]),
        Err(_) => {
            let [a, b, c, d] = len.to_be_bytes();
            Vec::from_slice(heap, &[0x00, 0x53, 0x75, 0xb0, a, b, c, d])
        }
    }
}

// A message whose only section holds these bytes.
pub fn data_section(heap: Global, bytes: &[u8]) -> Result<Vec<u8>, MessageError>
    ensures { MatchResult result (λ v. v.items ≡ data_section bytes.now) (λ e. Unwritten bytes.now e) }
{
    let len = u32::try_from(bytes.len()).map_err(|_| MessageError::TooLong)?;
    let mut section = head(heap, len)?;
    section.extend_from_slice(bytes)?;
    Ok(section)
}
