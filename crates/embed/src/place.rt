// Where a place lies in a message.
ghost use Rattle.std.specs.Prelude.{◌≡◌};
ghost use Rattle.embed.specs.Exports.{place_answer};

use crate::answer::{Answer, NO_PLACE};
use amqp::state::Received;
use sections::split_off_at_section_and_offset;

// The position in the message that lies in a section, so many bytes past its first.
#[unsafe(no_mangle)]
pub extern "C" fn dabberblue_place(message: &[u8], section: u32, offset: u64) -> Answer
    ensures { result ≡ place_answer message.now section offset }
{
    let place = Received {
        section_number: section,
        section_offset: offset,
    };
    match split_off_at_section_and_offset(message, &place) {
        Some(i) => Answer::done(i),
        None => Answer::refused(NO_PLACE, 0),
    }
}
