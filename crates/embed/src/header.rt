// A transfer's header: its size, its bytes, and reading it.
ghost use Rattle.std.specs.Prelude.{◌≡◌};
ghost use Rattle.embed.specs.Forms.{header_in};
ghost use Rattle.embed.specs.Exports.{size_answer, write_answer, write_after, read_answer, read_after};

use crate::answer::{Answer, NO_TRANSFER};
use crate::form::Form;
use crate::transfer::{CTransfer, c_transfer, transfer_of};
use amqp::header::{Header, Transfer};
use codec::error::ReadError;

// The header that is meant, and its form, if there are such.
fn header_in(form: u8, transfer: &CTransfer) -> Option<(Form, Header)>
    ensures { result ≡ header_in form transfer.now }
{
    let form = Form::from_number(form)?;
    Some((form, Header::Transfer(transfer_of(transfer)?)))
}

// How many bytes the header has.
#[unsafe(no_mangle)]
pub extern "C" fn dabberblue_transfer_size(form: u8, transfer: &CTransfer) -> Answer
    ensures { result ≡ size_answer (header_in form transfer.now) }
{
    match header_in(form, transfer) {
        Some((form, header)) => Answer::done(form.size(&header)),
        None => Answer::refused(NO_TRANSFER, 0),
    }
}

// Writes the header to the front of `out`: how many bytes it has, or how many it needs where there are fewer.
#[unsafe(no_mangle)]
pub extern "C" fn dabberblue_transfer_write(
    form: u8,
    transfer: &CTransfer,
    out: &mut [u8],
) -> Answer
    ensures answer { result ≡ write_answer (header_in form transfer.now) out.old }
    ensures after { out.new ≡ write_after (header_in form transfer.now) out.old }
{
    let Some((form, header)) = header_in(form, transfer) else {
        return Answer::refused(NO_TRANSFER, 0);
    };
    match form.write(&header, out) {
        Ok(size) => Answer::done(size),
        Err(e) => Answer::refused(u32::from(e.number()), form.size(&header)),
    }
}

// The transfer whose header these bytes are. Where they are none, the answer has the place of the first fault, and
// `transfer` stays as it is; so it does where they are a disposition's.
#[unsafe(no_mangle)]
pub extern "C" fn dabberblue_transfer_read(
    form: u8,
    bytes: &[u8],
    transfer: &mut CTransfer,
) -> Answer
    ensures answer { result ≡ read_answer form bytes.now }
    ensures after { transfer.new ≡ read_after form bytes.now transfer.old }
{
    let Some(form) = Form::from_number(form) else {
        return Answer::refused(NO_TRANSFER, 0);
    };
    match form.read(bytes) {
        Ok(Header::Transfer(found)) => {
            *transfer = c_transfer(&found);
            Answer::done(bytes.len())
        }
        Ok(Header::Disposition(_)) => Answer::refused(NO_TRANSFER, 0),
        Err(ReadError::NotEncoded { at }) => Answer::refused(18, at),
    }
}
