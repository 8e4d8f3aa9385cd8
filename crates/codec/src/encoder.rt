// What an encoder is, and how a transfer is measured by one.
ghost use Rattle.std.specs.Prelude.{◌≡◌, ℕ, List, length};
ghost use Rattle.amqp.specs.declared.header.Header.{Header as HeaderModel};
ghost use Rattle.amqp.specs.declared.header.Transfer.{Transfer as TransferModel};
ghost use Rattle.amqp.specs.Headers.{with_id_more, measured, Widest};
ghost use Rattle.codec.specs.Written.{written, after_write};

use amqp::error::MemoryError;
use amqp::header::{Header, Transfer};

pub trait Encoder {
    // The bytes of a header.
    ghost bytes: { Self → HeaderModel → List ℕ };

    fn size(&self, header: &Header) -> usize
        ensures { result ≡ length (bytes self.now header.now) };

    // Writes the header to the front of `out`, and answers its size.
    fn write(&self, header: &Header, out: &mut [u8]) -> Result<usize, MemoryError>
        ensures answer { result ≡ written (bytes self.now header.now) out.old }
        ensures after { out.new ≡ after_write (bytes self.now header.now) out.old };

    // No frame of a delivery has a longer header than its transfer as it is measured.
    ghost widest: { (e : Self) (h : TransferModel) → Widest (bytes e) h };
}

// Holds a transfer while it is measured, and puts its own id and `more` back on every way out.
// Measured in place and not as a copy: its own values are to be put back (docs/DECISIONS.md, Forms).
struct Widened<'a> {
    transfer: &'a mut Transfer,
    delivery_id: Option<u32>,
    more: bool,
}

impl Drop for Widened<'_> {
    fn drop(self)
        ensures { self.exit.0.now ≡ with_id_more self.entry.transfer.now self.entry.delivery_id self.entry.more }
    {
        self.transfer.delivery_id = self.delivery_id;
        self.transfer.more = self.more;
        let Widened {
            transfer: _,
            delivery_id: _,
            more: _,
        } = self;
    }
}

// The size of the transfer with the widest delivery id, and `more` set.
pub fn measure<E: Encoder>(transfer: &mut Transfer, encoder: &E) -> usize
    ensures size { result ≡ measured (E.bytes encoder.now) transfer.old }
    ensures kept { transfer.new ≡ transfer.old }
{
    let delivery_id = transfer.delivery_id;
    let more = transfer.more;
    let guard = Widened {
        transfer,
        delivery_id,
        more,
    };
    guard.transfer.delivery_id = Some(u32::MAX);
    guard.transfer.more = true;
    encoder.size(&Header::Transfer(*guard.transfer))
}
