// Headers: described lists of their fields (Part 2, 2.7.5 and 2.7.6).
ghost use Rattle.std.specs.Prelude.{◌≡◌, []};
ghost use Rattle.amqp.specs.declared.header.Header.TheVariants as header;
ghost use Rattle.codec.specs.Values.{header_value};
ghost use Rattle.codec.specs.Bodies.{Encodes};
ghost use Rattle.codec.specs.Headers.{header_bytes, MeansIn};
ghost use Rattle.codec.specs.Meaning.{Ranged};
ghost use Rattle.codec.specs.Written.{written, after_write};
ghost use Rattle.codec.specs.Longer;

use crate::body::Body;
use crate::descriptor::Descriptor;
use crate::encoder::Encoder;
use crate::field::{Absent, Field, Flag};
use crate::form::Form;
use crate::scratch::{Scratch, copy_to};
use amqp::error::MemoryError;
use amqp::header::{Disposition, Header, Transfer};

fn transfer<F: Form>(h: &Transfer, list: &mut Scratch)
    requires { list.old.items ≡ [] }
    ensures { Encodes F.Form.form 155 (header_value F.Form.form.terse (header.Transfer h.now)) list.new }
{
    let mut body = Body::<F>::new();
    h.handle.append_to(&mut body);
    h.delivery_id.append_to(&mut body);
    h.delivery_tag.append_to(&mut body);
    h.message_format.append_to(&mut body);
    h.settled.append_to(&mut body);
    Flag(h.more).append_to(&mut body);
    // The receiver's settle mode.
    Absent.append_to(&mut body);
    h.state.append_to(&mut body);
    Flag(h.resume).append_to(&mut body);
    Flag(h.aborted).append_to(&mut body);
    Flag(h.batchable).append_to(&mut body);
    body.close(Descriptor::Transfer, list);
}

fn disposition<F: Form>(h: &Disposition, list: &mut Scratch)
    requires { list.old.items ≡ [] }
    ensures { Encodes F.Form.form 155 (header_value F.Form.form.terse (header.Disposition h.now)) list.new }
{
    let mut body = Body::<F>::new();
    // The role: a sender's is false.
    false.append_to(&mut body);
    h.first.append_to(&mut body);
    // The last id.
    Absent.append_to(&mut body);
    Flag(h.settled).append_to(&mut body);
    h.state.append_to(&mut body);
    Flag(h.batchable).append_to(&mut body);
    body.close(Descriptor::Disposition, list);
}

fn encode<F: Form>(header: &Header, list: &mut Scratch)
    requires { list.old.items ≡ [] }
    ensures { Encodes F.Form.form 155 (header_value F.Form.form.terse header.now) list.new }
{
    match header {
        Header::Transfer(h) => transfer::<F>(h, list),
        Header::Disposition(h) => disposition::<F>(h, list),
    }
}

// Each form is an encoder.
impl<F: Form> Encoder for F {
    ghost bytes = { λ _ h. header_bytes F.form h };

    ghost widest = { λ _ h. Longer.widest F.form F.lawful.sizes h };

    fn size(&self, header: &Header) -> usize {
        let mut list = Scratch::new();
        encode::<F>(header, &mut list);
        list.len()
    }

    fn write(&self, header: &Header, out: &mut [u8]) -> Result<usize, MemoryError>
        ensures answer { result ≡ written (header_bytes F.form header.now) out.old }
        ensures after { out.new ≡ after_write (header_bytes F.form header.now) out.old }
        ensures meaning { MeansIn F.form.terse (header_bytes F.form header.now) header.now }
        ensures ranged { Ranged (header_value F.form.terse header.now) }
    {
        let mut list = Scratch::new();
        encode::<F>(header, &mut list);
        copy_to(list.as_slice(), out)
    }
}
