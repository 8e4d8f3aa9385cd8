// Bytes of a header as they are made, at most 256.
ghost use Rattle.std.specs.Prelude.{◌≡◌, ◌+◌, ◌∷◌, ◌++◌, length};
ghost use Rattle.arrayvec.specs.ArrayVec.{array_vec_len};
ghost use Rattle.codec.specs.Bodies.{HasRoom};
ghost use Rattle.codec.specs.Written.{written, after_write};

use amqp::error::MemoryError;
use arrayvec::ArrayVec;

pub(crate) type Scratch = ArrayVec<u8, 256>;

// Appends bytes that fit.
pub(crate) fn append(out: &mut Scratch, more: &[u8])
    requires { HasRoom (length more.now) out.old }
    ensures items { out.new.items ≡ out.old.items ++ more.now }
    ensures len { array_vec_len out.new ≡ array_vec_len out.old + length more.now }
{
    out.try_extend_from_slice(more).unwrap();
}

// Appends a code, and the bytes that belong to it.
pub(crate) fn append_coded(out: &mut Scratch, code: u8, more: &[u8])
    requires { HasRoom (length more.now + 1) out.old }
    ensures items { out.new.items ≡ out.old.items ++ code ∷ more.now }
    ensures len { array_vec_len out.new ≡ array_vec_len out.old + length more.now + 1 }
{
    out.push(code);
    append(out, more);
}

// Copies the bytes to the front of `out`, or refuses and changes nothing.
pub(crate) fn copy_to(bytes: &[u8], out: &mut [u8]) -> Result<usize, MemoryError>
    ensures answer { result ≡ written bytes.now out.old }
    ensures after { out.new ≡ after_write bytes.now out.old }
{
    if out.len() < bytes.len() {
        return Err(MemoryError::TooShort);
    }
    // Through an index range, and not through `get_mut`, of which a proof knows only the length.
    out[..bytes.len()].copy_from_slice(bytes);
    Ok(bytes.len())
}
