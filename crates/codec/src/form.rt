// A form of encoding: what differs from encoder to encoder (Part 1, 1.6).
ghost use Rattle.std.specs.Prelude.{◌≡◌, ◌<◌};
ghost use Rattle.codec.specs.Form.{Form as FormModel};
ghost use Rattle.codec.specs.Laws.{Lawful};
ghost use Rattle.codec.specs.Bodies.{HasRoom, Appended};

use crate::scratch::Scratch;

pub(crate) trait Form {
    ghost form: { FormModel };

    // Whether what may be left out is left out: absent fields at the end, and booleans that are
    // false where they are absent.
    fn terse() -> bool
        ensures { result ≡ form.terse };

    // One method for each of AMQP's types: a shared one would take the type as a number.
    fn boolean(out: &mut Scratch, x: bool)
        requires { HasRoom 2 out.old }
        ensures { Appended 2 (form.booleans x) out.old out.new };

    fn uint(out: &mut Scratch, x: u32)
        requires { HasRoom 5 out.old }
        ensures { Appended 5 (form.uints x) out.old out.new };

    fn ulong(out: &mut Scratch, x: u64)
        requires { HasRoom 9 out.old }
        ensures { Appended 9 (form.ulongs x) out.old out.new };

    // What comes before the bytes of a binary, and of a symbol.
    fn binary(out: &mut Scratch, len: u8)
        requires { HasRoom 5 out.old }
        ensures { Appended 5 (form.binaries len) out.old out.new };

    fn symbol(out: &mut Scratch, len: u8)
        requires { HasRoom 5 out.old }
        ensures { Appended 5 (form.symbols len) out.old out.new };

    // What comes before the fields of a list.
    fn list(out: &mut Scratch, count: u8, len: u8)
        requires room { HasRoom 9 out.old }
        requires short { len < 252 }
        ensures { Appended 9 (form.lists count len) out.old out.new };

    ghost lawful: { Lawful form };
}
