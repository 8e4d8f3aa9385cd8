// The fields of a list, met one by one: absent ones wait, since a terse form leaves out those at the end.
ghost use Rattle.std.specs.Prelude.{◌≡◌, ◌+◌, ◌<◌, ◌≤◌, []};
ghost use Rattle.arrayvec.specs.ArrayVec.{array_vec_len};
ghost use Rattle.codec.specs.Bodies.{met, none_met, skipped, with_nulls, begun, ended, closed, Empty, Room, Grew};
ghost use Rattle.codec.specs.Descriptors.{descriptor_code};

use crate::descriptor::Descriptor;
use crate::form::Form;
use crate::scratch::{Scratch, append};
use std::marker::PhantomData;

const NULLS: [u8; 16] = [0x40; 16];

// It has no model: clauses need its counts besides what it means, which is `met`.
#[derive(Drop)]
pub(crate) struct Body<F> {
    // The fields up to the last that is present, and how many they are.
    pub(crate) bytes: Scratch,
    count: u8,
    // How many absent ones follow.
    gap: u8,
    form: PhantomData<F>,
}

impl<F: Form> Body<F> {
    pub(crate) fn new() -> Body<F>
        ensures made { met result ≡ none_met }
        ensures empty { Empty result }
    {
        Body {
            bytes: Scratch::new(),
            count: 0,
            gap: 0,
            form: PhantomData,
        }
    }

    pub(crate) fn skip(&mut self)
        requires { Room 1 self.old }
        ensures made { met self.new ≡ skipped (met self.old) }
        ensures grew { Grew 1 self.old self.new }
    {
        self.gap += 1;
    }

    // Writes the absent fields that wait as nulls.
    fn write_nulls(&mut self)
        requires { Room 0 self.old }
        ensures made { met self.new ≡ with_nulls (met self.old) }
        ensures len { array_vec_len self.new.bytes ≡ array_vec_len self.old.bytes + self.old.gap }
    {
        let gap = usize::from(self.gap);
        append(&mut self.bytes, &NULLS[..gap]);
        self.count += self.gap;
        self.gap = 0;
    }

    // Counts one more field that is present: its bytes are to follow.
    pub(crate) fn begin(&mut self)
        requires { Room 0 self.old }
        ensures made { met self.new ≡ begun (met self.old) }
        ensures len { array_vec_len self.new.bytes ≡ array_vec_len self.old.bytes + self.old.gap }
    {
        self.write_nulls();
        self.count += 1;
    }

    // Leaves out the absent fields at the end, or writes them.
    fn end(&mut self)
        requires { Room 0 self.old }
        ensures made { met self.new ≡ ended F.Form.form (met self.old) }
        ensures len { array_vec_len self.new.bytes ≤ array_vec_len self.old.bytes + self.old.gap }
    {
        if !F::terse() {
            self.write_nulls();
        }
    }

    // The list of these fields, described: 0x00, the descriptor and the list (Part 1, 1.2). It is written to memory of the caller's,
    // since a value of 256 bytes that is handed back is copied.
    pub(crate) fn close(&mut self, descriptor: Descriptor, list: &mut Scratch)
        requires few { self.old.count + self.old.gap < 16 }
        requires len { array_vec_len self.old.bytes + self.old.gap ≤ 230 }
        requires empty { list.old.items ≡ [] }
        ensures made { list.new.items ≡ closed F.Form.form (descriptor_code descriptor) (met self.old) }
        ensures len { array_vec_len list.new ≤ array_vec_len self.old.bytes + self.old.gap + 19 }
    {
        self.end();
        let fields = self.bytes.as_slice();
        list.push(0x00);
        F::ulong(list, descriptor.code());
        F::list(list, self.count, fields.len() as u8);
        append(list, fields);
    }
}
