// The codes of the described lists that a header may hold (Part 2, 2.7.5, 2.7.6 and 2.8.14; Part 3, 3.4).
ghost use Rattle.std.specs.Prelude.{◌≡◌};
ghost use Rattle.codec.specs.Descriptors.{descriptor_code};

#[derive(Clone, Copy)]
pub(crate) enum Descriptor {
    Transfer = 0x14,
    Disposition = 0x15,
    Error = 0x1d,
    Received = 0x23,
    Accepted = 0x24,
    Rejected = 0x25,
    Released = 0x26,
    Modified = 0x27,
}

impl Descriptor {
    pub(crate) fn code(self) -> u64
        ensures { result ≡ descriptor_code self }
    {
        self as u64
    }
}
