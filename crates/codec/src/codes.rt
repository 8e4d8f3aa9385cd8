// The codes of unsigned numbers (Part 1, 1.6.5 and 1.6.6).

// By the size of the number: the code of 0, the code before one byte, and the code before all bytes.
#[derive(Clone, Copy)]
pub struct Codes {
    pub none: u8,
    pub small: u8,
    pub wide: u8,
}

pub const UINT: Codes = Codes {
    none: 0x43,
    small: 0x52,
    wide: 0x70,
};

pub const ULONG: Codes = Codes {
    none: 0x44,
    small: 0x53,
    wide: 0x80,
};
