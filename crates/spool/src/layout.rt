// How a record is laid out: its length, three fields, a header and a payload.

// The length, which counts the bytes past itself.
pub(crate) const LENGTH: usize = 4;

// Kind, handle and the header's length, which stand between the length and the header.
pub(crate) const FIELDS: usize = 8;

// The longest compact header.
pub(crate) const HEADER: usize = 255;

// The longest record, but for its payload.
pub(crate) const MOST: usize = LENGTH + FIELDS + HEADER;
