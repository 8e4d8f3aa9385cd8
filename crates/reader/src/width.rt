// How many bytes a number takes.
ghost use Rattle.std.specs.Prelude.{◌≡◌, ◌≤◌};
ghost use Rattle.reader.specs.Widths.{width_of};

#[derive(Clone, Copy)]
pub(crate) enum Width {
    One = 1,
    Four = 4,
    Eight = 8,
}

impl Width {
    pub(crate) fn bytes(self) -> usize
        ensures value { result ≡ width_of self }
        ensures most { result ≤ 8 }
    {
        self as usize
    }
}
