// What reading a header refuses, by its number.
ghost use Rattle.std.specs.Prelude.{◌≡◌};
ghost use Rattle.codec.specs.Refusals.{read_number};

#[derive(Clone, Copy, PartialEq, Eq)]
pub enum ReadError {
    // The bytes are no header's: `at` is the place of the first fault, from 0.
    NotEncoded { at: usize },
}

impl ReadError {
    // By a match, since a case that carries a value has no discriminant.
    pub fn number(self) -> u8
        ensures { result ≡ read_number self }
    {
        match self {
            ReadError::NotEncoded { at: _ } => 18,
        }
    }
}
