// What an export answers.
ghost use Rattle.std.specs.Prelude.{◌≡◌};
ghost use Rattle.embed.specs.Answers.{done, refused};

// Refusals that the library has no number for, past all of its own.
pub(crate) const NO_TRANSFER: u32 = 64;

pub(crate) const NO_PLACE: u32 = 65;

#[repr(C)]
#[derive(Clone, Copy)]
pub struct Answer {
    // 0, or a refusal's number.
    pub status: u32,
    // What was asked for, or what goes with the refusal, or 0.
    pub value: usize,
}

impl Answer {
    pub(crate) fn done(value: usize) -> Answer
        ensures { result ≡ done value }
    {
        Answer { status: 0, value }
    }

    pub(crate) fn refused(status: u32, value: usize) -> Answer
        ensures { result ≡ refused status value }
    {
        Answer { status, value }
    }
}
