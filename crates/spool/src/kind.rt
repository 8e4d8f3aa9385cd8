// The numbers by which records tell the kinds of frames.
ghost use Rattle.std.specs.Prelude.{◌≡◌};
ghost use Rattle.spool.specs.Records.{code_of};
ghost use Rattle.spool.specs.Reading.{kind_of};

use amqp::header::FrameKind;

pub fn code_of(kind: FrameKind) -> u16
    ensures { result ≡ code_of kind }
{
    match kind {
        FrameKind::First => 1,
        FrameKind::Continuation => 2,
        FrameKind::Disposition => 3,
    }
}

pub(crate) fn kind_of(code: u16) -> Option<FrameKind>
    ensures { result ≡ kind_of code }
{
    match code {
        1 => Some(FrameKind::First),
        2 => Some(FrameKind::Continuation),
        3 => Some(FrameKind::Disposition),
        _ => None,
    }
}
