// A whole scenario played for other languages: its text goes in, and what each line answers comes out.
#![tactic(auto)]

ghost use Rattle.std.specs.Prelude.{◌≡◌, ◌≤◌, length};
ghost use Rattle.embed_scenario.specs.Played.{status_of, told, Status};

use scenario_play::files::NoFiles;
use scenario_play::play::play;
use scenario_play::trouble::{Failure, Trouble};
use std::alloc::Global;

// Why a run ended early.
const NO_ROOM: u32 = 20;

const NO_COMMAND: u32 = 66;

const NO_MEMORY: u32 = 67;

#[repr(C)]
#[derive(Clone, Copy)]
pub struct CPlayed {
    // 0, or why the run ended early.
    pub status: u32,
    // How many bytes of answers there are. They stand, whyever it ended.
    pub written: usize,
    // The line at which it ended early, or 0.
    pub line: u64,
}

fn status_of(trouble: &Trouble) -> u32
    ensures { result ≡ status_of trouble.now }
{
    match trouble {
        // The scenario is bytes in memory, so only the answers can fail.
        Trouble::Io(_) => NO_ROOM,
        Trouble::Memory => NO_MEMORY,
        _ => NO_COMMAND,
    }
}

fn told(played: Result<(), Failure>, written: usize) -> CPlayed
    ensures { result ≡ told played written }
{
    match played {
        Ok(()) => CPlayed {
            status: 0,
            written,
            line: 0,
        },
        Err(failure) => CPlayed {
            status: status_of(&failure.trouble),
            written,
            line: failure.line,
        },
    }
}

// Plays a scenario without files: a line of answer for each of its lines goes to the front of `out`.
#[unsafe(no_mangle)]
pub extern "C" fn dabberblue_play(heap: Global, scenario: &[u8], out: &mut [u8]) -> CPlayed
    ensures within { result.written ≤ length out.old }
    ensures size { length out.new ≡ length out.old }
    ensures status { Status result }
{
    let room = out.len();
    let mut rest = out;
    let played = play(heap, scenario, &NoFiles, &mut rest);
    let written = room.saturating_sub(rest.len());
    told(played, written)
}
