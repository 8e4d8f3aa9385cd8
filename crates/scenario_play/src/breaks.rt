// A scenario played once for each of its steps, with a break there.
ghost use Rattle.std.specs.Prelude.{◌≡◌, ◌≤◌, None, Some, IfOk};
ghost use Rattle.scenario_play.specs.Breaks.{breaks_text};
ghost use Rattle.scenario_play.specs.Courses.{PlaysIn};
ghost use Rattle.scenario_play.specs.Inputs.{told_lines};

use crate::files::Files;
use crate::play::Course;
use crate::trouble::Failure;
use std::alloc::Global;
use std::{fmt, io};

// How many places there were to break, and at how many a ticket was lost.
#[derive(Clone, Copy, Debug, PartialEq, Eq, Default)]
pub struct Breaks {
    pub places: u64,
    pub lost: u64,
}

impl fmt::Display for Breaks {
    ghost output = { λ b. Some (breaks_text b) };

    fn fmt<W: fmt::Write>(&self, f: &mut fmt::Formatter<W>) -> fmt::Result {
        let places = self.places;
        let lost = self.lost;
        let kept = places.saturating_sub(lost);
        write!(
            f,
            "{places} places, {kept} with every ticket told or kept, {lost} with one lost"
        )
    }
}

// Plays a scenario with a break after so many steps: how many there were, and whether no ticket was lost.
fn rehearse<F: Files>(
    heap: Global,
    scenario: &[u8],
    files: &F,
    break_after: Option<u64>,
) -> Result<(u64, bool), Failure>
    ensures { break_after ≡ None → IfOk result (λ r. PlaysIn (F.holds files.now) (told_lines scenario.now) r.0 None None) }
{
    let mut unheard = io::sink();
    let mut course = Course::new(heap, scenario, break_after);
    let steps = course.run(files, &mut unheard)?;
    Ok((steps, course.is_kept()))
}

// Plays a scenario anew for each of its steps, breaks the link there, and goes on.
pub fn play_breaks<F: Files>(heap: Global, scenario: &[u8], files: &F) -> Result<Breaks, Failure>
    ensures places { IfOk result (λ b. PlaysIn (F.holds files.now) (told_lines scenario.now) b.places None None) }
    ensures lost { IfOk result (λ b. b.lost ≤ b.places) }
{
    let (places, _) = rehearse(heap, scenario, files, None)?;
    let mut breaks = Breaks { places, lost: 0 };
    for step in 0..places {
        let (_, is_kept) = rehearse(heap, scenario, files, Some(step + 1))?;
        breaks.lost = breaks.lost.saturating_add(u64::from(!is_kept));
    }
    Ok(breaks)
}
