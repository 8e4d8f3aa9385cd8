// Whole runs of a link: what becomes of every delivery, from its send to its end.
#![tactic(auto)]

ghost use Rattle.runs.specs.Safe.{EveryRunSafe};

// Whatever calls are made, on whatever input: no delivery is lost or ends twice, its ticket tells the right outcome, and
// exactly the right frames go out.
pub fn no_delivery_lost_or_ended_twice()
    ensures { EveryRunSafe }
{}
