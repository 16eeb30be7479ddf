// Step and back on a record of one's own (M2, M6), for callers that hand a runner over by value and want outcome and record both.
ghost use Rattle.std.specs.Prelude.{◌≡◌};
ghost use Rattle.answers.specs.Answers.{told_outcome, bare};
ghost use Rattle.runner.specs.Steps.{stepped, stepped_by, onward, onward_by};
ghost use Rattle.runner.specs.Backs.{backed, backward};

use crate::Runner;
use crate::backs::back;
use crate::steps::step_by;
use sheet::{MOST_POINTS, Refusal};

// The runner, moved or as it was (A9), and the outcome.
#[derive(Clone, Copy)]
pub struct RunnerOutcome {
    pub at: Runner,
    pub outcome: Result<(), Refusal>,
}

// The step, on sheets with up to `limit` waypoints.
pub fn onward_by(limit: usize, s: &[u8], at: Runner) -> RunnerOutcome
    ensures { (told_outcome result.outcome ≡ bare (stepped_by limit s.now at)) × (result.at ≡ onward_by limit s.now at) }
{
    let mut r = at;
    let outcome = step_by(limit, s, &mut r);
    RunnerOutcome { at: r, outcome }
}

// The station's.
pub fn step_record(s: &[u8], at: Runner) -> RunnerOutcome
    ensures { (told_outcome result.outcome ≡ bare (stepped s.now at)) × (result.at ≡ onward s.now at) }
{
    onward_by(MOST_POINTS, s, at)
}

pub fn back_record(s: &[u8], at: Runner) -> RunnerOutcome
    ensures { (told_outcome result.outcome ≡ bare (backed s.now at)) × (result.at ≡ backward s.now at) }
{
    let mut r = at;
    let outcome = back(s, &mut r);
    RunnerOutcome { at: r, outcome }
}
