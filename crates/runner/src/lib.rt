// Ticks and runners (P3, P4, group M): the runner from a tick, the step, and back. For place, the fleet and the C boundary.
#![tactic(auto)]

mod backs;
mod records;
mod steps;
mod ticks;

pub use backs::{back, backed};
pub use records::{RunnerOutcome, back_record, onward_by, step_record};
pub use steps::{is_adrift, is_landed, moved, step, step_by, stepped, stepped_by};
pub use ticks::{is_past, runner_at_tick, runner_at_tick_by, spot_at};

// M1: which leg, the first being 0, how many ticks along it, and the laps flown.
#[derive(Clone, Copy, Debug, PartialEq, Eq)]
pub struct Runner {
    pub leg: u64,
    pub offset: u64,
    pub laps: u64,
}
