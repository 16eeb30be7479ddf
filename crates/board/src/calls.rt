// The board's calls (B1): each is the station's at the board's limit. The lent step is F7's.
ghost use Rattle.std.specs.Prelude.{◌≡◌, length};
ghost use Rattle.sheet.specs.Answers.{told};
ghost use Rattle.sheet.specs.Reading.{read_by};
ghost use Rattle.answers.specs.Answers.{told_outcome, bare};
ghost use Rattle.layout.specs.Layout.{lay_out_by, laid_out_by};
ghost use Rattle.runner.specs.Ticks.{runner_at_tick_by, told_runner};
ghost use Rattle.runner.specs.Steps.{stepped_by, onward_by};
ghost use Rattle.place.specs.Places.{told_placed, place_at_tick_by, place_of_runner_by};
ghost use Rattle.board.specs.Board.{board_points};

use crate::BOARD_POINTS;
use place::Place;
use runner::Runner;
use sheet::{Course, Refusal};

pub fn read(s: &[u8]) -> Result<Course, Refusal>
    ensures { told result ≡ told (read_by board_points s.now) }
{
    sheet::read_by(BOARD_POINTS, s)
}

pub fn lay_out(s: &[u8], list: &mut [i64]) -> Result<(), Refusal>
    ensures answer { told_outcome result ≡ lay_out_by board_points s.now (length list.old) }
    ensures list { list.new ≡ laid_out_by board_points s.now list.old }
{
    layout::lay_out_by(BOARD_POINTS, s, list)
}

pub fn place_at_tick(s: &[u8], list: &[i64], tick: u64) -> Result<Place, Refusal>
    ensures { told_placed result ≡ place_at_tick_by board_points s.now list.now tick }
{
    place::place_at_tick_by(BOARD_POINTS, s, list, tick)
}

pub fn place_of_runner(s: &[u8], list: &[i64], at: Runner) -> Result<Place, Refusal>
    ensures { told_placed result ≡ place_of_runner_by board_points s.now list.now at }
{
    place::place_of_runner_by(BOARD_POINTS, s, list, at)
}

pub fn runner_at_tick(s: &[u8], tick: u64) -> Result<Runner, Refusal>
    ensures { told_runner result ≡ runner_at_tick_by board_points s.now tick }
{
    runner::runner_at_tick_by(BOARD_POINTS, s, tick)
}

pub fn stepped(s: &[u8], at: Runner) -> Result<Runner, Refusal>
    ensures { told_runner result ≡ stepped_by board_points s.now at }
{
    runner::stepped_by(BOARD_POINTS, s, at)
}

// M2: the step over a lent record.
pub fn step(s: &[u8], r: &mut Runner) -> Result<(), Refusal>
    ensures { (told_outcome result ≡ bare (stepped_by board_points s.now r.old)) × (r.new ≡ onward_by board_points s.now r.old) }
{
    runner::step_by(BOARD_POINTS, s, r)
}
