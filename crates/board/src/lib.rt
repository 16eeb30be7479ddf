// The autopilot board (group B): the station's calls that it has, for sheets of up to 48 waypoints. In Rattle they are those of `calls`; here stands what its C
// boundary hands out (include/board.h; crate board_c), crate boundary's functions at the board's limit.
#![tactic(auto)]

mod calls;

ghost use Rattle.std.specs.Prelude.{◌≡◌, length};
ghost use Rattle.sheet.specs.Answers.{told};
ghost use Rattle.sheet.specs.Reading.{read_by};
ghost use Rattle.layout.specs.Layout.{lay_out_by, laid_out_by};
ghost use Rattle.runner.specs.Ticks.{runner, at_lap, runner_at_tick_by};
ghost use Rattle.runner.specs.Steps.{stepped_by};
ghost use Rattle.place.specs.Places.{place_at_tick_by, place_of_runner_by};
ghost use Rattle.boundary.specs.Written.{written, written_unsigned, moved_slice};
ghost use Rattle.board.specs.Board.{board_points};

pub use calls::{lay_out, place_at_tick, place_of_runner, read, runner_at_tick, step, stepped};

// B2: the largest N of the board.
pub const BOARD_POINTS: usize = 48;

// Holds the constant against the definition; nothing calls it.
fn board_points() -> usize
    ensures { result ≡ board_points }
{
    BOARD_POINTS
}

// out = kind, N, P
pub fn board_read(sheet: &[u8], out: &mut [u64]) -> u64
    ensures answer { result ≡ (told (read_by board_points sheet.now)).number }
    ensures out { out.new ≡ written_unsigned (told (read_by board_points sheet.now)) out.old }
{
    boundary::read(BOARD_POINTS, sheet, out)
}

pub fn board_lay_out(sheet: &[u8], list: &mut [i64]) -> u64
    ensures answer { result ≡ (lay_out_by board_points sheet.now (length list.old)).number }
    ensures list { list.new ≡ laid_out_by board_points sheet.now list.old }
{
    boundary::lay_out(BOARD_POINTS, sheet, list)
}

// out = north, east, up
pub fn board_place_at_tick(sheet: &[u8], list: &[i64], tick: u64, out: &mut [i64]) -> u64
    ensures answer { result ≡ (place_at_tick_by board_points sheet.now list.now tick).number }
    ensures out { out.new ≡ written (place_at_tick_by board_points sheet.now list.now tick) out.old }
{
    boundary::place_at_tick(BOARD_POINTS, sheet, list, tick, out)
}

// out = north, east, up
pub fn board_place_of_runner(
    sheet: &[u8],
    list: &[i64],
    leg: u64,
    offset: u64,
    laps: u64,
    out: &mut [i64],
) -> u64
    ensures answer { result ≡ (place_of_runner_by board_points sheet.now list.now (at_lap laps (runner leg offset))).number }
    ensures out { out.new ≡ written (place_of_runner_by board_points sheet.now list.now (at_lap laps (runner leg offset))) out.old }
{
    boundary::place_of_runner(BOARD_POINTS, sheet, list, leg, offset, laps, out)
}

// out = leg, offset, laps
pub fn board_runner_at_tick(sheet: &[u8], tick: u64, out: &mut [u64]) -> u64
    ensures answer { result ≡ (runner_at_tick_by board_points sheet.now tick).number }
    ensures out { out.new ≡ written_unsigned (runner_at_tick_by board_points sheet.now tick) out.old }
{
    boundary::runner_at_tick(BOARD_POINTS, sheet, tick, out)
}

// lent = leg, offset, laps, moved on in place
pub fn board_step(sheet: &[u8], lent: &mut [u64]) -> u64
    ensures answer { result ≡ (moved_slice board_points (stepped_by board_points) sheet.now lent.old).number }
    ensures lent { lent.new ≡ written_unsigned (moved_slice board_points (stepped_by board_points) sheet.now lent.old) lent.old }
{
    boundary::step(BOARD_POINTS, sheet, lent)
}
