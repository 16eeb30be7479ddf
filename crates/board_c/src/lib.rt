// The autopilot board's C boundary (include/board.h): crate board's functions under their names in C. A slice is a pointer, then a length.
#![tactic(auto)]

ghost use Rattle.std.specs.Prelude.{◌≡◌, length};
ghost use Rattle.sheet.specs.Answers.{told};
ghost use Rattle.sheet.specs.Reading.{read_by};
ghost use Rattle.layout.specs.Layout.{lay_out_by, laid_out_by};
ghost use Rattle.runner.specs.Ticks.{runner, at_lap, runner_at_tick_by};
ghost use Rattle.runner.specs.Steps.{stepped_by};
ghost use Rattle.place.specs.Places.{place_at_tick_by, place_of_runner_by};
ghost use Rattle.boundary.specs.Written.{written, written_unsigned, moved_slice};
ghost use Rattle.board.specs.Board.{board_points};

// out = kind, N, P
#[unsafe(no_mangle)]
pub extern "C" fn board_read(sheet: &[u8], out: &mut [u64]) -> u64
    ensures answer { result ≡ (told (read_by board_points sheet.now)).number }
    ensures out { out.new ≡ written_unsigned (told (read_by board_points sheet.now)) out.old }
{
    board::board_read(sheet, out)
}

#[unsafe(no_mangle)]
pub extern "C" fn board_lay_out(sheet: &[u8], list: &mut [i64]) -> u64
    ensures answer { result ≡ (lay_out_by board_points sheet.now (length list.old)).number }
    ensures list { list.new ≡ laid_out_by board_points sheet.now list.old }
{
    board::board_lay_out(sheet, list)
}

// out = north, east, up
#[unsafe(no_mangle)]
pub extern "C" fn board_place_at_tick(sheet: &[u8], list: &[i64], tick: u64, out: &mut [i64]) -> u64
    ensures answer { result ≡ (place_at_tick_by board_points sheet.now list.now tick).number }
    ensures out { out.new ≡ written (place_at_tick_by board_points sheet.now list.now tick) out.old }
{
    board::board_place_at_tick(sheet, list, tick, out)
}

// out = north, east, up
#[unsafe(no_mangle)]
pub extern "C" fn board_place_of_runner(
    sheet: &[u8],
    list: &[i64],
    leg: u64,
    offset: u64,
    laps: u64,
    out: &mut [i64],
) -> u64
    ensures answer { result ≡ (place_of_runner_by board_points sheet.now list.now (at_lap laps (runner leg offset))).number }
    ensures out { out.new ≡ written (place_of_runner_by board_points sheet.now list.now (at_lap laps (runner leg offset))) out.old }
{
    board::board_place_of_runner(sheet, list, leg, offset, laps, out)
}

// out = leg, offset, laps
#[unsafe(no_mangle)]
pub extern "C" fn board_runner_at_tick(sheet: &[u8], tick: u64, out: &mut [u64]) -> u64
    ensures answer { result ≡ (runner_at_tick_by board_points sheet.now tick).number }
    ensures out { out.new ≡ written_unsigned (runner_at_tick_by board_points sheet.now tick) out.old }
{
    board::board_runner_at_tick(sheet, tick, out)
}

// lent = leg, offset, laps, moved on in place
#[unsafe(no_mangle)]
pub extern "C" fn board_step(sheet: &[u8], lent: &mut [u64]) -> u64
    ensures answer { result ≡ (moved_slice board_points (stepped_by board_points) sheet.now lent.old).number }
    ensures lent { lent.new ≡ written_unsigned (moved_slice board_points (stepped_by board_points) sheet.now lent.old) lent.old }
{
    board::board_step(sheet, lent)
}
