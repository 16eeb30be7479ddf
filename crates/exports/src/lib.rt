// The station's C boundary (include/station.h): the station's calls on numbers and slices, six of them crate boundary's. A slice is a pointer, then a length. Each
// function answers 0 or a number of group N, and writes its results only when it answers 0 (Q3's turn excepted) and the lent slice has room for them.
#![tactic(auto)]

ghost use Rattle.std.specs.Prelude.{◌≡◌, [], ◌∷◌, length};
ghost use Rattle.sheet.specs.Answers.{told};
ghost use Rattle.sheet.specs.Reading.{most_points, read_sheet};
ghost use Rattle.lists.specs.Lists.{lists};
ghost use Rattle.answers.specs.Answers.{told_count};
ghost use Rattle.lists.specs.Answer.{write_sheet};
ghost use Rattle.writer.specs.Writing.{written_into};
ghost use Rattle.join.specs.Joining.{join_sheets, joined_into};
ghost use Rattle.layout.specs.Layout.{lay_out, laid_out};
ghost use Rattle.runner.specs.Ticks.{runner, at_lap, runner_at_tick};
ghost use Rattle.runner.specs.Steps.{stepped};
ghost use Rattle.runner.specs.Backs.{backed};
ghost use Rattle.place.specs.Places.{place_at_tick, place_of_runner};
ghost use Rattle.seat.specs.Serving.{told_next};
ghost use Rattle.fleet.specs.Round.{round_answer, turn_given};
ghost use Rattle.fleet.specs.Numbers.{records, numbers_after};
ghost use Rattle.strokes.specs.Strokes.{strokes_answer, drawn_into};
ghost use Rattle.boundary.specs.Written.{put, written, written_unsigned, moved_slice};

use boundary::{lent_runner, put, tell_place, tell_runner};
use sheet::{MOST_POINTS, Refusal};

// out = kind, N, P
#[unsafe(no_mangle)]
pub extern "C" fn station_read(sheet: &[u8], out: &mut [u64]) -> u64
    ensures answer { result ≡ (told (read_sheet sheet.now)).number }
    ensures out { out.new ≡ written_unsigned (told (read_sheet sheet.now)) out.old }
{
    boundary::read(MOST_POINTS, sheet, out)
}

#[unsafe(no_mangle)]
pub extern "C" fn station_lay_out(sheet: &[u8], list: &mut [i64]) -> u64
    ensures answer { result ≡ (lay_out sheet.now (length list.old)).number }
    ensures list { list.new ≡ laid_out sheet.now list.old }
{
    boundary::lay_out(MOST_POINTS, sheet, list)
}

// out = north, east, up
#[unsafe(no_mangle)]
pub extern "C" fn station_place_at_tick(
    sheet: &[u8],
    list: &[i64],
    tick: u64,
    out: &mut [i64],
) -> u64
    ensures answer { result ≡ (place_at_tick sheet.now list.now tick).number }
    ensures out { out.new ≡ written (place_at_tick sheet.now list.now tick) out.old }
{
    boundary::place_at_tick(MOST_POINTS, sheet, list, tick, out)
}

// out = north, east, up
#[unsafe(no_mangle)]
pub extern "C" fn station_place_of_runner(
    sheet: &[u8],
    list: &[i64],
    leg: u64,
    offset: u64,
    laps: u64,
    out: &mut [i64],
) -> u64
    ensures answer { result ≡ (place_of_runner sheet.now list.now (at_lap laps (runner leg offset))).number }
    ensures out { out.new ≡ written (place_of_runner sheet.now list.now (at_lap laps (runner leg offset))) out.old }
{
    boundary::place_of_runner(MOST_POINTS, sheet, list, leg, offset, laps, out)
}

// out = leg, offset, laps
#[unsafe(no_mangle)]
pub extern "C" fn station_runner_at_tick(sheet: &[u8], tick: u64, out: &mut [u64]) -> u64
    ensures answer { result ≡ (runner_at_tick sheet.now tick).number }
    ensures out { out.new ≡ written_unsigned (runner_at_tick sheet.now tick) out.old }
{
    boundary::runner_at_tick(MOST_POINTS, sheet, tick, out)
}

// lent = leg, offset, laps, moved on in place
#[unsafe(no_mangle)]
pub extern "C" fn station_step(sheet: &[u8], lent: &mut [u64]) -> u64
    ensures answer { result ≡ (moved_slice most_points stepped sheet.now lent.old).number }
    ensures lent { lent.new ≡ written_unsigned (moved_slice most_points stepped sheet.now lent.old) lent.old }
{
    boundary::step(MOST_POINTS, sheet, lent)
}

// lent = leg, offset, laps, moved back in place
#[unsafe(no_mangle)]
pub extern "C" fn station_back(sheet: &[u8], lent: &mut [u64]) -> u64
    ensures answer { result ≡ (moved_slice most_points backed sheet.now lent.old).number }
    ensures lent { lent.new ≡ written_unsigned (moved_slice most_points backed sheet.now lent.old) lent.old }
{
    let answer = lent_runner(MOST_POINTS, sheet, lent);
    tell_runner(answer.and_then(|at| runner::backed(sheet, at)), lent)
}

// The next turn into the slice, if there is one.
#[tactic(auto, unfolding(boundary::specs::Written::put))]
fn tell_turn(next: Option<u64>, out: &mut [u64])
    ensures { out.new ≡ put (told_next next) out.old }
{
    if let Some(turn) = next {
        put(out, [turn]);
    }
}

// lent = leg, offset, laps of each seat in turn, one of them moved on in place; place = north, east, up; next = the next turn, which a seat's own refusal has too
#[unsafe(no_mangle)]
pub extern "C" fn station_round(
    sheet: &[u8],
    list: &[i64],
    lent: &mut [u64],
    turn: u64,
    place: &mut [i64],
    next: &mut [u64],
) -> u64
    ensures answer { result ≡ (round_answer sheet.now list.now (records lent.old) turn).number }
    ensures lent { lent.new ≡ numbers_after sheet.now list.now lent.old turn }
    ensures place { place.new ≡ written (round_answer sheet.now list.now (records lent.old) turn) place.old }
    ensures next { next.new ≡ put (turn_given sheet.now list.now (records lent.old) turn) next.old }
{
    let answer = fleet::round_numbers(sheet, list, lent, turn);
    tell_turn(answer.next, next);
    tell_place(answer.placed, place)
}

// How many bytes or stroke ends, into the slice, or the refusal's number.
fn tell_count(answer: Result<usize, Refusal>, out: &mut [u64]) -> u64
    ensures answer { result ≡ (told_count answer).number }
    ensures out { out.new ≡ written_unsigned (told_count answer) out.old }
{
    match answer {
        Ok(count) => {
            put(out, [count as u64]);
            0
        }
        Err(refusal) => u64::from(refusal),
    }
}

// out = the length of the sheet, which stands at the front of `sheet`; it is written there whether or not `out` has room. The kind is a number, as C lends it
#[unsafe(no_mangle)]
pub extern "C" fn station_write(
    kind: u64,
    legs: &[u64],
    waypoints: &[i64],
    slopes: &[i64],
    sheet: &mut [u8],
    out: &mut [u64],
) -> u64
    ensures answer { result ≡ (write_sheet (lists kind legs.now waypoints.now slopes.now) (length sheet.old)).number }
    ensures sheet { sheet.new ≡ written_into (lists kind legs.now waypoints.now slopes.now) sheet.old }
    ensures out { out.new ≡ written_unsigned (write_sheet (lists kind legs.now waypoints.now slopes.now) (length sheet.old)) out.old }
{
    tell_count(writer::write(kind, legs, waypoints, slopes, sheet), out)
}

// out = the length of the joined sheet, which stands at the front of `sheet`; it is written there whether or not `out` has room
#[unsafe(no_mangle)]
pub extern "C" fn station_join(
    first: &[u8],
    second: &[u8],
    sheet: &mut [u8],
    out: &mut [u64],
) -> u64
    ensures answer { result ≡ (join_sheets first.now second.now (length sheet.old)).number }
    ensures sheet { sheet.new ≡ joined_into first.now second.now sheet.old }
    ensures out { out.new ≡ written_unsigned (join_sheets first.now second.now (length sheet.old)) out.old }
{
    tell_count(join::join(first, second, sheet), out)
}

// out = how many stroke ends stand at the front of `ends`; they are written there whether or not `out` has room
#[unsafe(no_mangle)]
pub extern "C" fn station_strokes(
    sheet: &[u8],
    list: &[i64],
    tolerance: i64,
    ends: &mut [u64],
    out: &mut [u64],
) -> u64
    ensures answer { result ≡ (strokes_answer sheet.now list.now tolerance (length ends.old)).number }
    ensures ends { ends.new ≡ drawn_into sheet.now list.now tolerance ends.old }
    ensures out { out.new ≡ written_unsigned (strokes_answer sheet.now list.now tolerance (length ends.old)) out.old }
{
    tell_count(strokes::strokes(sheet, list, tolerance, ends), out)
}
