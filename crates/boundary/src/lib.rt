// What the C boundaries of station and board share (exports, board): their calls on numbers and slices, with the largest N as first argument. Each function answers 0
// or a number of group N, and writes its results only when it answers 0 and the lent slice has room for them.
#![tactic(auto)]

ghost use Rattle.std.specs.Prelude.{◌≡◌, [], ◌∷◌, length};
ghost use Rattle.ends.specs.Ends.{kind_number};
ghost use Rattle.sheet.specs.Answers.{told};
ghost use Rattle.sheet.specs.Reading.{read_by};
ghost use Rattle.layout.specs.Layout.{lay_out_by, laid_out_by};
ghost use Rattle.runner.specs.Ticks.{runner, at_lap, told_runner, runner_at_tick_by};
ghost use Rattle.runner.specs.Steps.{stepped_by};
ghost use Rattle.place.specs.Places.{told_placed, place_at_tick_by, place_of_runner_by};
ghost use Rattle.boundary.specs.Written.{put, written, written_unsigned, no_runner, moved_slice, IsLent};

use place::Place;
use runner::Runner;
use sheet::Refusal;

// Results at the front of a slice that has room for them.
#[tactic(auto, unfolding(crate::specs::Written::put))]
pub fn put<T: Copy, const N: usize>(out: &mut [T], values: [T; N])
    ensures { out.new ≡ put values out.old }
{
    if N <= out.len() {
        out[..N].copy_from_slice(&values);
    }
}

// out = kind, N, P
pub fn read(limit: usize, sheet: &[u8], out: &mut [u64]) -> u64
    ensures answer { result ≡ (told (read_by limit sheet.now)).number }
    ensures out { out.new ≡ written_unsigned (told (read_by limit sheet.now)) out.old }
{
    match sheet::read_by(limit, sheet) {
        Ok(course) => {
            put(
                out,
                [u64::from(course.kind), course.points as u64, course.ticks],
            );
            0
        }
        Err(refusal) => u64::from(refusal),
    }
}

pub fn lay_out(limit: usize, sheet: &[u8], list: &mut [i64]) -> u64
    ensures answer { result ≡ (lay_out_by limit sheet.now (length list.old)).number }
    ensures list { list.new ≡ laid_out_by limit sheet.now list.old }
{
    match layout::lay_out_by(limit, sheet, list) {
        Ok(()) => 0,
        Err(refusal) => u64::from(refusal),
    }
}

// The place into the slice, or the refusal's number. (A match for each kind of answer: by one function over an array in a `Result` an answer goes through
// memory once more, and a place at N = 3 took a twentieth longer.)
pub fn tell_place(answer: Result<Place, Refusal>, out: &mut [i64]) -> u64
    ensures answer { result ≡ (told_placed answer).number }
    ensures out { out.new ≡ written (told_placed answer) out.old }
{
    match answer {
        Ok(place) => {
            put(out, place.at);
            0
        }
        Err(refusal) => u64::from(refusal),
    }
}

// out = north, east, up
pub fn place_at_tick(limit: usize, sheet: &[u8], list: &[i64], tick: u64, out: &mut [i64]) -> u64
    ensures answer { result ≡ (place_at_tick_by limit sheet.now list.now tick).number }
    ensures out { out.new ≡ written (place_at_tick_by limit sheet.now list.now tick) out.old }
{
    tell_place(place::place_at_tick_by(limit, sheet, list, tick), out)
}

// out = north, east, up
pub fn place_of_runner(
    limit: usize,
    sheet: &[u8],
    list: &[i64],
    leg: u64,
    offset: u64,
    laps: u64,
    out: &mut [i64],
) -> u64
    ensures answer { result ≡ (place_of_runner_by limit sheet.now list.now (at_lap laps (runner leg offset))).number }
    ensures out { out.new ≡ written (place_of_runner_by limit sheet.now list.now (at_lap laps (runner leg offset))) out.old }
{
    let at = Runner { leg, offset, laps };
    tell_place(place::place_of_runner_by(limit, sheet, list, at), out)
}

// The runner into the slice, or the refusal's number.
pub fn tell_runner(answer: Result<Runner, Refusal>, out: &mut [u64]) -> u64
    ensures answer { result ≡ (told_runner answer).number }
    ensures out { out.new ≡ written_unsigned (told_runner answer) out.old }
{
    match answer {
        Ok(at) => {
            put(out, [at.leg, at.offset, at.laps]);
            0
        }
        Err(refusal) => u64::from(refusal),
    }
}

// out = leg, offset, laps
pub fn runner_at_tick(limit: usize, sheet: &[u8], tick: u64, out: &mut [u64]) -> u64
    ensures answer { result ≡ (runner_at_tick_by limit sheet.now tick).number }
    ensures out { out.new ≡ written_unsigned (runner_at_tick_by limit sheet.now tick) out.old }
{
    tell_runner(runner::runner_at_tick_by(limit, sheet, tick), out)
}

// The runner of a lent slice, for step and back. Where the slice holds none they answer the sheet's refusal, and otherwise adrift.
pub fn lent_runner(limit: usize, sheet: &[u8], lent: &[u64]) -> Result<Runner, Refusal>
    ensures { IsLent limit sheet.now lent.now result }
{
    if let [leg, offset, laps, ..] = *lent {
        return Ok(Runner { leg, offset, laps });
    }
    sheet::read_by(limit, sheet)?;
    Err(Refusal::Adrift)
}

// lent = leg, offset, laps, moved on in place
pub fn step(limit: usize, sheet: &[u8], lent: &mut [u64]) -> u64
    ensures answer { result ≡ (moved_slice limit (stepped_by limit) sheet.now lent.old).number }
    ensures lent { lent.new ≡ written_unsigned (moved_slice limit (stepped_by limit) sheet.now lent.old) lent.old }
{
    let answer = lent_runner(limit, sheet, lent);
    tell_runner(
        answer.and_then(|at| runner::stepped_by(limit, sheet, at)),
        lent,
    )
}
