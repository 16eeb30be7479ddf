// The place by tick and the place by runner (group P). For the fleet too, which asks for the place of a seat, and for strokes, which go along the places of a leg.
#![tactic(auto)]

mod bends;
mod laid;
mod leg;
mod numbers;

ghost use Rattle.std.specs.Prelude.{◌≡◌, false};
ghost use Rattle.runner.specs.Steps.{adrift};
ghost use Rattle.place.specs.Places.{told_placed, bend_or_place, place_at_tick, place_at_tick_by, place_of_runner, place_of_runner_by};

pub use bends::{bend_outside, is_short};
pub use laid::Laid;
pub use leg::{Leg, LegEnds};
pub use numbers::LegNumbers;
use runner::Runner;
use sheet::{MOST_POINTS, Refusal, SUMS};

// P2, F1: north, east, up.
#[derive(Clone, Copy)]
pub struct Place {
    pub at: [i64; 3],
}

// The place of a runner to which 11 does not apply; 12 is left to test.
#[tactic(auto, using(crate::proofs::Fitting::leg_fits, crate::proofs::Fitting::offset_fits, integers::proofs::Made::passed), unfolding(crate::specs::Places::place_on))]
pub fn place_at(laid: &Laid<'_>, at: Runner) -> Result<Place, Refusal>
    requires { adrift laid.now.sheet.bytes.now at ≡ false }
    ensures { told_placed result ≡ bend_or_place laid.now.sheet.bytes.now laid.now.list.now at }
{
    let start = at.leg as usize;
    if laid.bend_outside(start) {
        return Err(Refusal::Bend);
    }
    let leg = laid.leg(start);
    // (Kept three calls: by an array's `map` a place would not name its axes.)
    let north = leg.place_on(at.offset, 0);
    let east = leg.place_on(at.offset, 1);
    let up = leg.place_on(at.offset, 2);
    let place = Place {
        at: [north, east, up],
    };
    Ok(place)
}

// A4, on sheets with up to `limit` waypoints: tests 1 to 10 and 12.
#[tactic(auto, using(runner::proofs::Entry::opening, runner::proofs::Standing::tick_stands), unfolding(crate::specs::Places::place_at_tick_by))]
pub fn place_at_tick_by(limit: usize, s: &[u8], list: &[i64], tick: u64) -> Result<Place, Refusal>
    ensures { told_placed result ≡ place_at_tick_by limit s.now list.now tick }
{
    let mut sums = [0u32; SUMS];
    let reading = answers::open_with_sums(limit, s, &mut sums);
    let Ok(timed) = reading else {
        return Err(reading.unwrap_err());
    };
    let laid = Laid::on(timed.sheet, list)?;
    if runner::is_past(timed.sheet.kind, timed.ticks, tick) {
        return Err(Refusal::Past);
    }
    let at = runner::spot_at(&timed, &sums, tick);
    place_at(&laid, at)
}

// A5, on sheets with up to `limit` waypoints: tests 1 to 9, 11 and 12.
#[tactic(auto, using(runner::proofs::Entry::opening), unfolding(crate::specs::Places::place_of_runner_by))]
pub fn place_of_runner_by(
    limit: usize,
    s: &[u8],
    list: &[i64],
    at: Runner,
) -> Result<Place, Refusal>
    ensures { told_placed result ≡ place_of_runner_by limit s.now list.now at }
{
    let reading = answers::open(limit, s);
    let Ok(sheet) = reading else {
        return Err(reading.unwrap_err());
    };
    let laid = Laid::on(sheet, list)?;
    if runner::is_adrift(&sheet, at) {
        return Err(Refusal::Adrift);
    }
    place_at(&laid, at)
}

// The station's.
pub fn place_at_tick(s: &[u8], list: &[i64], tick: u64) -> Result<Place, Refusal>
    ensures { told_placed result ≡ place_at_tick s.now list.now tick }
{
    place_at_tick_by(MOST_POINTS, s, list, tick)
}

pub fn place_of_runner(s: &[u8], list: &[i64], at: Runner) -> Result<Place, Refusal>
    ensures { told_placed result ≡ place_of_runner s.now list.now at }
{
    place_of_runner_by(MOST_POINTS, s, list, at)
}
