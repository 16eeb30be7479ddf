// The step (A7, M2): a runner moved on by one tick, by value and where it lies.
ghost use Rattle.std.specs.Prelude.{◌≡◌, false, ◌<◌};
ghost use Rattle.sheet.specs.Fields.{legs};
ghost use Rattle.answers.specs.Answers.{told_outcome, bare};
ghost use Rattle.runner.specs.Ticks.{told_runner};
ghost use Rattle.runner.specs.Steps.{off_legs, adrift, next_lap, landed, moved, stepped, stepped_by, onward, onward_by};

use crate::Runner;
use crate::ticks::is_open;
use answers::OpenSheet;
use ends::EndKind;
use sheet::{MOST_POINTS, Refusal, leg_length};

// N13: at the end of an open course.
#[tactic(auto, using(crate::proofs::Room::bounds))]
pub fn is_landed(sheet: &OpenSheet<'_>, at: Runner) -> bool
    requires { at.leg < legs sheet.now.bytes.now }
    ensures { result ≡ landed sheet.now.bytes.now at }
{
    is_open(sheet.kind)
        && at.leg + 1 == sheet.legs() as u64
        && at.offset == leg_length(sheet.bytes, at.leg as usize)
}

// N11, of leg and offset: on none of the legs, or not below its leg's length; an open course's end is allowed.
#[tactic(auto, using(crate::proofs::Room::bounds), unfolding(crate::specs::Steps::off_legs))]
fn is_off_legs(sheet: &OpenSheet<'_>, at: Runner) -> bool
    ensures { result ≡ off_legs sheet.now.bytes.now at }
{
    if sheet.legs() as u64 <= at.leg {
        return true;
    }
    if at.offset < leg_length(sheet.bytes, at.leg as usize) {
        return false;
    }
    !is_landed(sheet, at)
}

// N11: off the legs, or on an open course with a lap.
#[tactic(auto, unfolding(crate::specs::Steps::adrift))]
pub fn is_adrift(sheet: &OpenSheet<'_>, at: Runner) -> bool
    ensures { result ≡ adrift sheet.now.bytes.now at }
{
    is_off_legs(sheet, at) || (is_open(sheet.kind) && 0 < at.laps)
}

// M10: one lap more, save at the largest count, 2^64 - 1.
fn next_lap(laps: u64) -> u64
    ensures { result ≡ next_lap laps }
{
    laps.saturating_add(1)
}

// One tick on: on its leg, to the start of the next one, to the end of an open course, or round to the first waypoint, which is a lap more.
#[tactic(auto, using(crate::proofs::Room::bounds), unfolding(crate::specs::Steps::moved))]
pub fn moved(sheet: &OpenSheet<'_>, at: Runner) -> Runner
    requires fits { adrift sheet.now.bytes.now at ≡ false }
    requires flies { landed sheet.now.bytes.now at ≡ false }
    ensures { result ≡ moved sheet.now.bytes.now at }
{
    let next = at.offset + 1;
    if next < leg_length(sheet.bytes, at.leg as usize) {
        return Runner { offset: next, ..at };
    }
    if at.leg + 1 < sheet.legs() as u64 {
        return Runner {
            leg: at.leg + 1,
            offset: 0,
            ..at
        };
    }
    match sheet.kind {
        EndKind::Free | EndKind::Held => Runner { offset: next, ..at },
        EndKind::Closed => Runner {
            leg: 0,
            offset: 0,
            laps: next_lap(at.laps),
        },
    }
}

// The step by value (A7), on sheets with up to `limit` waypoints. Tests 1 to 8, 11 and 13.
#[tactic(auto, using(crate::proofs::Entry::opening, crate::proofs::Room::bounds), unfolding(crate::specs::Steps::stepped_by))]
pub fn stepped_by(limit: usize, s: &[u8], at: Runner) -> Result<Runner, Refusal>
    ensures { told_runner result ≡ stepped_by limit s.now at }
{
    let reading = answers::open(limit, s);
    let Ok(sheet) = reading else {
        return Err(reading.unwrap_err());
    };
    if is_adrift(&sheet, at) {
        return Err(Refusal::Adrift);
    }
    if is_landed(&sheet, at) {
        return Err(Refusal::Landed);
    }
    Ok(moved(&sheet, at))
}

// The station's.
pub fn stepped(s: &[u8], at: Runner) -> Result<Runner, Refusal>
    ensures { told_runner result ≡ stepped s.now at }
{
    stepped_by(MOST_POINTS, s, at)
}

// M2: the step over a lent record (F7), on sheets with up to `limit` waypoints. Tests 1 to 8, 11 and 13; a refused one leaves the record alone (A9).
pub fn step_by(limit: usize, s: &[u8], r: &mut Runner) -> Result<(), Refusal>
    ensures { (told_outcome result ≡ bare (stepped_by limit s.now r.old)) × (r.new ≡ onward_by limit s.now r.old) }
{
    *r = stepped_by(limit, s, *r)?;
    Ok(())
}

// The station's.
pub fn step(s: &[u8], r: &mut Runner) -> Result<(), Refusal>
    ensures { (told_outcome result ≡ bare (stepped s.now r.old)) × (r.new ≡ onward s.now r.old) }
{
    step_by(MOST_POINTS, s, r)
}
