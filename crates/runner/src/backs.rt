// Back (A12, M6): a runner moved back by one tick, by value and where it lies.
ghost use Rattle.std.specs.Prelude.{◌≡◌, false, ◌<◌};
ghost use Rattle.sheet.specs.Fields.{legs};
ghost use Rattle.answers.specs.Answers.{told_outcome, bare};
ghost use Rattle.runner.specs.Ticks.{at_lap, told_runner};
ghost use Rattle.runner.specs.Steps.{adrift};
ghost use Rattle.runner.specs.Backs.{at_start, last_tick, moved_back, backed, backward};

use crate::Runner;
use crate::steps::is_adrift;
use answers::OpenSheet;
use sheet::{MOST_POINTS, Refusal, leg_length};

const FIRST: Runner = Runner {
    leg: 0,
    offset: 0,
    laps: 0,
};

// N15: at the first waypoint with no lap flown.
fn is_at_start(at: Runner) -> bool
    ensures { result ≡ at_start at }
{
    at == FIRST
}

// The last tick of a leg, at a count of laps.
#[tactic(auto, using(crate::proofs::Room::bounds))]
fn last_tick(sheet: &OpenSheet<'_>, leg: u64, laps: u64) -> Runner
    requires { leg < legs sheet.now.bytes.now }
    ensures { result ≡ at_lap laps (last_tick sheet.now.bytes.now leg) }
{
    let offset = leg_length(sheet.bytes, leg as usize) - 1;
    Runner { leg, offset, laps }
}

// One tick back: on its leg, over a waypoint onto the leg before, or from waypoint 0 round onto the closing leg, which takes a lap off.
#[tactic(auto, using(crate::proofs::Room::bounds, crate::proofs::Backward::some_laps), unfolding(crate::specs::Backs::moved_back))]
fn moved_back(sheet: &OpenSheet<'_>, at: Runner) -> Runner
    requires fits { adrift sheet.now.bytes.now at ≡ false }
    requires away { at_start at ≡ false }
    ensures { result ≡ moved_back sheet.now.bytes.now at }
{
    if 0 < at.offset {
        return Runner {
            offset: at.offset - 1,
            ..at
        };
    }
    if 0 < at.leg {
        return last_tick(sheet, at.leg - 1, at.laps);
    }
    last_tick(sheet, sheet.legs() as u64 - 1, at.laps - 1)
}

// Back by value (A12). Tests 1 to 8, 11 and 15.
#[tactic(auto, using(crate::proofs::Entry::opening), unfolding(crate::specs::Backs::backed))]
pub fn backed(s: &[u8], at: Runner) -> Result<Runner, Refusal>
    ensures { told_runner result ≡ backed s.now at }
{
    let reading = answers::open(MOST_POINTS, s);
    let Ok(sheet) = reading else {
        return Err(reading.unwrap_err());
    };
    if is_adrift(&sheet, at) {
        return Err(Refusal::Adrift);
    }
    if is_at_start(at) {
        return Err(Refusal::Start);
    }
    Ok(moved_back(&sheet, at))
}

// M6: back over a lent record (F7). Tests 1 to 8, 11 and 15; a refused one leaves the record alone (A9).
pub fn back(s: &[u8], r: &mut Runner) -> Result<(), Refusal>
    ensures { (told_outcome result ≡ bare (backed s.now r.old)) × (r.new ≡ backward s.now r.old) }
{
    *r = backed(s, *r)?;
    Ok(())
}
