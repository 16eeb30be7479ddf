// The leg, offset and laps of a tick (P3, P4, P7, M10), and the runner from a tick (A6). For place too.
ghost use Rattle.std.specs.Prelude.{◌≡◌, ◌+◌, ◌-◌, ◌*◌, ◌≤◌, ◌<◌, ◌&&◌, ltb, get_or};
ghost use Rattle.sheet.specs.Bytes.{sum_below};
ghost use Rattle.sheet.specs.Carried.{stride, Carried};
ghost use Rattle.sheet.specs.Fields.{legs, leg};
ghost use Rattle.runner.specs.Ticks.{is_open, reduced, laps_in, at_lap, walk, spot_at, runner_at_tick, runner_at_tick_by, told_runner};

use crate::Runner;
use answers::{OpenSheet, TimedSheet};
use ends::EndKind;
use sheet::{MOST_POINTS, Refusal, STRIDE, SUMS};

// An open course has ends, free or held.
pub fn is_open(kind: EndKind) -> bool
    ensures { result ≡ is_open kind }
{
    match kind {
        EndKind::Free | EndKind::Held => true,
        EndKind::Closed => false,
    }
}

// N10: an open course has no tick over P. (Of a kind and a P: it asks nothing of a sheet.)
pub fn is_past(kind: EndKind, ticks: u64, tick: u64) -> bool
    ensures { result ≡ (is_open kind && ltb ticks tick) }
{
    is_open(kind) && ticks < tick
}

// P4: ticks of a closed course go round.
fn reduced(kind: EndKind, ticks: u64, tick: u64) -> u64
    requires { 1 ≤ ticks }
    ensures { result ≡ reduced kind ticks tick }
{
    match kind {
        EndKind::Free | EndKind::Held => tick,
        EndKind::Closed => tick % ticks,
    }
}

// M10: the whole laps in a tick of a closed course.
fn laps_in(kind: EndKind, ticks: u64, tick: u64) -> u64
    requires { 1 ≤ ticks }
    ensures { result ≡ laps_in kind ticks tick }
{
    match kind {
        EndKind::Free | EndKind::Held => 0,
        EndKind::Closed => tick / ticks,
    }
}

// P7: by the kept sums, the last sixteenth leg that starts at the tick or before it: at most sixteen legs are left to walk.
#[tactic(auto, using(crate::proofs::Room::bounds))]
fn sixteenth_at(sheet: &OpenSheet<'_>, sums: &[u32; SUMS], tick: u64) -> usize
    requires { Carried sheet.now.bytes.now (legs sheet.now.bytes.now) sums.now }
    ensures from { (stride * result < legs sheet.now.bytes.now) × (get_or sums.now result 0 ≤ tick) }
    ensures till { stride * (result + 1) < legs sheet.now.bytes.now → tick < get_or sums.now (result + 1) 0 }
{
    let last = (sheet.legs() - 1) / STRIDE;
    for b in 0..last {
        if tick < u64::from(sums[b + 1]) {
            return b;
        }
    }
    last
}

// P3, P7: the walk along the legs, from leg `first` and the sum before it on. It carries the sum along; a tick that no leg ends after is on the last. The laps are the caller's.
#[tactic(auto, using(crate::proofs::Room::bounds))]
fn leg_from(sheet: &OpenSheet<'_>, first: usize, before: u64, tick: u64, laps: u64) -> Runner
    requires first_leg { first < legs sheet.now.bytes.now }
    requires before_value { (before ≡ sum_below (leg sheet.now.bytes.now) first) × (before ≤ tick) }
    ensures { result ≡ at_lap laps (walk (leg sheet.now.bytes.now) (legs sheet.now.bytes.now - 1) 0 tick) }
{
    let last = sheet.legs() - 1;
    let mut start = before;
    for i in first..last {
        let end = start + sheet::leg_length(sheet.bytes, i);
        if tick < end {
            return Runner {
                leg: i as u64,
                offset: tick - start,
                laps,
            };
        }
        start = end;
    }
    Runner {
        leg: last as u64,
        offset: tick - start,
        laps,
    }
}

// The leg and offset of a tick, reduced first, with its laps; reading left the sums.
#[tactic(auto, using(crate::proofs::Room::bounds), unfolding(crate::specs::Ticks::spot_at))]
pub fn spot_at(timed: &TimedSheet<'_>, sums: &[u32; SUMS], tick: u64) -> Runner
    requires { Carried timed.now.sheet.bytes.now (legs timed.now.sheet.bytes.now) sums.now }
    ensures { result ≡ spot_at timed.now.sheet.bytes.now tick }
{
    let sheet = &timed.sheet;
    let here = reduced(sheet.kind, timed.ticks, tick);
    let laps = laps_in(sheet.kind, timed.ticks, tick);
    let b = sixteenth_at(sheet, sums, here);
    leg_from(sheet, STRIDE * b, u64::from(sums[b]), here, laps)
}

// The runner from a tick (A6), on sheets with up to `limit` waypoints. Tests 1 to 8 and 10.
#[tactic(auto, using(crate::proofs::Entry::opening), unfolding(crate::specs::Ticks::runner_at_tick_by))]
pub fn runner_at_tick_by(limit: usize, s: &[u8], tick: u64) -> Result<Runner, Refusal>
    ensures { told_runner result ≡ runner_at_tick_by limit s.now tick }
{
    let mut sums = [0u32; SUMS];
    let reading = answers::open_with_sums(limit, s, &mut sums);
    let Ok(timed) = reading else {
        return Err(reading.unwrap_err());
    };
    if is_past(timed.sheet.kind, timed.ticks, tick) {
        return Err(Refusal::Past);
    }
    Ok(spot_at(&timed, &sums, tick))
}

// The station's.
pub fn runner_at_tick(s: &[u8], tick: u64) -> Result<Runner, Refusal>
    ensures { told_runner result ≡ runner_at_tick s.now tick }
{
    runner_at_tick_by(MOST_POINTS, s, tick)
}
