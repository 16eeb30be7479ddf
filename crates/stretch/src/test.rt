// Whether a stretch is kept as one stroke (H2).
ghost use Rattle.std.specs.Prelude.{◌≡◌, ◌+◌, ◌-◌, ◌≤◌, ◌<◌};
ghost use Rattle.sheet.specs.Bytes.{any_below};
ghost use Rattle.stretch.specs.Stretches.{off, off_at, strays_on, strays, kept};
ghost use Rattle.stretch.specs.Asked.{OnStroke, tabled};

use crate::piece::Stretch;

// H2, of one place: both sides are taken times the stroke's ticks, so that nothing is divided.
fn is_off(tolerance: u64, ticks: u64, u: u64, first: i64, here: i64, last: i64) -> bool
    requires { OnStroke tolerance ticks u first here last }
    ensures { result ≡ off tolerance ticks u first here last }
{
    let line = (ticks as i64) * first + (u as i64) * (last - first);
    let apart = (ticks as i64) * here - line;
    tolerance * ticks < apart.unsigned_abs()
}

impl Stretch<'_> {
    // H2, of the place u ticks after the start.
    fn off_at(&self, axis: usize, u: usize) -> bool
        requires { (axis < 3) × (u ≤ self.now.ticks) }
        ensures { result ≡ off_at self.now.leg.now.tolerance (tabled self.now.leg.now.places.now axis) self.now.start self.now.ticks u }
    {
        let x = &self.leg.places[axis];
        is_off(
            self.leg.tolerance,
            self.ticks as u64,
            u as u64,
            x[self.start],
            x[self.start + u],
            x[self.start + self.ticks],
        )
    }

    // H2, on one axis: of the ticks from `low` to the one before `high`.
    fn off_between(&self, axis: usize, low: usize, high: usize) -> bool
        requires { (axis < 3) × (low ≤ high) × (high ≤ self.now.ticks) }
        ensures { result ≡ any_below (λ k. off_at self.now.leg.now.tolerance (tabled self.now.leg.now.places.now axis) self.now.start self.now.ticks (low + k)) (high - low) }
    {
        (low..high).any(|u| self.off_at(axis, u))
    }

    // H2, on one axis. The places at the two ends are on the stroke and are not asked. The second half is asked first: a bent stretch is mostly farthest off in its middle,
    // and then no other place need be looked at.
    fn strays_on(&self, axis: usize) -> bool
        requires { (axis < 3) × (2 ≤ self.now.ticks) }
        ensures { result ≡ strays_on self.now.leg.now.tolerance (tabled self.now.leg.now.places.now axis) self.now.start self.now.ticks }
    {
        let middle = self.ticks / 2;
        self.off_between(axis, middle, self.ticks) || self.off_between(axis, 1, middle)
    }

    // H2, on all axes.
    fn strays(&self) -> bool
        requires { 2 ≤ self.now.ticks }
        ensures { result ≡ strays self.now.leg.now.tolerance (tabled self.now.leg.now.places.now) self.now.start self.now.ticks }
    {
        (0..3).any(|axis| self.strays_on(axis))
    }

    // H2; one tick is kept without being asked.
    pub(crate) fn is_kept(&self) -> bool
        ensures { result ≡ kept self.now.leg.now.tolerance (tabled self.now.leg.now.places.now) self.now.start self.now.ticks }
    {
        self.ticks < 2 || !self.strays()
    }
}
