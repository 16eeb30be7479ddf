// Passes over one axis (L1 to L4), in place in its part of the lent list.
ghost use Rattle.std.specs.Prelude.{◌≡◌, false, pos, nat_abs, ◌-ℤ◌, ◌*ℤ◌, length};
ghost use Rattle.rounding.specs.Rounded.{rounded};
ghost use Rattle.systems.specs.Passes as systems;
ghost use Rattle.spline.specs.Spline.{rows, bends};
ghost use Rattle.layout.specs.Inside.{along, AtEnd, Sized, Small, AllSmall, Reached};

use crate::axis::Axis;
use crate::row::Row;

// L3: how many passes.
const PASSES: usize = 40;

// L2: the new number of a row, from its neighbours' present ones.
fn renewed(row: Row, left: i64, next: i64) -> i64
    requires { Sized row × Small left × Small next }
    ensures { result ≡ rounded (pos 65536 *ℤ row.right -ℤ row.before *ℤ left -ℤ row.after *ℤ next) (nat_abs row.middle) }
{
    rounding::rounded(
        65536 * row.right - row.before * left - row.after * next,
        row.middle,
    )
}

impl Axis<'_> {
    // The turn at the first or the last waypoint; where the ends are free there is none. Answers whether its number changed.
    fn turn(&self, i: usize, z: &mut [i64]) -> bool
        requires { AtEnd self.now.sheet.points i × AllSmall self.now.sheet.points z.old }
        ensures number { z.new ≡ systems.turn (rows (along self.now)) 65536 z.old i }
        ensures settled { result ≡ false → z.new ≡ z.old }
    {
        let Some(row) = self.end_row(i) else {
            return false;
        };
        let old = z[i];
        let x = renewed(row, z[self.before(i)], z[self.after(i)]);
        z[i] = x;
        x != old
    }

    // L2: the turns from the first waypoint to the last. Answers whether a number changed. The number just set is the next row's left neighbour; where it is
    // the old one, the old one is taken, so that the next division need not wait for it.
    fn pass(&self, z: &mut [i64]) -> bool
        requires { Reached self.now z.old }
        ensures numbers { z.new ≡ systems.pass (rows (along self.now)) 65536 z.old }
        ensures settled { result ≡ false → z.new ≡ z.old }
    {
        let last = self.sheet.points - 1;
        let mut changed = self.turn(0, z);
        let mut left = z[0];
        for i in 1..last {
            let old = z[i];
            let x = renewed(self.inner_at(i), left, z[i + 1]);
            if x == old {
                left = old;
            } else {
                z[i] = x;
                changed = true;
                left = x;
            }
        }
        self.turn(last, z) | changed
    }

    // L3: from zeros, forty passes. After one that changed nothing the others would change nothing either.
    pub fn lay(&self, z: &mut [i64])
        requires { length z.old ≡ self.now.sheet.points }
        ensures { z.new ≡ bends (along self.now) }
    {
        z.fill(0);
        for _ in 0..PASSES {
            if !self.pass(z) {
                return;
            }
        }
    }
}
