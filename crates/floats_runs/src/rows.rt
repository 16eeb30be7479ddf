// 004's rows for the bends of one axis, in floats: divided through by the legs, unlike the whole ones of R2 to R5.
ghost use Rattle.std.specs.Prelude.{◌≡◌, ◌+◌, ◌<◌, ◌≤◌, length};
ghost use Rattle.ends.specs.declared.EndKind.TheVariants.{Held};

use crate::axis::Axis;
use crate::elimination::Row;
use ends::EndKind;

// The row of a free end: the bend is 0.
const FREE: Row = Row {
    a: 1.0,
    b: 0.0,
    v: 0.0,
    y: 0.0,
};

impl Axis<'_> {
    // A leg's ticks, as the sheet has them.
    fn leg(&self, i: usize) -> f64
        requires { i < self.now.legs }
    {
        std::num::nearest_u64_to_f64(sheet::read16(self.sheet.bytes, 8 + 2 * i))
    }

    // The number of waypoint i.
    fn value(&self, i: usize) -> f64
        requires { i < self.now.sheet.points }
    {
        let at = 8 + 2 * self.legs + 12 * i + 4 * self.axis;
        std::num::nearest_i64_to_f64(sheet::read_signed(self.sheet.bytes, at))
    }

    // The slope at the start, side 0, or at the end, side 1.
    fn slope(&self, side: usize) -> f64
        requires { (self.now.sheet.kind ≡ Held) × (side < 2) }
    {
        let at = 8 + 2 * self.legs + 12 * self.sheet.points + 12 * side + 4 * self.axis;
        std::num::nearest_i64_to_f64(sheet::read_signed(self.sheet.bytes, at))
    }

    // 004: "Delta(i) = (v(i+1) - v(i))/h(i)". The waypoint after the last is the first again.
    fn delta(&self, i: usize) -> f64
        requires { i < self.now.legs }
    {
        let after = if i + 1 == self.sheet.points { 0 } else { i + 1 };
        (self.value(after) - self.value(i)) / self.leg(i)
    }

    // The row of a waypoint between two legs, the one before it first.
    fn inner(&self, before: usize, i: usize) -> Row
        requires { (before < self.now.legs) × (i < self.now.legs) }
    {
        Row {
            a: 2.0 * (self.leg(before) + self.leg(i)),
            b: self.leg(i),
            v: 0.0,
            y: self.delta(i) - self.delta(before),
        }
    }

    // The rows of the first and the last waypoint. Answers the corner: the closing leg, 0 for open ends.
    fn put_ends(&self, rows: &mut [Row]) -> f64
        requires { length rows.old ≡ self.now.sheet.points }
    {
        let last = self.sheet.points - 1;
        match self.sheet.kind {
            EndKind::Free => {
                rows[0] = FREE;
                rows[last] = FREE;
                rows[last - 1].b = 0.0;
                0.0
            }
            EndKind::Held => {
                rows[0] = Row {
                    a: 2.0 * self.leg(0),
                    b: self.leg(0),
                    v: 0.0,
                    y: self.delta(0) - self.slope(0),
                };
                rows[last] = Row {
                    a: 2.0 * self.leg(last - 1),
                    b: 0.0,
                    v: 0.0,
                    y: self.slope(1) - self.delta(last - 1),
                };
                0.0
            }
            EndKind::Closed => {
                rows[0] = self.inner(last, 0);
                rows[last] = self.inner(last - 1, last);
                self.leg(last)
            }
        }
    }

    // Puts the axis's rows, and answers the corner.
    pub fn put_rows(&self, rows: &mut [Row]) -> f64
        requires { length rows.old ≡ self.now.sheet.points }
    {
        for i in 1..self.sheet.points - 1 {
            rows[i] = self.inner(i - 1, i);
        }
        self.put_ends(rows)
    }
}
