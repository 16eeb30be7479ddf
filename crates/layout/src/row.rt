// The row of one waypoint on one axis (R2 to R5), straight from the sheet's bytes. For the passes.
ghost use Rattle.std.specs.Prelude.{◌≡◌, ◌≤◌, ◌<◌, pos, nat_abs, ◌-ℤ◌};
ghost use Rattle.ends.specs.declared.EndKind.TheVariants.{Held};
ghost use Rattle.sheet.specs.Fields.{legs, leg, waypoint, slope};
ghost use Rattle.spline.specs.Spline.{next, prev, inner_row, held_start_row, held_end_row, row_of};
ghost use Rattle.layout.specs.Inside.{along, AtEnd, Inner, code_row, RowOfEnd, Sized, Leg};

use crate::axis::Axis;
use ends::EndKind;

// A row's two outer factors, its middle factor and its right side.
#[derive(Clone, Copy)]
pub struct Row {
    pub before: i64,
    pub middle: i64,
    pub after: i64,
    pub right: i64,
}

// R2. The middle factor is twice the outer ones together, by R6.
fn inner(g: i64, h: i64, d: i64, e: i64) -> Row
    requires { Leg g × Leg h × (nat_abs d ≤ 2_000_000) × (nat_abs e ≤ 2_000_000) }
    ensures { (result ≡ code_row (inner_row 2 1 (nat_abs g) (nat_abs h) d e)) × Sized result }
{
    let before = g * g * h;
    let after = g * h * h;
    Row {
        before,
        middle: 2 * (before + after),
        after,
        right: g * d - h * e,
    }
}

// R4.
fn held_start(h: i64, d: i64, p: i64) -> Row
    requires { Leg h × (nat_abs d ≤ 2_000_000) × (nat_abs p ≤ 5_000) }
    ensures { (result ≡ code_row (held_start_row 2 1 (nat_abs h) d p)) × Sized result }
{
    Row {
        before: 0,
        middle: 2 * h * h,
        after: h * h,
        right: d - h * p,
    }
}

// R5.
fn held_end(g: i64, e: i64, p: i64) -> Row
    requires { Leg g × (nat_abs e ≤ 2_000_000) × (nat_abs p ≤ 5_000) }
    ensures { (result ≡ code_row (held_end_row 2 1 (nat_abs g) e p)) × Sized result }
{
    Row {
        before: g * g,
        middle: 2 * g * g,
        after: 0,
        right: g * p - e,
    }
}

impl Axis<'_> {
    // h(i), the leg that starts at waypoint i.
    fn leg_at(&self, i: usize) -> i64
        requires { i < legs self.now.sheet.bytes.now }
        ensures { (result ≡ pos (leg self.now.sheet.bytes.now i)) × Leg result }
    {
        sheet::leg_length(self.sheet.bytes, i) as i64
    }

    // v(i), the waypoint's value.
    fn value_at(&self, i: usize) -> i64
        requires { i < self.now.sheet.points }
        ensures { (result ≡ waypoint self.now.sheet.bytes.now self.now.axis i) × (nat_abs result ≤ 1_000_000) }
    {
        sheet::waypoint_on(self.sheet.bytes, self.sheet.legs(), self.axis, i)
    }

    // The slope of a held course, at its start (side 0) or its end (side 1).
    fn slope_at(&self, side: usize) -> i64
        requires { (self.now.sheet.kind ≡ Held) × (side < 2) }
        ensures { (result ≡ slope self.now.sheet.bytes.now self.now.axis side) × (nat_abs result ≤ 5_000) }
    {
        let sheet = self.sheet;
        sheet::slope_on(sheet.bytes, sheet.legs(), sheet.points, self.axis, side)
    }

    // The value's step from waypoint i to waypoint j.
    fn value_step(&self, i: usize, j: usize) -> i64
        requires { (i < self.now.sheet.points) × (j < self.now.sheet.points) }
        ensures { (result ≡ waypoint self.now.sheet.bytes.now self.now.axis j -ℤ waypoint self.now.sheet.bytes.now self.now.axis i) × (nat_abs result ≤ 2_000_000) }
    {
        self.value_at(j) - self.value_at(i)
    }

    // The waypoint before i, the last one before the first.
    pub fn before(&self, i: usize) -> usize
        requires { i < self.now.sheet.points }
        ensures { (result < self.now.sheet.points) × (result ≡ prev (along self.now) i) }
    {
        if i == 0 { self.sheet.points - 1 } else { i - 1 }
    }

    // The waypoint after i, the first one after the last.
    pub fn after(&self, i: usize) -> usize
        requires { i < self.now.sheet.points }
        ensures { (result < self.now.sheet.points) × (result ≡ next (along self.now) i) }
    {
        sheet::end_of(self.sheet.points, i)
    }

    // A waypoint between two legs; round the end where the course is closed (X2).
    pub fn inner_at(&self, i: usize) -> Row
        requires { Inner self.now.sheet.kind self.now.sheet.points i }
        ensures { (result ≡ code_row (row_of 2 1 self.now.sheet.kind (along self.now) i)) × Sized result }
    {
        let p = self.before(i);
        let d = self.value_step(i, self.after(i));
        let e = self.value_step(p, i);
        inner(self.leg_at(p), self.leg_at(i), d, e)
    }

    // An end of a held course: the first waypoint, or else the last.
    fn held_at(&self, i: usize) -> Row
        requires { (self.now.sheet.kind ≡ Held) × AtEnd self.now.sheet.points i }
        ensures { (result ≡ code_row (row_of 2 1 self.now.sheet.kind (along self.now) i)) × Sized result }
    {
        if i == 0 {
            let d = self.value_step(0, 1);
            return held_start(self.leg_at(0), d, self.slope_at(0));
        }
        let p = i - 1;
        let e = self.value_step(p, i);
        held_end(self.leg_at(p), e, self.slope_at(1))
    }

    // The row of the first or the last waypoint: free ends have none (R3).
    pub fn end_row(&self, i: usize) -> Option<Row>
        requires { AtEnd self.now.sheet.points i }
        ensures { RowOfEnd result (row_of 2 1 self.now.sheet.kind (along self.now) i) }
    {
        match self.sheet.kind {
            EndKind::Free => None,
            EndKind::Held => Some(self.held_at(i)),
            EndKind::Closed => Some(self.inner_at(i)),
        }
    }
}
