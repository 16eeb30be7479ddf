// A leg of a course with its bend numbers, once 12 is known not to apply to it. For strokes too, which take a leg's places in a row.
ghost use Rattle.std.specs.Prelude.{◌≡◌, false, ◌≤◌, ◌<◌};
ghost use Rattle.sheet.specs.Fields.{points as points_of, legs as legs_of, leg, waypoint};
ghost use Rattle.runner.specs.Ticks.{runner};
ghost use Rattle.place.specs.Places.{end_of, bend_of, bend_outside, place_on};

use crate::laid::Laid;
use crate::numbers::LegNumbers;
use sheet::waypoint_on;

// The leg's number, the waypoint at its end, and its ticks.
#[derive(Clone, Copy)]
pub struct Leg<'a> {
    pub laid: Laid<'a>,
    pub start: usize,
    pub end: usize,
    pub ticks: u64,
    pub ghost fits: { start < legs_of laid.sheet.bytes.now },
    pub ghost is_end: { end ≡ end_of laid.sheet.bytes.now start },
    pub ghost end_fits: { end < points_of laid.sheet.bytes.now },
    pub ghost is_ticks: { ticks ≡ leg laid.sheet.bytes.now start },
    pub ghost inside: { bend_outside laid.sheet.bytes.now laid.list.now start ≡ false },
}

// P1's numbers at a leg's two ends on one axis: the waypoints', and their bend numbers.
#[derive(Clone, Copy)]
pub struct LegEnds {
    pub v: i64,
    pub w: i64,
    pub z: i64,
    pub y: i64,
}

impl<'a> Laid<'a> {
    // The numbers at the ends of leg `i`, also where 12 applies to it; `end` is the waypoint at its end, the same on all axes.
    #[tactic(auto, using(crate::proofs::Fitting::few_legs, crate::proofs::Fitting::room))]
    #[inline(always)]
    pub fn ends_on(&self, i: usize, end: usize, axis: usize) -> LegEnds
        requires leg { (i < legs_of self.now.sheet.bytes.now) × (axis < 3) }
        requires end { (end ≡ end_of self.now.sheet.bytes.now i) × (end < points_of self.now.sheet.bytes.now) }
        ensures ends { (result.v ≡ waypoint self.now.sheet.bytes.now axis i) × (result.w ≡ waypoint self.now.sheet.bytes.now axis end) }
        ensures bends { (result.z ≡ bend_of self.now.sheet.bytes.now self.now.list.now axis i) × (result.y ≡ bend_of self.now.sheet.bytes.now self.now.list.now axis end) }
    {
        let s = self.sheet.bytes;
        let legs = self.sheet.legs();
        LegEnds {
            v: waypoint_on(s, legs, axis, i),
            w: waypoint_on(s, legs, axis, end),
            z: self.bend_of(axis, i),
            y: self.bend_of(axis, end),
        }
    }

    // Leg `i`, of which 12 was asked.
    #[tactic(auto, using(crate::proofs::Fitting::few_legs, crate::proofs::Fitting::room, crate::proofs::Fitting::end_is))]
    #[inline(always)]
    pub fn leg(&self, i: usize) -> Leg<'a>
        requires fits { i < legs_of self.now.sheet.bytes.now }
        requires inside { bend_outside self.now.sheet.bytes.now self.now.list.now i ≡ false }
        ensures { (result.laid ≡ self.now) × (result.start ≡ i) × (result.ticks ≡ leg self.now.sheet.bytes.now i) }
    {
        Leg {
            laid: *self,
            start: i,
            end: sheet::end_of(self.sheet.points, i),
            ticks: sheet::leg_length(self.sheet.bytes, i),
        }
    }
}

impl Leg<'_> {
    // The leg's numbers on an axis: 0 is north, 1 east, 2 up.
    #[inline(always)]
    pub fn numbers_on(&self, axis: usize) -> LegNumbers
        requires { axis < 3 }
        ensures h { result.h ≡ self.now.ticks }
        ensures ends { (result.v ≡ waypoint self.now.laid.sheet.bytes.now axis self.now.start) × (result.w ≡ waypoint self.now.laid.sheet.bytes.now axis self.now.end) }
        ensures bends { (result.z ≡ bend_of self.now.laid.sheet.bytes.now self.now.laid.list.now axis self.now.start) × (result.y ≡ bend_of self.now.laid.sheet.bytes.now self.now.laid.list.now axis self.now.end) }
    {
        let h = self.ticks;
        let LegEnds { v, w, z, y } = self.laid.ends_on(self.start, self.end, axis);
        LegNumbers { h, v, w, z, y }
    }

    // The place's number on an axis (P1), `offset` ticks along the leg.
    #[tactic(auto, using(integers::proofs::Made::passed), unfolding(crate::specs::Places::place_on))]
    #[inline(always)]
    pub fn place_on(&self, offset: u64, axis: usize) -> i64
        requires { (offset ≤ self.now.ticks) × (axis < 3) }
        ensures { result ≡ place_on self.now.laid.sheet.bytes.now self.now.laid.list.now (runner self.now.start offset) axis }
    {
        self.numbers_on(axis).position(offset)
    }
}
