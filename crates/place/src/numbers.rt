// P1's numbers of a leg on one axis, and the position on it: one function for all axes.
ghost use Rattle.std.specs.Prelude.{◌≡◌, ◌≤◌};
ghost use Rattle.spline.specs.Position.{position};
ghost use Rattle.place.specs.Asked.{OnLeg};

// The leg's ticks, the waypoints' numbers at its two ends, and their bend numbers: nothing that is made of them overflows 64 bits.
#[derive(Clone, Copy)]
pub struct LegNumbers {
    pub h: u64,
    pub v: i64,
    pub w: i64,
    pub z: i64,
    pub y: i64,
    pub ghost within: { OnLeg h 0 v w z y },
}

impl LegNumbers {
    // P1, at `u` ticks along the leg.
    pub fn position(&self, u: u64) -> i64
        requires { u ≤ self.now.h }
        ensures { result ≡ position self.now.h u self.now.v self.now.w self.now.z self.now.y }
    {
        let h = self.h;
        let past = u as i64;
        let left = (h - u) as i64;
        let chord = 65536 * (past * self.w + left * self.v);
        let bend = past * left * ((h + u) as i64 * self.y + (2 * h - u) as i64 * self.z);
        rounding::rounded(chord - bend, 65536 * (h as i64))
    }
}
