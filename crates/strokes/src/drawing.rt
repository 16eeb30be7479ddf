// A course to be drawn.
ghost use Rattle.std.specs.Prelude.{◌≡◌, false, ◌≤◌};
ghost use Rattle.sheet.specs.Fields.{ticks as ticks_in};
ghost use Rattle.strokes.specs.Strokes.{any_bend};

use place::Laid;

// None of 1 to 9, 21 and 12 applies. P is asked where there may be no room (N22).
#[derive(Clone, Copy)]
pub struct Drawing<'a> {
    pub laid: Laid<'a>,
    pub ticks: u64,
    pub tolerance: u64,
    pub ghost is_ticks: { ticks ≡ ticks_in laid.sheet.bytes.now },
    pub ghost fine: { tolerance ≤ 1_000 },
    pub ghost bends: { any_bend laid.sheet.bytes.now laid.list.now ≡ false },
}
