// A leg whose places stand in a table, and a stretch of it. What is asked of them is part of their types.
ghost use Rattle.std.specs.Prelude.{◌+◌, ◌≤◌};
ghost use Rattle.stretch.specs.Asked.{SmallUpTo};

use crate::LegPlaces;

// A leg to be cut: its places, the tolerance, the tick at which it starts, and its ticks.
#[derive(Clone, Copy)]
pub struct TabledLeg<'a> {
    pub places: &'a LegPlaces,
    pub tolerance: u64,
    pub from: usize,
    pub ticks: usize,
    pub ghost fine: { tolerance ≤ 1_000 },
    pub ghost few: { ticks ≤ 256 },
    pub ghost near: { from + ticks ≤ 131_072 },
    pub ghost small: { SmallUpTo places.now ticks },
}

// H3: `ticks` ticks of a leg from offset `start` on.
#[derive(Clone, Copy)]
pub struct Stretch<'a> {
    pub leg: &'a TabledLeg<'a>,
    pub start: usize,
    pub ticks: usize,
    pub ghost within: { start + ticks ≤ leg.now.ticks },
}
