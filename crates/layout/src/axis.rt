// One axis of an open sheet (0 is north, 1 east, 2 up). Its rows are in row.rt, its passes in pass.rt.
ghost use Rattle.std.specs.Prelude.{◌<◌};
ghost use Rattle.sheet.specs.Theorems.{Bounds};

use answers::OpenSheet;

// (The axis is a number, and no enum: the place of its numbers in the bytes is counted by it, S7, S8.)
#[derive(Clone, Copy)]
pub struct Axis<'a> {
    pub sheet: OpenSheet<'a>,
    pub axis: usize,
    pub ghost bounds: { Bounds sheet.bytes.now },
    pub ghost axis_fits: { axis < 3 },
}
