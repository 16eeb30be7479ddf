// One axis of an accepted sheet, with the bounds that the rows rest on.
ghost use Rattle.std.specs.Prelude.{◌≡◌, ◌<◌};
ghost use Rattle.sheet.specs.Fields.{legs as legs_in};
ghost use Rattle.sheet.specs.Theorems.{Bounds};

use answers::OpenSheet;

#[derive(Clone, Copy)]
pub struct Axis<'a> {
    pub sheet: OpenSheet<'a>,
    pub legs: usize,
    pub axis: usize,
    pub ghost bounds: { Bounds sheet.bytes.now },
    pub ghost is_legs: { legs ≡ legs_in sheet.bytes.now },
    pub ghost axis_fits: { axis < 3 },
}
