// An accepted sheet with the lent list that has room for its bend numbers, axis after axis (L5), and what is tested of them: 9 and 12.
ghost use Rattle.std.specs.Prelude.{◌≡◌, true, false, ◌<◌, length, IfOk, IfErr};
ghost use Rattle.sheet.specs.Fields.{points as points_of, legs as legs_of};
ghost use Rattle.sheet.specs.declared.Refusal.TheVariants.{Shelf};
ghost use Rattle.layout.specs.Layout.{short};
ghost use Rattle.place.specs.Places.{bend_of, bend_outside};

use crate::bends::{bend_at, bend_outside, is_short};
use answers::OpenSheet;
use sheet::Refusal;

// None of 1 to 9 applies.
#[derive(Clone, Copy)]
pub struct Laid<'a> {
    pub sheet: OpenSheet<'a>,
    pub list: &'a [i64],
    pub ghost room: { short sheet.bytes.now (length list.now) ≡ false },
}

impl<'a> Laid<'a> {
    // N9, asked of a list.
    #[tactic(auto, using(crate::proofs::Fitting::few_points))]
    #[inline(always)]
    pub fn on(sheet: OpenSheet<'a>, list: &'a [i64]) -> Result<Laid<'a>, Refusal>
        ensures ok { IfOk result (λ l. (l.sheet.bytes.now ≡ sheet.entry.bytes.now) × (l.list.now ≡ list.now)) }
        ensures err { IfErr result (λ r. (r ≡ Shelf) × (short sheet.entry.bytes.now (length list.now) ≡ true)) }
    {
        if is_short(list, sheet.points) {
            return Err(Refusal::Shelf);
        }
        Ok(Laid { sheet, list })
    }

    // The bend number of a waypoint on an axis.
    pub fn bend_of(&self, axis: usize, i: usize) -> i64
        requires { (axis < 3) × (i < points_of self.now.sheet.bytes.now) }
        ensures { result ≡ bend_of self.now.sheet.bytes.now self.now.list.now axis i }
    {
        bend_at(self.list, self.sheet.points, axis, i)
    }

    // N12, of leg `i`: of the numbers at its two ends, on all axes.
    #[tactic(auto, using(crate::proofs::Fitting::end_is), unfolding(crate::specs::Places::bend_outside))]
    pub fn bend_outside(&self, i: usize) -> bool
        requires { i < legs_of self.now.sheet.bytes.now }
        ensures { result ≡ bend_outside self.now.sheet.bytes.now self.now.list.now i }
    {
        let end = sheet::end_of(self.sheet.points, i);
        bend_outside(self.list, self.sheet.points, i, end)
    }
}
