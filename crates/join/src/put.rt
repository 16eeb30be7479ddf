// The joined sheet's bytes put into a slice (J3), after all tests. For join.
ghost use Rattle.std.specs.Prelude.{◌≡◌, ◌≤◌, length};
ghost use Rattle.lists.specs.Lists.{size_of};
ghost use Rattle.writer.specs.Inside.{over};
ghost use Rattle.join.specs.Joining.{joined_lists, joined_sheet};

use crate::pair::FreePair;

// A head, then the two sheets' own bytes: the legs of both, the waypoints of the first, those of the second behind its first.
#[tactic(auto, using(crate::proofs::Course::pair_bounds, crate::proofs::Course::pair_size))]
pub fn put_joined(pair: &FreePair<'_>, size: usize, sheet: &mut [u8])
    requires { (size ≡ size_of (joined_lists pair.now.first.bytes.now pair.now.second.bytes.now)) × (size ≤ length sheet.old) }
    ensures { sheet.new ≡ over (joined_sheet pair.now.first.bytes.now pair.now.second.bytes.now) 0 sheet.old }
{
    let first = pair.first.bytes;
    let second = pair.second.bytes;
    let n = pair.first.points;
    let m = pair.second.points;
    let legs = 2 * (n - 1);
    let more = 2 * (m - 1);
    let from = 8 + legs + more;
    let points = 12 * n;
    writer::put_head(sheet, size as u64, 0, pair.points() as u64);
    writer::copy_part(first, 8, legs, sheet, 8);
    writer::copy_part(second, 8, more, sheet, 8 + legs);
    writer::copy_part(first, 8 + legs, points, sheet, from);
    writer::copy_part(second, 20 + more, 12 * (m - 1), sheet, from + points);
}
