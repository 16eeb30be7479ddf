// Laying out a sheet's bend numbers into a lent list (group L): each axis through its own part, by forty passes.
#![tactic(auto)]

mod axis;
mod pass;
mod row;

ghost use Rattle.std.specs.Prelude.{◌≡◌, ◌++◌, ◌*◌, ◌≤◌, length, drop};
ghost use Rattle.answers.specs.Answers.{told_outcome};
ghost use Rattle.layout.specs.Layout.{all_bends, lay_out, laid_out, lay_out_by, laid_out_by};

use answers::OpenSheet;
use axis::Axis;
use sheet::Refusal;

// L5, F3: each axis is handed its own part of the list, from 0, N and 2N.
fn lay_axes(sheet: &OpenSheet<'_>, list: &mut [i64])
    requires { 3 * sheet.now.points ≤ length list.old }
    ensures { list.new ≡ all_bends sheet.now.bytes.now ++ drop (3 * sheet.now.points) list.old }
{
    let sheet = *sheet;
    let (east, up, end) = (sheet.points, 2 * sheet.points, 3 * sheet.points);
    Axis { sheet, axis: 0 }.lay(&mut list[0..east]);
    Axis { sheet, axis: 1 }.lay(&mut list[east..up]);
    Axis { sheet, axis: 2 }.lay(&mut list[up..end]);
}

// Lays the sheet's bend numbers out in the lent list (A3), of sheets with up to `limit` waypoints. Tests 1 to 9; a refused call leaves the list as it is.
pub fn lay_out_by(limit: usize, s: &[u8], list: &mut [i64]) -> Result<(), Refusal>
    ensures answer { told_outcome result ≡ lay_out_by limit s.now (length list.old) }
    ensures list { list.new ≡ laid_out_by limit s.now list.old }
{
    let reading = answers::open(limit, s);
    let Ok(sheet) = reading else {
        return Err(reading.unwrap_err());
    };
    if list.len() < 3 * sheet.points {
        return Err(Refusal::Shelf);
    }
    lay_axes(&sheet, list);
    Ok(())
}

// The station's laying out.
pub fn lay_out(s: &[u8], list: &mut [i64]) -> Result<(), Refusal>
    ensures answer { told_outcome result ≡ lay_out s.now (length list.old) }
    ensures list { list.new ≡ laid_out s.now list.old }
{
    lay_out_by(sheet::MOST_POINTS, s, list)
}
