// Writing a sheet from its lists into a lent slice (group G). For exports, and for calls that make sheets.
#![tactic(auto)]

mod put;

ghost use Rattle.std.specs.Prelude.{◌≡◌, length};
ghost use Rattle.answers.specs.Answers.{told_count};
ghost use Rattle.lists.specs.Lists.{lists};
ghost use Rattle.lists.specs.Answer.{write_sheet};
ghost use Rattle.writer.specs.Writing.{written_into};

use lists::LentLists;
pub use put::{copy_part, put_head};
use sheet::Refusal;

// Writes the sheet of the lists at the slice's front (G1). Tests 3 to 8, then 14; a refused call leaves the slice as it is.
// (The lists one by one, as `station_write` lends them.)
pub fn write(
    kind: u64,
    legs: &[u64],
    waypoints: &[i64],
    slopes: &[i64],
    sheet: &mut [u8],
) -> Result<usize, Refusal>
    ensures answer { told_count result ≡ write_sheet (lists kind legs.now waypoints.now slopes.now) (length sheet.old) }
    ensures sheet { sheet.new ≡ written_into (lists kind legs.now waypoints.now slopes.now) sheet.old }
{
    let course = LentLists {
        kind,
        legs,
        waypoints,
        slopes,
    };
    let size = lists::answer(&course, sheet.len())?;
    put::put_sheet(&course, size, sheet);
    Ok(size)
}
