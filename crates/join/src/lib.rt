// Two sheets joined into one (group J), written into a lent slice. For exports.
#![tactic(auto)]

mod pair;
mod put;
mod shared;

ghost use Rattle.std.specs.Prelude.{◌≡◌, length};
ghost use Rattle.answers.specs.Answers.{told_count};
ghost use Rattle.join.specs.Joining.{is_shut, join_sheets, joined_into};

use ends::EndKind;
use pair::FreePair;
use sheet::{MOST_POINTS, Refusal};

// N16, of one sheet.
fn is_shut(kind: EndKind) -> bool
    ensures { result ≡ is_shut kind }
{
    match kind {
        EndKind::Free => false,
        EndKind::Held | EndKind::Closed => true,
    }
}

// Writes the joined sheet at the slice's front (J1). Tests 1 to 8 of the first sheet, then of the second, 16, 17, 18, and 14 last; a refused call leaves the
// slice as it is.
pub fn join(first: &[u8], second: &[u8], sheet: &mut [u8]) -> Result<usize, Refusal>
    ensures answer { told_count result ≡ join_sheets first.now second.now (length sheet.old) }
    ensures sheet { sheet.new ≡ joined_into first.now second.now sheet.old }
{
    let reading = answers::open(MOST_POINTS, first);
    let Ok(first) = reading else {
        return Err(reading.unwrap_err());
    };
    let other = answers::open(MOST_POINTS, second);
    let Ok(second) = other else {
        return Err(other.unwrap_err());
    };
    if is_shut(first.kind) | is_shut(second.kind) {
        return Err(Refusal::Shut);
    }
    let pair = FreePair { first, second };
    if shared::is_apart(&pair) {
        return Err(Refusal::Apart);
    }
    let count = pair.points();
    if MOST_POINTS < count {
        return Err(Refusal::Crowded);
    }
    let size = sheet::sheet_length(EndKind::Free, count);
    if sheet.len() < size {
        return Err(Refusal::Page);
    }
    put::put_joined(&pair, size, sheet);
    Ok(size)
}
