// The tests before anything is written (G3, G4); those of one number are crate sheet's.
ghost use Rattle.std.specs.Prelude.{◌≡◌, pos, length, get_or};
ghost use Rattle.sheet.specs.Bytes.{any_below};
ghost use Rattle.sheet.specs.Reading.{reach_outside};
ghost use Rattle.answers.specs.Answers.{told_count};
ghost use Rattle.lists.specs.Lent.{lent};
ghost use Rattle.lists.specs.Lists.{slope_count};
ghost use Rattle.lists.specs.Answer.{some_leg_outside, some_reach_outside, some_slope_outside, write_numbers, write_sheet};

use crate::LentLists;
use ends::EndKind;
use sheet::{MOST_POINTS, Refusal};

// N6, of some legs. (By `fold`, which goes on past one that is outside: so the compiler takes several at a time, and `any` takes nearly three times as long.)
fn some_outside(legs: &[u64]) -> bool
    ensures { result ≡ some_leg_outside legs.now }
{
    legs.iter()
        .fold(false, |some, leg| some | sheet::leg_outside(*leg))
}

// N6, of all legs: by sixteens, so that the test returns at the first sixteen that have one outside.
fn legs_outside(legs: &[u64]) -> bool
    ensures { result ≡ some_leg_outside legs.now }
{
    let (sixteens, rest) = legs.as_chunks::<16>();
    sixteens.iter().any(|block| some_outside(block))
        || rest.iter().any(|leg| sheet::leg_outside(*leg))
}

// N7, of one waypoint: north, east and up. (Each by its own limits: by `any` over the three a sheet of three waypoints took a tenth longer to write.)
fn waypoint_outside(waypoint: &[i64; 3]) -> bool
    ensures { result ≡ any_below (λ axis. reach_outside axis (get_or waypoint.now axis (pos 0))) (length waypoint.now) }
{
    sheet::reach_outside(0, waypoint[0])
        | sheet::reach_outside(1, waypoint[1])
        | sheet::reach_outside(2, waypoint[2])
}

// N7, of all waypoints; numbers behind the last whole waypoint are not asked.
fn waypoints_outside(waypoints: &[i64]) -> bool
    ensures { result ≡ some_reach_outside waypoints.now }
{
    waypoints.as_chunks::<3>().0.iter().any(waypoint_outside)
}

// N8, of all slopes.
fn slopes_outside(slopes: &[i64]) -> bool
    ensures { result ≡ some_slope_outside slopes.now }
{
    slopes.iter().any(|slope| sheet::slope_outside(*slope))
}

// S8: how many slopes a kind has.
fn slope_count(kind: EndKind) -> usize
    ensures { result ≡ slope_count kind }
{
    match kind {
        EndKind::Free => 0,
        EndKind::Held => 6,
        EndKind::Closed => 0,
    }
}

// 6 to 8, then 14, of lists that make a sheet of `size` bytes.
fn answer_numbers(size: usize, course: &LentLists<'_>, room: usize) -> Result<usize, Refusal>
    ensures { told_count result ≡ write_numbers size course.now.legs.now course.now.waypoints.now course.now.slopes.now room }
{
    if legs_outside(course.legs) {
        return Err(Refusal::Leg);
    }
    if waypoints_outside(course.waypoints) {
        return Err(Refusal::Reach);
    }
    if slopes_outside(course.slopes) {
        return Err(Refusal::Slope);
    }
    if room < size {
        return Err(Refusal::Page);
    }
    Ok(size)
}

// The answer of writing into `room` bytes: 3 to 5 here, then the numbers.
pub fn answer(course: &LentLists<'_>, room: usize) -> Result<usize, Refusal>
    ensures { told_count result ≡ write_sheet (lent course.now) room }
{
    let kind = EndKind::try_from(course.kind)?;
    let count = course.waypoints.len();
    let n = count / 3;
    if n < ends::least_points(kind) {
        return Err(Refusal::Points);
    }
    if MOST_POINTS < n {
        return Err(Refusal::Points);
    }
    if count != 3 * n {
        return Err(Refusal::Size);
    }
    if course.legs.len() != ends::leg_count(kind, n) {
        return Err(Refusal::Size);
    }
    if course.slopes.len() != slope_count(kind) {
        return Err(Refusal::Size);
    }
    answer_numbers(sheet::sheet_length(kind, n), course, room)
}
