// What every call after reading begins with (A8): a sheet that reading accepts, opened, or the refusal. For runner, layout, place, strokes, seat, join and boundary.
#![tactic(auto)]

mod opened;

ghost use Rattle.std.specs.Prelude.{◌≡◌, length};
ghost use Rattle.answers.specs.Answers.{Answered, AnsweredTimed, Carries};
ghost use Rattle.sheet.specs.Carried.{CarriedBy, most_sums};
ghost use Rattle.sheet.specs.Reading.{read_by};

pub use opened::{OpenSheet, TimedSheet};
use sheet::{Course, Refusal, SUMS};

// A2: reads the sheet, by a reader of up to `limit` waypoints.
#[inline(always)]
pub fn open(limit: usize, s: &[u8]) -> Result<OpenSheet<'_>, Refusal>
    ensures { Answered (read_by limit s.now) s.now result }
{
    let mut sums = [0u32; SUMS];
    let timed = open_with_sums(limit, s, &mut sums)?;
    Ok(timed.sheet)
}

// P7: the same with P, and the sums of the sheet's legs stay behind, for the calls that search a tick's leg.
#[inline(always)]
pub fn open_with_sums<'a>(
    limit: usize,
    s: &'a [u8],
    sums: &mut [u32; SUMS],
) -> Result<TimedSheet<'a>, Refusal>
    requires { length sums.old ≡ most_sums }
    ensures answer { AnsweredTimed (read_by limit s.now) s.now result }
    ensures sums { CarriedBy (read_by limit s.now) s.now sums.new }
{
    let course = sheet::read_with_sums(limit, s, sums)?;
    let sheet = OpenSheet {
        bytes: s,
        kind: course.kind,
        points: course.points,
    };
    Ok(TimedSheet {
        sheet,
        ticks: course.ticks,
    })
}

// The refusal that a reader's answer carries. Nothing is promised of a course. (The calls that open a sheet take `unwrap_err`, which asks that there is one.)
pub fn refusal_of(reading: Result<Course, Refusal>) -> Refusal
    ensures { Carries reading result }
{
    match reading {
        Err(r) => r,
        Ok(_) => Refusal::Torn,
    }
}
