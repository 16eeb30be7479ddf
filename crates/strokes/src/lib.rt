// Strokes for the tablet (A15, group H): a course as few straight strokes, told by the ticks at which they end. For the C boundary too.
#![tactic(auto)]

mod course;
mod drawing;
mod leg;

ghost use Rattle.std.specs.Prelude.{◌≡◌, length};
ghost use Rattle.answers.specs.Answers.{told_count};
ghost use Rattle.strokes.specs.Strokes.{grain_outside, any_bend, strokes_answer, drawn_into};

use drawing::Drawing;
use place::Laid;
use sheet::{MOST_POINTS, Refusal, SUMS};

// N21, in millimetres.
pub const MOST_TOLERANCE: i64 = 1000;

// N21.
fn grain_outside(tolerance: i64) -> bool
    ensures { result ≡ grain_outside tolerance }
{
    !(0..=MOST_TOLERANCE).contains(&tolerance)
}

// N12, of every leg.
fn any_bend(laid: &Laid<'_>) -> bool
    ensures { result ≡ any_bend laid.now.sheet.bytes.now laid.now.list.now }
{
    (0..laid.sheet.legs()).any(|i| laid.bend_outside(i))
}

// A15: tests 1 to 9, 21, 12 and 22, and how many ends stand in the list; a refused call leaves it as it was.
pub fn strokes(s: &[u8], list: &[i64], tolerance: i64, ends: &mut [u64]) -> Result<usize, Refusal>
    ensures told { told_count result ≡ strokes_answer s.now list.now tolerance (length ends.old) }
    ensures ends { ends.new ≡ drawn_into s.now list.now tolerance ends.old }
{
    let mut sums = [0u32; SUMS];
    let reading = answers::open_with_sums(MOST_POINTS, s, &mut sums);
    let Ok(timed) = reading else {
        return Err(reading.unwrap_err());
    };
    let laid = Laid::on(timed.sheet, list)?;
    if grain_outside(tolerance) {
        return Err(Refusal::Grain);
    }
    if any_bend(&laid) {
        return Err(Refusal::Bend);
    }
    // (A cast, and no `try_from`: 21 has let no other number through.)
    let drawing = Drawing {
        laid,
        ticks: timed.ticks,
        tolerance: tolerance as u64,
    };
    drawing.draw(ends)
}
