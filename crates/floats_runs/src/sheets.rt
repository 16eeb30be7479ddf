// Made sheets, accepted ones of one kind: size, legs and numbers drawn at random.
ghost use Rattle.std.specs.Prelude.{◌+◌, ◌*◌, ◌≤◌, length};

use crate::drawing::Drawing;
use ends::EndKind;

// The room for a sheet. (An array and no `Vec`: without a heap nothing more is assumed, and all is printed whatever memory there is.)
pub const ROOM: usize = 7200;

// How far below 0 and above it a number may lie.
#[derive(Clone, Copy)]
struct Span {
    below: u32,
    above: u32,
    ghost below_fits: { below ≤ 1000000 },
    ghost above_fits: { above ≤ 1000000 },
}

// N7, of north and east; of up; N8.
const PLANE: Span = Span {
    below: 1000000,
    above: 1000000,
};

const HEIGHT: Span = Span {
    below: 50000,
    above: 120000,
};

const SLOPE: Span = Span {
    below: 5000,
    above: 5000,
};

// A number of 0 to `most`: any, or one of the two ends.
fn picked(drawn: u32, most: u32, ends_alone: bool) -> u32
    requires { most ≤ 2000000 }
    ensures { result ≤ most }
{
    if ends_alone {
        if drawn % 2 == 0 { 0 } else { most }
    } else {
        drawn % (most + 1)
    }
}

// A leg of one tick, of few, or of any length.
fn leg_of(drawn: u32, sort: u32) -> u16
    ensures { result ≤ 256 }
{
    match sort {
        0 => 1,
        1 => 1 + (drawn % 4) as u16,
        _ => 1 + (drawn % 256) as u16,
    }
}

// A size of 3 to 512 waypoints, mostly small.
fn size_of(drawn: u32) -> u16
    ensures { (3 ≤ result) × (result ≤ 512) }
{
    match drawn / 65536 % 16 {
        0 => 3 + (drawn % 510) as u16,
        1..=3 => 3 + (drawn % 60) as u16,
        _ => 3 + (drawn % 10) as u16,
    }
}

// S8: the slopes of a held sheet.
fn slope_count(kind: EndKind) -> usize
    ensures { result ≤ 6 }
{
    match kind {
        EndKind::Held => 6,
        EndKind::Free | EndKind::Closed => 0,
    }
}

// Writes bytes from `at` on.
fn put(sheet: &mut [u8], at: usize, bytes: &[u8])
    requires { at + length bytes.now ≤ length sheet.old }
{
    sheet[at..at + bytes.len()].copy_from_slice(bytes);
}

// Writes a number for each of the spans, from `start` on.
fn put_numbers(
    sheet: &mut [u8],
    start: usize,
    drawing: &mut Drawing,
    spans: &[Span],
    ends_alone: bool,
)
    requires { start + 4 * length spans.now ≤ length sheet.old }
{
    for (i, span) in spans.iter().enumerate() {
        let number = picked(drawing.next(), span.below + span.above, ends_alone);
        let signed = number as i32 - span.below as i32;
        put(sheet, start + 4 * i, &signed.to_be_bytes());
    }
}

// Makes an accepted sheet of a kind, and answers its length. Every third one has all its numbers at the ends of their range.
pub fn make(sheet: &mut [u8], drawing: &mut Drawing, kind: EndKind) -> usize
    requires { 7200 ≤ length sheet.old }
    ensures { result ≤ 7200 }
{
    let first = drawing.next();
    let ends_alone = first % 3 == 0;
    let points = size_of(first);
    let legs = ends::leg_count(kind, usize::from(points));
    let slopes = slope_count(kind);
    // (One number is left out.)
    drawing.next();
    let waypoints = 8 + 2 * legs;
    let end = waypoints + 12 * usize::from(points);
    let length = end + 4 * slopes;
    put(sheet, 0, &(length as u32).to_be_bytes());
    put(sheet, 4, &[1, u64::from(kind) as u8]);
    put(sheet, 6, &points.to_be_bytes());
    for i in 0..legs {
        let leg = leg_of(drawing.next(), first / 3 % 4);
        put(sheet, 8 + 2 * i, &leg.to_be_bytes());
    }
    for i in 0..usize::from(points) {
        let spans = [PLANE, PLANE, HEIGHT];
        put_numbers(sheet, waypoints + 12 * i, drawing, &spans, ends_alone);
    }
    for i in 0..slopes {
        put_numbers(sheet, end + 4 * i, drawing, &[SLOPE], ends_alone);
    }
    length
}
