// The reader (A2, A16), in one walk over the sheet. Its largest N is a number that is handed over: 512 at the station, less on the board.
ghost use Rattle.std.specs.Prelude.{◌≡◌, cond, ◌||◌, [], ◌∷◌, ◌+◌, ◌*◌, ◌≤◌, ◌<◌, ltb, length};
ghost use Rattle.sheet.specs.Answers.{told};
ghost use Rattle.sheet.specs.Bytes.{be16, be32, signed32, any_below};
ghost use Rattle.sheet.specs.Fields.{kind_field, kind_of, waypoints_from, waypoint, slopes_from, slope_bytes, sheet_length};
ghost use Rattle.sheet.specs.Reading.{reach_outside, slope_outside, slopes_outside, most_points, longest_sheet, lowest, read_by, read_sheet};
ghost use Rattle.sheet.specs.Carried.{CarriedBy, most_sums};
ghost use Rattle.sheet.specs.declared.Refusal.TheVariants.{Edition, Ends, Points, Size, Leg, Reach, Slope, Board};

use crate::bytes::{read_signed, read16, read32};
use crate::legs::add_legs;
use crate::limits::{bits_outside, slope_outside};
use crate::{Course, LONGEST_SHEET, MOST_POINTS, Refusal, STRIDE, SUMS};
use ends::EndKind;

// S4: the kind of a byte, whichever it is: 0, 1 and 2 are the three kinds' own, and any other is taken for the last. (The reader goes by `try_from`, which tells
// these apart for N3.)
pub fn kind_of(byte: u8) -> EndKind
    ensures { result ≡ kind_of byte }
{
    match byte {
        0 => EndKind::Free,
        1 => EndKind::Held,
        _ => EndKind::Closed,
    }
}

// S9: the bytes of a sheet. For lists too.
pub fn sheet_length(kind: EndKind, points: usize) -> usize
    requires { (1 ≤ points) × (points < 65536) }
    ensures { result ≡ sheet_length kind points }
{
    let plain = 8 + 2 * ends::leg_count(kind, points) + 12 * points;
    match kind {
        EndKind::Free => plain,
        EndKind::Held => plain + 24,
        EndKind::Closed => plain,
    }
}

// Holds the constant against the definition; nothing calls it.
fn longest_sheet() -> usize
    ensures { result ≡ longest_sheet }
{
    LONGEST_SHEET
}

// N7, of the waypoint whose numbers start at `at`.
fn waypoint_outside(s: &[u8], at: usize) -> bool
    requires { at + 12 ≤ length s.now }
    ensures { result ≡ any_below (λ axis. reach_outside axis (signed32 (be32 s.now (at + 4 * axis)))) 3 }
{
    bits_outside(0, read32(s, at))
        | bits_outside(1, read32(s, at + 4))
        | bits_outside(2, read32(s, at + 8))
}

// N7, of `count` waypoints, whose numbers start at `from`: all are asked, also past one that is outside, which the compiler makes of several at a time.
fn some_outside(s: &[u8], from: usize, count: usize) -> bool
    requires { from + 12 * count ≤ length s.now }
    ensures { result ≡ any_below (λ k. any_below (λ axis. reach_outside axis (signed32 (be32 s.now (from + 12 * k + 4 * axis)))) 3) count }
{
    let mut outside = false;
    for k in 0..count {
        outside |= waypoint_outside(s, from + 12 * k);
    }
    outside
}

// N7, of all waypoints: by sixteens, as the legs. (With a return at the first number that is outside a sheet of 512 waypoints took three times as long, and by a
// third more or less as the code came to lie.)
fn waypoints_outside(s: &[u8], from: usize, count: usize) -> bool
    requires { (from ≡ waypoints_from s.now) × (from + 12 * count ≤ length s.now) }
    ensures { result ≡ any_below (λ i. any_below (λ axis. reach_outside axis (waypoint s.now axis i)) 3) count }
{
    for b in 0..count / STRIDE {
        if some_outside(s, from + 12 * (STRIDE * b), STRIDE) {
            return true;
        }
    }
    some_outside(s, from + 12 * (count - count % STRIDE), count % STRIDE)
}

// N8, of the side whose slopes start at `at`.
fn side_outside(s: &[u8], at: usize) -> bool
    requires { at + 12 ≤ length s.now }
    ensures { result ≡ any_below (λ axis. slope_outside (signed32 (be32 s.now (at + 4 * axis)))) 3 }
{
    slope_outside(read_signed(s, at))
        | slope_outside(read_signed(s, at + 4))
        | slope_outside(read_signed(s, at + 8))
}

// N8: slopes are a held course's alone (S8).
fn slopes_outside(s: &[u8], kind: EndKind, from: usize) -> bool
    requires { (from ≡ slopes_from s.now) × (from + slope_bytes kind ≤ length s.now) }
    ensures { result ≡ slopes_outside kind s.now }
{
    match kind {
        EndKind::Free => false,
        EndKind::Held => side_outside(s, from) | side_outside(s, from + 12),
        EndKind::Closed => false,
    }
}

// N4 and N23: more waypoints than any sheet may have, or than the reader has room for.
fn is_over(limit: usize, n: usize) -> bool
    ensures { result ≡ (ltb most_points n || ltb limit n) }
{
    (MOST_POINTS < n) | (limit < n)
}

// Which of the two. (Behind one test: as two branches in `read_fields` a small sheet takes twice as long.)
fn over(n: usize) -> Refusal
    ensures { result ≡ cond (ltb most_points n) Points Board }
{
    if MOST_POINTS < n {
        return Refusal::Points;
    }
    Refusal::Board
}

// N6 to N8, of a sheet to which no lower number applies: the first that does, or the course (A1).
fn read_body(s: &[u8], kind: EndKind, n: usize, sums: &mut [u32; SUMS]) -> Result<Course, Refusal>
    requires { (kind ≡ kind_of (kind_field s.now)) × (n ≡ be16 s.now 6) × (2 ≤ n) × (n ≤ most_points) × (length s.now ≡ sheet_length kind n) × (length sums.old ≡ most_sums) }
    ensures answer { result ≡ lowest most_points s.now (Leg ∷ Reach ∷ Slope ∷ []) }
    ensures sums { CarriedBy result s.now sums.new }
{
    let count = ends::leg_count(kind, n);
    let Some(ticks) = add_legs(s, count, sums) else {
        return Err(Refusal::Leg);
    };
    let from = 8 + 2 * count;
    if waypoints_outside(s, from, n) {
        return Err(Refusal::Reach);
    }
    if slopes_outside(s, kind, from + 12 * n) {
        return Err(Refusal::Slope);
    }
    Ok(Course {
        kind,
        points: n,
        ticks: u64::from(ticks),
    })
}

// N2 to N5 and N23, of a sheet that is not torn, then the body. (Apart from N1: behind seven tests in one function the compiler takes the body for unlikely, and the
// answer goes through memory twice, which is half of a small sheet's time.)
fn read_fields(limit: usize, s: &[u8], sums: &mut [u32; SUMS]) -> Result<Course, Refusal>
    requires { (8 ≤ length s.now) × (length sums.old ≡ most_sums) }
    ensures answer { result ≡ lowest limit s.now (Edition ∷ Ends ∷ Points ∷ Board ∷ Size ∷ Leg ∷ Reach ∷ Slope ∷ []) }
    ensures sums { CarriedBy result s.now sums.new }
{
    if s[4] != 1 {
        return Err(Refusal::Edition);
    }
    let kind = EndKind::try_from(u64::from(s[5]))?;
    let n = read16(s, 6) as usize;
    if n < ends::least_points(kind) {
        return Err(Refusal::Points);
    }
    if is_over(limit, n) {
        return Err(over(n));
    }
    if s.len() != sheet_length(kind, n) {
        return Err(Refusal::Size);
    }
    read_body(s, kind, n, sums)
}

// N1, then the fields: whatever the bytes, they are read or refused (D1). The sums of a course's legs stay behind (P7).
pub fn read_with_sums(limit: usize, s: &[u8], sums: &mut [u32; SUMS]) -> Result<Course, Refusal>
    requires { length sums.old ≡ most_sums }
    ensures answer { told result ≡ told (read_by limit s.now) }
    ensures sums { CarriedBy result s.now sums.new }
{
    let length = s.len();
    if length < 8 {
        return Err(Refusal::Torn);
    }
    if read32(s, 0) != length as u64 {
        return Err(Refusal::Torn);
    }
    read_fields(limit, s, sums)
}

// The answer alone, for the calls that search no tick's leg.
pub fn read_by(limit: usize, s: &[u8]) -> Result<Course, Refusal>
    ensures { told result ≡ told (read_by limit s.now) }
{
    let mut sums = [0u32; SUMS];
    read_with_sums(limit, s, &mut sums)
}

// The station's reading. (One line over `read_by`, since callers and papers know it by this name; so are the other calls of the station and the board.)
pub fn read(s: &[u8]) -> Result<Course, Refusal>
    ensures { told result ≡ told (read_sheet s.now) }
{
    read_by(MOST_POINTS, s)
}
