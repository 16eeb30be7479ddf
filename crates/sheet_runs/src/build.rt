// Sheets, built after S1 to S9. For the cases.
ghost use Rattle.std.specs.Prelude.{◌+◌, ◌*◌, ◌≤◌};

use ends::EndKind;

// The room for a sheet. (An array and no `Vec`: without a heap nothing more is assumed, and all is printed whatever memory there is.)
pub const ROOM: usize = 8192;

// S6: L. A sheet of no waypoints, which has to be refused, has no legs either.
fn leg_count(kind: EndKind, n: u16) -> u16
    ensures { result ≤ n }
{
    if n == 0 {
        0
    } else {
        ends::leg_count(kind, usize::from(n)) as u16
    }
}

// S8: the slopes of a held sheet.
fn slope_count(kind: EndKind) -> u16
    ensures { result ≤ 6 }
{
    match kind {
        EndKind::Free => 0,
        EndKind::Held => 6,
        EndKind::Closed => 0,
    }
}

// S9: the bytes before the waypoints, and all of them.
pub fn front_length(kind: EndKind, n: u16) -> usize
    ensures { result ≤ 8 + 2 * n }
{
    8 + 2 * usize::from(leg_count(kind, n))
}

pub fn length(kind: EndKind, n: u16) -> u32
    ensures { (8 ≤ result) × (result ≤ 32 + 14 * n) }
{
    8 + 2 * u32::from(leg_count(kind, n)) + 12 * u32::from(n) + 4 * u32::from(slope_count(kind))
}

// The i-th of some numbers from `least` on, one of so many.
fn number(i: u16, least: i32, count: u32) -> i32
    requires { (1 ≤ count) × (count ≤ 2000001) }
{
    least.wrapping_add((65537 * u32::from(i) % count) as i32)
}

// Other bytes from `at` on; none past the end.
pub fn put(sheet: &mut [u8], at: usize, bytes: &[u8]) {
    for (to, from) in sheet.iter_mut().skip(at).zip(bytes) {
        *to = *from;
    }
}

// The waypoints, from a place on. (A `while` with its measure, whose step alone must-fail/fill_does_not_end changes: a `for` has no step to change, and
// without a measure any `while` is refused, whether it ends or not.)
fn fill(sheet: &mut [u8], from: usize, n: u16)
    requires { from ≤ 140000 }
{
    let mut i = 0;
    while i < n {
        let at = from + 12 * usize::from(i);
        put(sheet, at, &number(i, -1000000, 2000001).to_be_bytes());
        put(sheet, at + 4, &number(i, -1000000, 2000001).to_be_bytes());
        put(sheet, at + 8, &number(i, -50000, 170001).to_be_bytes());
        i += 1;
    }
}

// A sheet of the kind and N, all numbers within their limits; its length.
pub fn plain(sheet: &mut [u8], kind: EndKind, n: u16) -> usize
    ensures { (8 ≤ result) × (result ≤ 32 + 14 * n) }
{
    let size = length(kind, n);
    put(sheet, 0, &size.to_be_bytes());
    put(sheet, 4, &[1, u64::from(kind) as u8]);
    put(sheet, 6, &n.to_be_bytes());
    for i in 0..leg_count(kind, n) {
        put(sheet, 8 + 2 * usize::from(i), &(1 + i % 256).to_be_bytes());
    }
    let front = front_length(kind, n);
    fill(sheet, front, n);
    for i in 0..slope_count(kind) {
        let at = front + 12 * usize::from(n) + 4 * usize::from(i);
        put(sheet, at, &number(i, -5000, 10001).to_be_bytes());
    }
    size as usize
}
