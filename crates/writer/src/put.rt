// A sheet's bytes put into a slice (group S), after all tests.
ghost use Rattle.std.specs.Prelude.{◌≡◌, ℕ, ◌+◌, ◌*◌, ◌≤◌, length, take, drop, slice_get};
ghost use mathlib.Core.List.{flat_map};
ghost use Rattle.std.specs.Int.{bytes_high_first};
ghost use Rattle.lists.specs.Lists.{size_of};
ghost use Rattle.lists.specs.Lent.{lent};
ghost use Rattle.writer.specs.Sheets.{head_bytes, written_sheet};
ghost use Rattle.lists.specs.Inside.{Writable};
ghost use Rattle.writer.specs.Inside.{over};

use lists::LentLists;

// S1: the lowest N bytes of a number, the highest of them first, which the compiler stores at once.
fn put<const N: usize>(out: &mut [u8], at: usize, x: u64)
    requires { (N ≤ 8) × (at + N ≤ length out.old) }
    ensures { out.new ≡ over (bytes_high_first N x) at out.old }
{
    copy_part(&x.to_be_bytes(), 8 - N, N, out, at);
}

// S6 to S8: numbers of N bytes each, from `from` on: the legs, the waypoints or the slopes; `bits` gives what is put of one. (By places: of
// `chunks_exact_mut` the check knows afterwards only the length.)
fn put_all<T: Copy, F: Fn(T) -> u64, const N: usize>(
    out: &mut [u8],
    from: usize,
    numbers: &[T],
    bits: F,
)
    requires { (N ≤ 8) × (from + N * length numbers.now ≤ length out.old) × F.IsAlwaysCallable bits }
    ensures { (f : T → ℕ) → ((i : ℕ) (x : T) (r : ℕ) → slice_get numbers.now i ≡ Some x → F.post bits x r → r ≡ f x) → out.new ≡ over (flat_map (λ x. bytes_high_first N (f x)) numbers.now) from out.old }
{
    for (i, x) in numbers.iter().enumerate() {
        put::<N>(out, from + N * i, bits(*x));
    }
}

// S2 to S5: the count of bytes, version 1, the kind, N. (The kind is a number still: an `EndKind` would ask more of a caller.)
pub fn put_head(out: &mut [u8], size: u64, kind: u64, n: u64)
    requires { (8 ≤ length out.old) × (kind ≤ 2) }
    ensures { out.new ≡ over (head_bytes size kind n) 0 out.old }
{
    put::<4>(out, 0, size);
    put::<2>(out, 4, 256 + kind);
    put::<2>(out, 6, n);
}

// The `count` bytes of `s` from `from` on, put into `out` from `at` on: a section of one sheet that stands in another as well.
pub fn copy_part(s: &[u8], from: usize, count: usize, out: &mut [u8], at: usize)
    requires { (from + count ≤ length s.now) × (at + count ≤ length out.old) }
    ensures { out.new ≡ over (take count (drop from s.now)) at out.old }
{
    out[at..at + count].copy_from_slice(&s[from..from + count]);
}

// G5: the whole sheet, of lists that nothing refuses.
pub fn put_sheet(course: &LentLists<'_>, size: usize, sheet: &mut [u8])
    requires { Writable (lent course.now) × (size ≡ size_of (lent course.now)) × (size ≤ length sheet.old) }
    ensures { sheet.new ≡ over (written_sheet (lent course.now)) 0 sheet.old }
{
    let numbers = course.waypoints.len();
    let from = 8 + 2 * course.legs.len();
    let end = from + 4 * numbers;
    put_head(sheet, size as u64, course.kind, (numbers / 3) as u64);
    put_all::<u64, _, 2>(sheet, 8, course.legs, |leg| leg);
    put_all::<i64, _, 4>(sheet, from, course.waypoints, i64::cast_unsigned);
    put_all::<i64, _, 4>(sheet, end, course.slopes, i64::cast_unsigned);
}
