// The reader's walk along the legs (N6, P): it carries their sum, and keeps it at every sixteenth leg for the search of a tick's leg (P7).
ghost use Rattle.std.specs.Prelude.{◌≡◌, ◌+◌, ◌*◌, ◌≤◌, ◌<◌, true, false, length, MatchOption};
ghost use Rattle.sheet.specs.Bytes.{any_below, sum_below};
ghost use Rattle.sheet.specs.Fields.{leg};
ghost use Rattle.sheet.specs.Reading.{leg_outside, most_points};
ghost use Rattle.sheet.specs.Carried.{Carried, most_sums};

use crate::bytes::read_u16;
use crate::limits::leg_outside;
use crate::{STRIDE, SUMS};

// Of `count` legs, from leg `from` on: their sum, or nothing where one of them is outside its limits. (All are summed before that is asked. A leg is read as a
// narrow number: of such the compiler has eight in a register. 32 bits are enough for the sum, and quicker than 64.)
fn add_some(s: &[u8], from: usize, count: usize) -> Option<u32>
    requires { (8 + 2 * (from + count) ≤ length s.now) × (count < 65536) }
    ensures { MatchOption result (any_below (λ i. leg_outside (leg s.now (from + i))) count ≡ true) (λ ticks. (any_below (λ i. leg_outside (leg s.now (from + i))) count ≡ false) × (ticks ≡ sum_below (λ i. leg s.now (from + i)) count) × (ticks ≤ 65535 * count)) }
{
    let mut ticks = 0u32;
    let mut outside = false;
    for i in 0..count {
        let h = read_u16(s, 8 + 2 * (from + i));
        outside |= leg_outside(u64::from(h));
        ticks += u32::from(h);
    }
    if outside { None } else { Some(ticks) }
}

// N6, and P, of all legs. (By sixteens: of a count that it knows the compiler takes several legs at a time. Of `% STRIDE` it knows that few are left, and makes
// no such code for them.)
pub fn add_legs(s: &[u8], count: usize, sums: &mut [u32; SUMS]) -> Option<u32>
    requires { (8 + 2 * count ≤ length s.now) × (count ≤ most_points) × (length sums.old ≡ most_sums) }
    ensures { MatchOption result (any_below (λ i. leg_outside (leg s.now i)) count ≡ true) (λ ticks. (any_below (λ i. leg_outside (leg s.now i)) count ≡ false) × (ticks ≡ sum_below (leg s.now) count) × Carried s.now count sums.new) }
{
    let mut ticks = 0u32;
    for b in 0..count / STRIDE {
        sums[b] = ticks;
        ticks += add_some(s, STRIDE * b, STRIDE)?;
    }
    sums[count / STRIDE] = ticks;
    let rest = add_some(s, count - count % STRIDE, count % STRIDE)?;
    Some(ticks + rest)
}
