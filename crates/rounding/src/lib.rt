// Rounding division (L4) in the form F5: quotient and remainder of signed division, the remainder deciding, for every numerator and
// every divisor above 0; no sign is branched on. For layout and place.
#![tactic(auto)]

ghost use Rattle.std.specs.Prelude.{cond, ◌≡◌, pos, nat_abs, ◌*ℤ◌, ◌≤ℤ◌};
ghost use Rattle.std.specs.Int.Signed.{lt_z};
ghost use Rattle.rounding.specs.Rounded.{rounded};

// 0 where r is less than half of the divisor, otherwise 1
fn goes_up(r: i64, d: i64) -> i64
    requires { pos 1 ≤ℤ d }
    ensures { result ≡ cond (lt_z (pos 2 *ℤ r) d) (pos 0) (pos 1) }
{
    if r < d - d / 2 { 0 } else { 1 }
}

// L4: n / d, rounded. The remainder has the sign of n, so that at most one of the two tests gives 1: away from zero.
pub fn rounded(n: i64, d: i64) -> i64
    requires { pos 1 ≤ℤ d }
    ensures { result ≡ rounded n (nat_abs d) }
{
    let q = n / d;
    let r = n % d;
    q + (goes_up(r, d) - goes_up(-r, d))
}
