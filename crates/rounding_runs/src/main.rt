// Runs `rounded` and writes a line `n d result` for each pair: the halves of W1 to W3 (5.5, -5.5, -39,321.5), multiples, numbers
// just below, at and above a half on both sides of zero, and the ends of i64. The pairs lie in an array that a loop reads,
// so that the division is done when the program runs and not when it is compiled.
#![tactic(auto)]

use rounding::rounded;
use std::io;

// The largest even number of i64
const EVEN: i64 = i64::MAX - 1;

fn main(rt: HostRuntime) -> io::Result<()> {
    let pairs = [
        (11, 2),
        (-11, 2),
        (-157286, 4),
        (0, 5),
        (12, 3),
        (-12, 3),
        (9, 4),
        (10, 4),
        (11, 4),
        (-9, 4),
        (-10, 4),
        (-11, 4),
        (12, 5),
        (13, 5),
        (-12, 5),
        (-13, 5),
        (i64::MIN, 1),
        (i64::MIN, 2),
        (i64::MIN, 3),
        (i64::MIN, i64::MAX),
        (i64::MAX, 1),
        (i64::MAX, 2),
        (i64::MAX, 3),
        (i64::MAX, i64::MAX),
        (4611686018427387903, i64::MAX),
        (4611686018427387904, i64::MAX),
        (-4611686018427387903, i64::MAX),
        (-4611686018427387904, i64::MAX),
        (4611686018427387902, EVEN),
        (4611686018427387903, EVEN),
        (-4611686018427387903, EVEN),
        (-4611686018427387904, EVEN),
    ];
    for (n, d) in pairs {
        // `rounded` asks for a divisor above 0.
        if 1 <= d {
            println!(rt; "{n} {d} {}", rounded(n, d))?;
        }
    }
    Ok(())
}
