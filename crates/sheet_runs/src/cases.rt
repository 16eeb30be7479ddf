// One case each: a plain sheet, something of it changed, and its line.
ghost use Rattle.std.specs.Prelude.{◌+◌, ◌≤◌};

use crate::build::{ROOM, front_length, length, plain, put};
use crate::tell::tell;
use ends::EndKind;
use sheet::Refusal;
use std::io;

// The sheet of the kind and N with these bytes from `at` on, if there is room for it.
pub fn changed(
    rt: &impl Print,
    name: &str,
    kind: EndKind,
    n: u16,
    at: usize,
    bytes: &[u8],
) -> io::Result<()> {
    let mut room = [0; ROOM];
    let size = plain(&mut room, kind, n);
    put(&mut room, at, bytes);
    match room.get(..size) {
        Some(sheet) => tell(rt, name, sheet),
        None => Ok(()),
    }
}

// Nothing changed.
pub fn whole(rt: &impl Print, name: &str, kind: EndKind, n: u16) -> io::Result<()> {
    changed(rt, name, kind, n, 0, &[])
}

// What reading tests of a sheet by itself, in the order of the numbers (N1 to N8).
const TESTED: [Refusal; 8] = [
    Refusal::Torn,
    Refusal::Edition,
    Refusal::Ends,
    Refusal::Points,
    Refusal::Size,
    Refusal::Leg,
    Refusal::Reach,
    Refusal::Slope,
];

// Makes one of them apply to a sheet of three waypoints (7 by the first one's up; 8 if it is held), and answers its length, which 5 changes.
fn fault(sheet: &mut [u8], kind: EndKind, refusal: Refusal, size: usize) -> usize
    requires { size ≤ 9000 }
    ensures { result ≤ size + 1 }
{
    match refusal {
        Refusal::Torn => put(sheet, 0, &9999u32.to_be_bytes()),
        Refusal::Edition => put(sheet, 4, &[2]),
        Refusal::Ends => put(sheet, 5, &[3]),
        Refusal::Points => put(sheet, 6, &513u16.to_be_bytes()),
        Refusal::Size => put(sheet, 0, &(length(kind, 3) + 1).to_be_bytes()),
        Refusal::Leg => put(sheet, 8, &257u16.to_be_bytes()),
        Refusal::Reach => put(sheet, front_length(kind, 3) + 8, &120001i32.to_be_bytes()),
        _ => put(sheet, 68, &5001i32.to_be_bytes()),
    }
    if refusal == Refusal::Size {
        size + 1
    } else {
        size
    }
}

// Two faults at once, or one where both are the same.
fn two_faults(
    rt: &impl Print,
    name: &str,
    kind: EndKind,
    low: Refusal,
    high: Refusal,
) -> io::Result<()> {
    let mut room = [0; ROOM];
    let mut size = plain(&mut room, kind, 3);
    size = fault(&mut room, kind, high, size);
    if low != high {
        size = fault(&mut room, kind, low, size);
    }
    print!(rt; "{name} {} {}", u64::from(low), u64::from(high))?;
    tell(rt, "", &room[..size])
}

// Each of what reading tests with itself and each that comes after it.
pub fn faults(rt: &impl Print, name: &str, kind: EndKind) -> io::Result<()> {
    for (place, low) in TESTED.iter().enumerate() {
        for high in &TESTED[place..] {
            two_faults(rt, name, kind, *low, *high)?;
        }
    }
    Ok(())
}
