// Runs the reader over sheets that are built here, and prints a line for each: its name, the number (0 where it is read) and the values.
// The sheets at the limits (W10, W14), and each refusal alone and with each other one (A1). `stdout` was worked out separately.
#![tactic(auto)]

mod build;
mod cases;
mod tell;

use build::{ROOM, plain, put};
use cases::{changed, faults, whole};
use ends::EndKind;
use std::io;
use tell::tell;

fn main(rt: HostRuntime) -> io::Result<()> {
    short(&rt)?;
    heads(&rt)?;
    free_sizes(&rt)?;
    other_sizes(&rt)?;
    legs(&rt)?;
    plan(&rt)?;
    heights(&rt)?;
    slopes(&rt)?;

    faults(&rt, "free", EndKind::Free)?;
    faults(&rt, "held", EndKind::Held)?;
    faults(&rt, "closed", EndKind::Closed)
}

// N1: too few bytes, or another count than the sheet states.
fn short(rt: &impl Print) -> io::Result<()> {
    tell(rt, "empty", &[])?;
    tell(rt, "seven bytes", &[0; 7])?;
    tell(rt, "eight zeros", &[0; 8])?;
    let mut room = [0; ROOM];
    let size = plain(&mut room, EndKind::Free, 3);
    tell(rt, "whole", &room[..size])?;
    tell(rt, "a byte missing", &room[..size - 1])?;
    tell(rt, "a byte more", &room[..size + 1])?;
    put(&mut room, 0, &[1]);
    tell(rt, "length with its top byte set", &room[..size])
}

// N2 and N3.
fn heads(rt: &impl Print) -> io::Result<()> {
    changed(rt, "version 0", EndKind::Held, 3, 4, &[0])?;
    changed(rt, "version 2", EndKind::Held, 3, 4, &[2])?;
    changed(rt, "version 255", EndKind::Held, 3, 4, &[255])?;
    changed(rt, "kind 3", EndKind::Held, 3, 5, &[3])?;
    changed(rt, "kind 255", EndKind::Held, 3, 5, &[255])
}

// N4, free: 2 to 512.
fn free_sizes(rt: &impl Print) -> io::Result<()> {
    whole(rt, "free, N = 0", EndKind::Free, 0)?;
    whole(rt, "free, N = 1", EndKind::Free, 1)?;
    whole(rt, "free, N = 2", EndKind::Free, 2)?;
    whole(rt, "free, N = 3", EndKind::Free, 3)?;
    whole(rt, "free, N = 256", EndKind::Free, 256)?;
    whole(rt, "free, N = 512", EndKind::Free, 512)?;
    whole(rt, "free, N = 513", EndKind::Free, 513)
}

// N4, held: 2 to 512, and 513 is not torn though it has 7,212 bytes; closed: 3 to 512. Then N with its top byte set.
fn other_sizes(rt: &impl Print) -> io::Result<()> {
    whole(rt, "held, N = 1", EndKind::Held, 1)?;
    whole(rt, "held, N = 2", EndKind::Held, 2)?;
    whole(rt, "held, N = 512", EndKind::Held, 512)?;
    whole(rt, "held, N = 513", EndKind::Held, 513)?;
    whole(rt, "closed, N = 1", EndKind::Closed, 1)?;
    whole(rt, "closed, N = 2", EndKind::Closed, 2)?;
    whole(rt, "closed, N = 3", EndKind::Closed, 3)?;
    whole(rt, "closed, N = 512", EndKind::Closed, 512)?;
    whole(rt, "closed, N = 513", EndKind::Closed, 513)?;
    changed(rt, "N of 65,283", EndKind::Held, 3, 6, &[255])
}

// N6: a leg is 1 to 256, the closing leg too. The first stands at byte 8.
fn legs(rt: &impl Print) -> io::Result<()> {
    changed(rt, "leg 1", EndKind::Free, 3, 8, &1u16.to_be_bytes())?;
    changed(rt, "leg 256", EndKind::Free, 3, 8, &256u16.to_be_bytes())?;
    changed(rt, "leg 257", EndKind::Free, 3, 8, &257u16.to_be_bytes())?;
    changed(rt, "leg 0", EndKind::Free, 3, 8, &0u16.to_be_bytes())?;
    changed(
        rt,
        "leg 65,535",
        EndKind::Free,
        3,
        8,
        &65535u16.to_be_bytes(),
    )?;
    changed(
        rt,
        "last leg 257",
        EndKind::Free,
        3,
        10,
        &257u16.to_be_bytes(),
    )?;
    changed(
        rt,
        "held, last leg 0",
        EndKind::Held,
        3,
        10,
        &0u16.to_be_bytes(),
    )?;
    changed(
        rt,
        "closing leg 256",
        EndKind::Closed,
        3,
        12,
        &256u16.to_be_bytes(),
    )?;
    changed(
        rt,
        "closing leg 257",
        EndKind::Closed,
        3,
        12,
        &257u16.to_be_bytes(),
    )?;
    changed(
        rt,
        "closing leg 0",
        EndKind::Closed,
        3,
        12,
        &0u16.to_be_bytes(),
    )
}

// N7 on north and east: -1,000,000 to 1,000,000. A free sheet's first waypoint stands at byte 12, a held one's second at byte 24.
fn plan(rt: &impl Print) -> io::Result<()> {
    changed(
        rt,
        "north 1,000,000",
        EndKind::Free,
        3,
        12,
        &1000000i32.to_be_bytes(),
    )?;
    changed(
        rt,
        "north 1,000,001",
        EndKind::Free,
        3,
        12,
        &1000001i32.to_be_bytes(),
    )?;
    changed(
        rt,
        "north -1,000,000",
        EndKind::Free,
        3,
        12,
        &(-1000000i32).to_be_bytes(),
    )?;
    changed(
        rt,
        "north -1,000,001",
        EndKind::Free,
        3,
        12,
        &(-1000001i32).to_be_bytes(),
    )?;
    changed(rt, "north -1", EndKind::Free, 3, 12, &(-1i32).to_be_bytes())?;
    changed(
        rt,
        "north 2,147,483,647",
        EndKind::Free,
        3,
        12,
        &2147483647i32.to_be_bytes(),
    )?;
    changed(
        rt,
        "north -2,147,483,648",
        EndKind::Free,
        3,
        12,
        &(-2147483648i32).to_be_bytes(),
    )?;
    changed(
        rt,
        "east 1,000,000",
        EndKind::Held,
        3,
        28,
        &1000000i32.to_be_bytes(),
    )?;
    changed(
        rt,
        "east 1,000,001",
        EndKind::Held,
        3,
        28,
        &1000001i32.to_be_bytes(),
    )?;
    changed(
        rt,
        "east -1,000,000",
        EndKind::Held,
        3,
        28,
        &(-1000000i32).to_be_bytes(),
    )?;
    changed(
        rt,
        "east -1,000,001",
        EndKind::Held,
        3,
        28,
        &(-1000001i32).to_be_bytes(),
    )
}

// N7 on up: -50,000 to 120,000. A closed sheet's first waypoint stands at byte 14, its last one at byte 38.
fn heights(rt: &impl Print) -> io::Result<()> {
    changed(
        rt,
        "up 120,000",
        EndKind::Closed,
        3,
        22,
        &120000i32.to_be_bytes(),
    )?;
    changed(
        rt,
        "up 120,001",
        EndKind::Closed,
        3,
        22,
        &120001i32.to_be_bytes(),
    )?;
    changed(
        rt,
        "up -50,000",
        EndKind::Closed,
        3,
        22,
        &(-50000i32).to_be_bytes(),
    )?;
    changed(
        rt,
        "up -50,001",
        EndKind::Closed,
        3,
        22,
        &(-50001i32).to_be_bytes(),
    )?;
    changed(
        rt,
        "last up 120,000",
        EndKind::Closed,
        3,
        46,
        &120000i32.to_be_bytes(),
    )?;
    changed(
        rt,
        "last up 120,001",
        EndKind::Closed,
        3,
        46,
        &120001i32.to_be_bytes(),
    )?;
    changed(
        rt,
        "last up -50,000",
        EndKind::Closed,
        3,
        46,
        &(-50000i32).to_be_bytes(),
    )?;
    changed(
        rt,
        "last up -50,001",
        EndKind::Closed,
        3,
        46,
        &(-50001i32).to_be_bytes(),
    )?;
    changed(
        rt,
        "last up 1,000,000",
        EndKind::Closed,
        3,
        46,
        &1000000i32.to_be_bytes(),
    )?;
    changed(
        rt,
        "last up -120,000",
        EndKind::Closed,
        3,
        46,
        &(-120000i32).to_be_bytes(),
    )?;
    changed(
        rt,
        "last up 2,147,483,647",
        EndKind::Closed,
        3,
        46,
        &2147483647i32.to_be_bytes(),
    )?;
    changed(
        rt,
        "last up -2,147,483,648",
        EndKind::Closed,
        3,
        46,
        &(-2147483648i32).to_be_bytes(),
    )
}

// N8: each slope is -5,000 to 5,000. The first stands at byte 48.
fn slopes(rt: &impl Print) -> io::Result<()> {
    changed(
        rt,
        "start north 5,000",
        EndKind::Held,
        3,
        48,
        &5000i32.to_be_bytes(),
    )?;
    changed(
        rt,
        "start north 5,001",
        EndKind::Held,
        3,
        48,
        &5001i32.to_be_bytes(),
    )?;
    changed(
        rt,
        "start north -5,000",
        EndKind::Held,
        3,
        48,
        &(-5000i32).to_be_bytes(),
    )?;
    changed(
        rt,
        "start north -5,001",
        EndKind::Held,
        3,
        48,
        &(-5001i32).to_be_bytes(),
    )?;
    changed(
        rt,
        "start up 5,001",
        EndKind::Held,
        3,
        56,
        &5001i32.to_be_bytes(),
    )?;
    changed(
        rt,
        "end north -5,001",
        EndKind::Held,
        3,
        60,
        &(-5001i32).to_be_bytes(),
    )?;
    changed(
        rt,
        "end east 5,001",
        EndKind::Held,
        3,
        64,
        &5001i32.to_be_bytes(),
    )?;
    changed(
        rt,
        "end up 5,000",
        EndKind::Held,
        3,
        68,
        &5000i32.to_be_bytes(),
    )?;
    changed(
        rt,
        "end up 5,001",
        EndKind::Held,
        3,
        68,
        &5001i32.to_be_bytes(),
    )?;
    changed(
        rt,
        "end up -5,000",
        EndKind::Held,
        3,
        68,
        &(-5000i32).to_be_bytes(),
    )?;
    changed(
        rt,
        "end up -5,001",
        EndKind::Held,
        3,
        68,
        &(-5001i32).to_be_bytes(),
    )
}
