// Places on the worked courses, a line to a call: every tick of W1 to W9 with the bend numbers that `lay_out` leaves, 12's limits, and refused calls, which are
// shown with zeros in the place's stead. `stdout` was worked out from the requirements by a program of its own.
#![tactic(auto)]

use place::{Place, place_at_tick, place_of_runner};
use runner::Runner;
use sheet::Refusal;
use std::fmt::{self, Display, Formatter};
use std::io;

const LAST: u64 = u64::MAX;

// 2^37
const LIMIT: i64 = 137438953472;

// The place that is answered, or the refusal's number.
#[derive(Clone, Copy)]
struct Answer(Result<Place, Refusal>);

impl Display for Answer {
    fn fmt<W: fmt::Write>(&self, f: &mut Formatter<W>) -> fmt::Result {
        match self.0 {
            Ok(place) => {
                let [north, east, up] = place.at;
                write!(f, "{north} {east} {up}")
            }
            Err(refusal) => write!(f, "refused {} with 0 0 0", u64::from(refusal)),
        }
    }
}

// A sheet, and the list that its bend numbers are read from.
#[derive(Clone, Copy)]
struct Course<'a> {
    s: &'a [u8],
    list: &'a [i64],
}

impl Course<'_> {
    fn show_tick(&self, rt: &impl Print, tick: u64) -> io::Result<()> {
        let answer = Answer(place_at_tick(self.s, self.list, tick));
        println!(rt; "tick {tick}: {answer}")
    }

    fn show_ticks(&self, rt: &impl Print, ticks: &[u64]) -> io::Result<()> {
        for &tick in ticks {
            self.show_tick(rt, tick)?;
        }
        Ok(())
    }

    // Of each runner its leg, offset and laps.
    fn show_runners(&self, rt: &impl Print, runners: &[(u64, u64, u64)]) -> io::Result<()> {
        for &(leg, offset, laps) in runners {
            let at = Runner { leg, offset, laps };
            let answer = Answer(place_of_runner(self.s, self.list, at));
            println!(rt; "runner {leg} {offset} {laps}: {answer}")?;
        }
        Ok(())
    }
}

// The first ticks of a course, with its own bend numbers: 12 places are enough for every course here. (A refusal to lay out shows in the places.)
fn show_course(rt: &impl Print, name: &str, s: &[u8], count: u64) -> io::Result<()> {
    println!(rt; "{name}")?;
    let mut list = [7; 12];
    let _ = layout::lay_out(s, &mut list);
    let course = Course { s, list: &list };
    for tick in 0..count {
        course.show_tick(rt, tick)?;
    }
    Ok(())
}

// W1 to W4 and W9, free. Each is asked one tick past its last.
fn run_free(rt: &impl Print, s: &[u8]) -> io::Result<()> {
    show_course(rt, "A", s, 6)?;
    show_course(
        rt,
        "A negated",
        b"\x00\x00\x00\x30\x01\x00\x00\x03\x00\x02\x00\x02\x00\x00\x00\x00\x00\x00\x00\x0a\x00\x00\x00\x14\xff\xff\xff\xf8\x00\x00\x00\x0a\x00\x00\x00\x16\x00\x00\x00\x00\x00\x00\x00\x0a\x00\x00\x00\x18",
        6,
    )?;
    show_course(
        rt,
        "legs 1 1 1",
        b"\x00\x00\x00\x3e\x01\x00\x00\x04\x00\x01\x00\x01\x00\x01\x00\x00\x00\x00\x00\x00\x00\x00\x00\x00\x00\x00\x00\x00\x00\x01\x00\x00\x00\x00\x00\x00\x00\x00\x00\x00\x00\x00\x00\x00\x00\x00\x00\x00\x00\x00\x00\x00\x00\x00\x00\x00\x00\x00\x00\x00\x00\x00",
        5,
    )?;
    show_course(
        rt,
        "legs 1 2",
        b"\x00\x00\x00\x30\x01\x00\x00\x03\x00\x01\x00\x02\x00\x00\x00\x00\x00\x00\x00\x00\x00\x00\x00\x00\x00\x00\x00\x00\x00\x00\x00\x00\x00\x00\x00\x00\x00\x00\x00\x06\x00\x00\x00\x00\x00\x00\x00\x00",
        5,
    )?;
    show_course(
        rt,
        "two waypoints",
        b"\x00\x00\x00\x22\x01\x00\x00\x02\x00\x01\x00\x00\x00\x03\x00\x00\x00\x00\x00\x00\x00\x00\x00\x00\x00\x07\x00\x00\x00\x00\x00\x00\x00\x00",
        3,
    )
}

// W5 and W6, held.
fn run_held(rt: &impl Print) -> io::Result<()> {
    show_course(
        rt,
        "slopes 0",
        b"\x00\x00\x00\x3a\x01\x01\x00\x02\x00\x04\x00\x00\x00\x00\x00\x00\x00\x00\x00\x00\x00\x00\x00\x00\x00\x10\x00\x00\x00\x00\x00\x00\x00\x00\x00\x00\x00\x00\x00\x00\x00\x00\x00\x00\x00\x00\x00\x00\x00\x00\x00\x00\x00\x00\x00\x00\x00\x00",
        6,
    )?;
    show_course(
        rt,
        "slopes 4",
        b"\x00\x00\x00\x3a\x01\x01\x00\x02\x00\x04\x00\x00\x00\x00\x00\x00\x00\x00\x00\x00\x00\x00\x00\x00\x00\x10\x00\x00\x00\x00\x00\x00\x00\x00\x00\x00\x00\x04\x00\x00\x00\x00\x00\x00\x00\x00\x00\x00\x00\x04\x00\x00\x00\x00\x00\x00\x00\x00",
        6,
    )
}

// W7 and W8, closed: twice round, the last tick of 64 bits, and runners that fit and do not.
fn run_closed(rt: &impl Print) -> io::Result<()> {
    let s =
        b"\x00\x00\x00\x40\x01\x02\x00\x04\x00\x02\x00\x02\x00\x02\x00\x02\x00\x00\x00\x00\x00\x00\x00\x00\x00\x00\x00\x00\x00\x00\x00\x06\x00\x00\x00\x00\x00\x00\x00\x00\x00\x00\x00\x00\x00\x00\x00\x00\x00\x00\x00\x00\xff\xff\xff\xfa\x00\x00\x00\x00\x00\x00\x00\x00";
    show_course(rt, "closed", s, 17)?;
    let list = [0, -49152, 0, 49152, 0, 0, 0, 0, 0, 0, 0, 0];
    let course = Course { s, list: &list };
    course.show_ticks(rt, &[LAST])?;
    course.show_runners(
        rt,
        &[
            (3, 1, 0),
            (3, 1, 5),
            (3, 1, LAST),
            (3, 2, 0),
            (4, 0, 0),
            (LAST, LAST, 0),
        ],
    )
}

// Runners on A: at every leg's start, on the way, at the end of the course, and adrift.
fn run_runners(rt: &impl Print, s: &[u8]) -> io::Result<()> {
    println!(rt; "runners")?;
    let list = [0, -65536, 0, 0, 0, 0, 0, 0, 0];
    Course { s, list: &list }.show_runners(
        rt,
        &[
            (0, 0, 0),
            (0, 1, 0),
            (1, 0, 0),
            (1, 1, 0),
            (1, 2, 0),
            (0, 2, 0),
            (1, 3, 0),
            (2, 0, 0),
            (0, LAST, 0),
            (LAST, 0, 0),
            (0, 0, 1),
            (1, 2, LAST),
        ],
    )
}

// On A, with these bend numbers at its first, fifth and last place.
fn show_bent(
    rt: &impl Print,
    s: &[u8],
    [first, fifth, last]: [i64; 3],
    ticks: &[u64],
    runners: &[(u64, u64, u64)],
) -> io::Result<()> {
    let list = [first, 0, 0, 0, fifth, 0, 0, 0, last];
    let course = Course { s, list: &list };
    course.show_ticks(rt, ticks)?;
    course.show_runners(rt, runners)
}

// 12's limits on A: the limits themselves are allowed, one beyond is refused at the legs that end there and nowhere else, also where the offset is 0.
fn run_limits(rt: &impl Print, s: &[u8]) -> io::Result<()> {
    println!(rt; "limits")?;
    let all = [0, 1, 2, 3, 4];
    show_bent(rt, s, [LIMIT, 0, -LIMIT], &all, &[])?;
    let over = [LIMIT + 1, 0, -LIMIT];
    show_bent(rt, s, over, &all[..4], &[(0, 0, 0), (0, 1, 0), (1, 1, 0)])?;
    show_bent(rt, s, [-LIMIT - 1, 0, -LIMIT], &[1, 3], &[])?;
    let under = [0, 0, -LIMIT - 1];
    show_bent(rt, s, under, &all, &[(0, 1, 0), (1, 0, 0), (1, 2, 0)])?;
    show_bent(rt, s, [0, LIMIT + 1, 0], &[1, 3], &[])
}

// The longest leg with the largest waypoint and bend numbers.
fn run_wide(rt: &impl Print) -> io::Result<()> {
    println!(rt; "wide")?;
    let s =
        b"\x00\x00\x00\x22\x01\x00\x00\x02\x01\x00\xff\xf0\xbd\xc0\x00\x0f\x42\x40\x00\x00\x00\x00\x00\x0f\x42\x40\xff\xf0\xbd\xc0\x00\x00\x00\x00";
    for list in [&[LIMIT; 6], &[-LIMIT; 6]] {
        Course { s, list }.show_ticks(rt, &[0, 1, 128, 255, 256])?;
    }
    Ok(())
}

// A1, where several numbers apply: 9 before 10, 11 and 12, 10 and 11 before 12, and the reader's before all.
fn run_refused(rt: &impl Print, s: &[u8]) -> io::Result<()> {
    println!(rt; "refused")?;
    let list = &[LIMIT + 1; 9];
    let whole = Course { s, list };
    let short = Course {
        list: &list[..8],
        ..whole
    };
    whole.show_ticks(rt, &[1, 5, LAST])?;
    short.show_ticks(rt, &[1, 5])?;
    whole.show_runners(rt, &[(1, 2, 0), (2, 0, 0)])?;
    short.show_runners(rt, &[(2, 0, 0), (0, 0, 0)])?;
    let torn = Course {
        s: b"torn sheet",
        ..short
    };
    torn.show_ticks(rt, &[5])?;
    Course { s: b"", ..short }.show_runners(rt, &[(2, 0, 0)])?;
    let closed = Course {
        s: b"\x00\x00\x00\x24\x01\x02\x00\x02\x00\x02\x00\x02\x00\x00\x00\x00\x00\x00\x00\x00\x00\x00\x00\x00\x00\x00\x00\x06\x00\x00\x00\x00\x00\x00\x00\x00",
        ..whole
    };
    closed.show_ticks(rt, &[LAST])?;
    let long = Course {
        s: b"\x00\x00\x00\x30\x01\x00\x00\x03\x00\x02\x01\x01\x00\x00\x00\x00\x00\x00\x00\x0a\x00\x00\x00\x14\x00\x00\x00\x08\x00\x00\x00\x0a\x00\x00\x00\x16\x00\x00\x00\x00\x00\x00\x00\x0a\x00\x00\x00\x18",
        ..short
    };
    long.show_runners(rt, &[(9, 9, 0)])
}

fn main(rt: HostRuntime) -> io::Result<()> {
    let a =
        b"\x00\x00\x00\x30\x01\x00\x00\x03\x00\x02\x00\x02\x00\x00\x00\x00\x00\x00\x00\x0a\x00\x00\x00\x14\x00\x00\x00\x08\x00\x00\x00\x0a\x00\x00\x00\x16\x00\x00\x00\x00\x00\x00\x00\x0a\x00\x00\x00\x18";
    run_free(&rt, a)?;
    run_held(&rt)?;
    run_closed(&rt)?;
    run_runners(&rt, a)?;
    run_limits(&rt, a)?;
    run_wide(&rt)?;
    run_refused(&rt, a)
}
