// A fleet's rounds on course A and on the closed course W7 (W18), a line to a call: the place or the refusal's number, the turn that is given, and the records
// afterwards. Seats that land, are adrift or come to a bad bend number are among them, and calls that no seat is asked for.
#![tactic(auto)]

ghost use Rattle.std.specs.Prelude.{◌<◌};

use fleet::{round, round_numbers};
use runner::Runner;
use seat::RoundAnswer;
use std::fmt::{self, Display, Formatter};
use std::io;

// One over 2^37
const BEYOND: i64 = 137438953473;

// The largest count of laps
const LAST: u64 = u64::MAX;

// The place or the refusal's number, and the turn that is given, if one is.
#[derive(Clone, Copy)]
struct Shown(RoundAnswer);

impl Display for Shown {
    fn fmt<W: fmt::Write>(&self, f: &mut Formatter<W>) -> fmt::Result {
        match self.0.placed {
            Ok(place) => {
                let [north, east, up] = place.at;
                write!(f, "place {north} {east} {up}")?;
            }
            Err(refusal) => write!(f, "refused {}", u64::from(refusal))?,
        }
        match self.0.next {
            Some(next) => write!(f, ", next {next}"),
            None => Ok(()),
        }
    }
}

// A sheet, and the list that its bend numbers are read from.
#[derive(Clone, Copy)]
struct Course<'a> {
    s: &'a [u8],
    list: &'a [i64],
}

impl Course<'_> {
    // A round over plain numbers, shown; the turn that comes next is the one that is given, or the one that was asked for.
    fn show_round(&self, rt: &impl Print, lent: &mut [u64], turn: u64) -> io::Result<u64> {
        let answer = round_numbers(self.s, self.list, lent, turn);
        print!(rt; "turn {turn}: {}, records", Shown(answer))?;
        for number in &*lent {
            print!(rt; " {number}")?;
        }
        println!(rt)?;
        Ok(answer.next.unwrap_or(turn))
    }

    // Rounds in a row, from a turn on, each with the turn that the one before gave.
    fn fly(
        &self,
        rt: &impl Print,
        name: &str,
        lent: &mut [u64],
        first: u64,
        rounds: u64,
    ) -> io::Result<()> {
        println!(rt; "{name}")?;
        let mut turn = first;
        for _ in 0..rounds {
            turn = self.show_round(rt, lent, turn)?;
        }
        Ok(())
    }

    // Four rounds of two seats, over their records.
    fn fly_pair(&self, rt: &impl Print, name: &str, mut pair: [Runner; 2]) -> io::Result<()> {
        println!(rt; "{name}")?;
        for turn in [0, 1, 0, 1] {
            let answer = round(self.s, self.list, &mut pair, turn);
            print!(rt; "turn {turn}: {}, records", Shown(answer))?;
            for at in pair {
                print!(rt; " {} {} {}", at.leg, at.offset, at.laps)?;
            }
            println!(rt)?;
        }
        Ok(())
    }
}

// A seat's runner.
fn at(leg: u64, offset: u64, laps: u64) -> Runner {
    Runner { leg, offset, laps }
}

// The course's own bend numbers, of which 12 are enough for both courses: A takes 9. (A refusal to lay out shows in the places.)
fn laid<const N: usize>(s: &[u8]) -> [i64; N] {
    let mut list = [7; N];
    let _ = layout::lay_out(s, &mut list);
    list
}

// Course A: one seat goes the whole way, one is soon at the end, one has landed, one is adrift.
fn fly_open(rt: &impl Print, s: &[u8]) -> io::Result<()> {
    let list: [i64; 9] = laid(s);
    let course = Course { s, list: &list };
    let mut lent = [0, 0, 0, 1, 1, 0, 1, 2, 0, 0, 2, 0];
    course.fly(rt, "A, four seats", &mut lent, 0, 18)?;
    let pair = [at(0, 1, 0), at(1, 1, 0)];
    course.fly_pair(rt, "A, a pair on lent records", pair)
}

// Course A with numbers left over behind the seats, and with a lap, which no open course takes.
fn fly_odd(rt: &impl Print, s: &[u8]) -> io::Result<()> {
    let list: [i64; 9] = laid(s);
    let course = Course { s, list: &list };
    let mut odd = [0, 0, 0, 1, 0, 0, 9];
    course.fly(rt, "A, two seats and a number more", &mut odd, 1, 4)?;
    let mut odder = [0, 0, 0, 1, 0, 0, 9, 8];
    course.fly(rt, "A, two seats and two numbers more", &mut odder, 1, 4)?;
    let mut lapped = [0, 0, 1, 1, 0, 0];
    course.fly(rt, "A, two seats, one with a lap", &mut lapped, 0, 4)
}

// Course A with a bad bend number at one of its waypoints.
fn fly_bent(rt: &impl Print, s: &[u8], name: &str, waypoint: usize) -> io::Result<()>
    requires { waypoint < 9 }
{
    let mut list: [i64; 9] = laid(s);
    list[waypoint] = BEYOND;
    let course = Course { s, list: &list };
    let mut lent = [0, 0, 0, 0, 1, 0];
    course.fly(rt, name, &mut lent, 0, 4)
}

// On course A, calls that no seat is asked for.
fn fly_nobody(rt: &impl Print, s: &[u8]) -> io::Result<()> {
    let list = [0; 9];
    let course = Course { s, list: &list };
    let mut lent = [0; 3];
    course.fly(rt, "A, a turn that is no seat's", &mut lent, 1, 1)?;
    let short = Course {
        s,
        list: &list[..8],
    };
    short.fly(rt, "A, a list that is too short", &mut lent, 1, 1)?;
    let torn = Course {
        s: b"",
        list: &list,
    };
    torn.fly(rt, "a torn sheet", &mut lent, 0, 1)
}

// The closed course: three seats, twice round, one of them with the largest count of laps.
fn fly_closed(rt: &impl Print) -> io::Result<()> {
    let s =
        b"\x00\x00\x00\x40\x01\x02\x00\x04\x00\x02\x00\x02\x00\x02\x00\x02\x00\x00\x00\x00\x00\x00\x00\x00\x00\x00\x00\x00\x00\x00\x00\x06\x00\x00\x00\x00\x00\x00\x00\x00\x00\x00\x00\x00\x00\x00\x00\x00\x00\x00\x00\x00\xff\xff\xff\xfa\x00\x00\x00\x00\x00\x00\x00\x00";
    let list: [i64; 12] = laid(s);
    let course = Course { s, list: &list };
    let mut lent = [3, 1, 0, 0, 0, 7, 1, 1, LAST];
    course.fly(rt, "closed, three seats", &mut lent, 2, 48)?;
    let pair = [at(3, 1, LAST - 1), at(4, 0, 0)];
    course.fly_pair(rt, "closed, a pair on lent records", pair)?;
    let mut most = [0; 96];
    course.fly(rt, "closed, 32 seats", &mut most, 31, 2)?;
    let mut many = [0; 99];
    course.fly(rt, "closed, 33 seats", &mut many, 40, 1)?;
    let mut none = [5, 6];
    course.fly(rt, "closed, no seat", &mut none, 0, 1)
}

fn main(rt: HostRuntime) -> io::Result<()> {
    let a =
        b"\x00\x00\x00\x30\x01\x00\x00\x03\x00\x02\x00\x02\x00\x00\x00\x00\x00\x00\x00\x0a\x00\x00\x00\x14\x00\x00\x00\x08\x00\x00\x00\x0a\x00\x00\x00\x16\x00\x00\x00\x00\x00\x00\x00\x0a\x00\x00\x00\x18";
    fly_open(&rt, a)?;
    fly_odd(&rt, a)?;
    let name = "A, two seats, a bad bend number at the last waypoint";
    fly_bent(&rt, a, name, 2)?;
    let name = "A, two seats, a bad bend number at the first waypoint";
    fly_bent(&rt, a, name, 0)?;
    fly_nobody(&rt, a)?;
    fly_closed(&rt)
}
