// Runners on six sheets, a line to a case: the runner at each tick up to P + 1, steps three times round the closed courses and past the end of the
// open ones and as many backs and more, the last of the unsigned 64-bit ticks, runners that are adrift, have landed or are at the start, laps up to the largest count,
// and a sheet that is torn. Each step and each back is made on a lent record. `stdout` was worked out from the requirements by a program of its own.
#![tactic(auto)]

ghost use Rattle.std.specs.Prelude.{◌≤◌, length};

use runner::{Runner, back, runner_at_tick, step};
use sheet::Refusal;
use std::fmt::{self, Display, Formatter};
use std::io;
use std::ops::Range;

const LAST: u64 = u64::MAX;

// The runner that is answered, or the refusal, in words.
#[derive(Clone, Copy)]
struct Answer(Result<Runner, Refusal>);

impl Display for Answer {
    fn fmt<W: fmt::Write>(&self, f: &mut Formatter<W>) -> fmt::Result {
        let text = match self.0 {
            Ok(at) => return write!(f, "leg {} offset {} laps {}", at.leg, at.offset, at.laps),
            Err(Refusal::Torn) => "torn",
            Err(Refusal::Past) => "past",
            Err(Refusal::Adrift) => "adrift",
            Err(Refusal::Landed) => "landed",
            Err(Refusal::Start) => "start",
            Err(_) => "refused",
        };
        f.write_str(text)
    }
}

// A runner that may be anywhere.
fn at(leg: u64, offset: u64, laps: u64) -> Runner {
    Runner { leg, offset, laps }
}

// A sheet, and the name that its lines begin with.
#[derive(Clone, Copy)]
struct Course<'a> {
    name: &'a str,
    s: &'a [u8],
}

impl Course<'_> {
    fn show_tick(&self, rt: &impl Print, tick: u64) -> io::Result<()> {
        let answer = Answer(runner_at_tick(self.s, tick));
        println!(rt; "{} tick {tick}: {answer}", self.name)
    }

    fn show_ticks(&self, rt: &impl Print, ticks: Range<u64>) -> io::Result<()> {
        for tick in ticks {
            self.show_tick(rt, tick)?;
        }
        Ok(())
    }

    // A move of one sort; a refused one leaves the runner where it stands.
    fn show_move<F: Fn(&[u8], &mut Runner) -> Result<(), Refusal>>(
        &self,
        rt: &impl Print,
        from: &str,
        go: F,
        start: Runner,
    ) -> io::Result<Runner>
        requires { F.IsAlwaysCallable go }
    {
        let mut at = start;
        let done = go(self.s, &mut at);
        let answer = Answer(done.and(Ok(at)));
        let Runner { leg, offset, laps } = start;
        println!(rt; "{}{from}{leg} {offset} {laps}: {answer}", self.name)?;
        Ok(at)
    }

    // (Closures here and below: of a function of another crate, passed by its name, the check finds no contract.)
    fn show_step(&self, rt: &impl Print, start: Runner) -> io::Result<Runner> {
        self.show_move(rt, " from ", |s, at| step(s, at), start)
    }

    fn show_back(&self, rt: &impl Print, start: Runner) -> io::Result<Runner> {
        self.show_move(rt, " back from ", |s, at| back(s, at), start)
    }

    // Steps from a runner, and then backs.
    fn show_flight(
        &self,
        rt: &impl Print,
        start: Runner,
        steps: u64,
        backs: u64,
    ) -> io::Result<()> {
        let mut at = start;
        for _ in 0..steps {
            at = self.show_step(rt, at)?;
        }
        for _ in 0..backs {
            at = self.show_back(rt, at)?;
        }
        Ok(())
    }
}

// Free, legs 2 and 3; and the same sheet with its last byte missing.
fn run_free(rt: &impl Print) -> io::Result<()> {
    let mut s = [0u8; 48];
    s[..12].copy_from_slice(&[0, 0, 0, 48, 1, 0, 0, 3, 0, 2, 0, 3]);
    let course = Course {
        name: "free",
        s: &s,
    };
    course.show_ticks(rt, 0..7)?;
    course.show_flight(rt, at(0, 0, 0), 8, 7)?;
    for start in [
        at(0, 2, 0),
        at(1, 4, 0),
        at(2, 0, 0),
        at(0, LAST, 0),
        at(LAST, LAST, 0),
    ] {
        course.show_step(rt, start)?;
    }
    for start in [at(0, 2, 0), at(2, 0, 0), at(0, LAST, 0)] {
        course.show_back(rt, start)?;
    }
    for start in [at(0, 0, 1), at(1, 3, LAST)] {
        course.show_step(rt, start)?;
    }
    for start in [at(0, 0, 1), at(1, 1, LAST)] {
        course.show_back(rt, start)?;
    }
    let torn = Course {
        name: "torn",
        s: &s[..47],
    };
    torn.show_tick(rt, 0)?;
    torn.show_step(rt, at(LAST, LAST, LAST))?;
    torn.show_back(rt, at(0, 0, 0))?;
    Ok(())
}

// Held, one leg of 4.
fn run_held(rt: &impl Print) -> io::Result<()> {
    let mut s = [0u8; 58];
    s[..10].copy_from_slice(&[0, 0, 0, 58, 1, 1, 0, 2, 0, 4]);
    let course = Course {
        name: "held",
        s: &s,
    };
    course.show_ticks(rt, 0..6)?;
    course.show_tick(rt, LAST)?;
    course.show_flight(rt, at(0, 0, 0), 7, 6)?;
    course.show_step(rt, at(0, 0, 1))?;
    Ok(())
}

// Closed, four legs of 2.
fn run_even(rt: &impl Print) -> io::Result<()> {
    let mut s = [0u8; 64];
    s[..16].copy_from_slice(&[0, 0, 0, 64, 1, 2, 0, 4, 0, 2, 0, 2, 0, 2, 0, 2]);
    let course = Course {
        name: "even",
        s: &s,
    };
    course.show_ticks(rt, 0..10)?;
    course.show_tick(rt, LAST)?;
    course.show_flight(rt, at(0, 0, 0), 25, 27)?;
    for start in [at(3, 2, 0), at(4, 0, 0), at(LAST, 0, 0)] {
        course.show_step(rt, start)?;
    }
    for start in [at(3, 2, 0), at(LAST, 0, 0)] {
        course.show_back(rt, start)?;
    }
    course.show_step(rt, at(4, 0, LAST))?;
    // up to the largest count, round once more with it, and back
    course.show_flight(rt, at(3, 0, LAST - 1), 11, 12)?;
    course.show_back(rt, at(0, 1, LAST))?;
    Ok(())
}

// Closed, legs 1, 3 and 2.
fn run_mixed(rt: &impl Print) -> io::Result<()> {
    let mut s = [0u8; 50];
    s[..14].copy_from_slice(&[0, 0, 0, 50, 1, 2, 0, 3, 0, 1, 0, 3, 0, 2]);
    let course = Course {
        name: "mixed",
        s: &s,
    };
    course.show_ticks(rt, 0..8)?;
    course.show_tick(rt, LAST)?;
    course.show_flight(rt, at(0, 0, 0), 19, 21)
}

// The legs 1, 2, .., as many as are asked for.
fn put_rising(s: &mut [u8], legs: u8)
    requires { (legs ≤ 19) × (46 ≤ length s.old) }
{
    for h in 1..=legs {
        s[7 + 2 * h as usize] = h;
    }
}

// Rising legs, free: 18 of them, with a kept sum at leg 16 (W17).
fn run_rising(rt: &impl Print) -> io::Result<()> {
    let mut s = [0u8; 272];
    s[..8].copy_from_slice(&[0, 0, 1, 16, 1, 0, 0, 19]);
    put_rising(&mut s, 18);
    let course = Course {
        name: "rising",
        s: &s,
    };
    course.show_ticks(rt, 134..138)?;
    course.show_ticks(rt, 152..154)?;
    course.show_ticks(rt, 170..173)
}

// Closed: with one leg more, and round.
fn run_rising_round(rt: &impl Print) -> io::Result<()> {
    let mut s = [0u8; 274];
    s[..8].copy_from_slice(&[0, 0, 1, 18, 1, 2, 0, 19]);
    put_rising(&mut s, 19);
    let course = Course {
        name: "rising, closed",
        s: &s,
    };
    course.show_ticks(rt, 189..192)?;
    course.show_ticks(rt, 325..327)?;
    course.show_tick(rt, LAST)
}

fn main(rt: HostRuntime) -> io::Result<()> {
    run_free(&rt)?;
    run_held(&rt)?;
    run_even(&rt)?;
    run_mixed(&rt)?;
    run_rising(&rt)?;
    run_rising_round(&rt)
}
