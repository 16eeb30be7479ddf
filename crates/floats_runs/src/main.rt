// W11: the station's bend numbers beside those of a second program, which eliminates in floats. Sheets come on standard input, one after another: the
// worked courses. Many more are made here. For each end kind one line says how many sheets were compared, how far a bend number Z lies at most from
// 65,536 times its bend in floats, in eighths, rounded up to thousandths, and whether all are within nine eighths (L6).
#![tactic(auto)]

mod axis;
mod drawing;
mod elimination;
mod rows;
mod seen;
mod sheets;

ghost use Rattle.std.specs.Prelude.{◌<◌, ◌≤◌, length, IfOk};

use drawing::Drawing;
use ends::EndKind;
use seen::Seen;
use std::io;
use std::io::Read;

// How many sheets of each kind are made.
const MADE: u64 = 1000;

// How many bytes of the worked courses are read at most. (Into an array, as for `sheets::ROOM`.)
const MOST_READ: usize = 65536;

// Adds the sheets that stand one after another in a text. (A `while`: where the next begins each one says itself.)
fn add_worked(seen: &mut Seen, text: &[u8]) {
    let mut rest = text;
    while rest.len() >= 8 {
        let length = sheet::read16(rest, 2) as usize;
        if length < 8 || rest.len() < length {
            return;
        }
        let (sheet, after) = rest.split_at(length);
        seen.add(sheet);
        rest = after;
    }
}

// The line of one kind.
fn show(rt: &impl Print, name: &str, kind: EndKind, worked: &[u8]) -> io::Result<()> {
    let mut seen = Seen::none(kind);
    add_worked(&mut seen, worked);
    let mut drawing = Drawing::START;
    let mut room = [0; sheets::ROOM];
    for _ in 0..MADE {
        let length = sheets::make(&mut room, &mut drawing, kind);
        seen.add(&room[..length]);
    }
    let sheets = seen.sheets;
    // in thousandths of an eighth, rounded up: it is written as in 7.043; one too large for that is written as 0
    let whole = (8000.0 * seen.largest).ceil();
    let largest = if whole < 18446744073709551616.0 {
        std::num::saturating_f64_to_u64(whole)
    } else {
        0
    };
    let verdict = if seen.beyond { "BEYOND" } else { "within" };
    println!(rt;
        "{name}: {sheets} sheets, largest difference {}.{:03} eighths, {verdict} 9",
        largest / 1000,
        largest % 1000
    )
}

// Reads until the buffer is full or the input ends, and answers how many bytes. (A `while`: how far a read comes it says itself, and std's `read_to_end`
// would want a heap.)
fn read_full(from: &mut impl Read, buffer: &mut [u8]) -> io::Result<usize>
    ensures { IfOk result (λ n. n ≤ length buffer.new) }
{
    let mut done = 0;
    while done < buffer.len() {
        let n = from.read(&mut buffer[done..])?;
        if n == 0 {
            break;
        }
        done += n;
    }
    Ok(done)
}

fn main(rt: HostRuntime) -> io::Result<()> {
    let mut input = [0; MOST_READ];
    let n = read_full(&mut rt.stdin(), &mut input)?;
    let worked = &input[..n];
    show(&rt, "free", EndKind::Free, worked)?;
    show(&rt, "held", EndKind::Held, worked)?;
    show(&rt, "closed", EndKind::Closed, worked)
}
