// The stand's program (T1 to T4): one sheet on standard input, its course or its refusal on standard output.
#![tactic(auto)]

ghost use Rattle.std.specs.Prelude.{◌≡◌, ◌+◌, ◌≤◌, length, IfOk, IfErr, IfSome, MatchResult};
ghost use Rattle.output.specs.Output.{output};
ghost use Rattle.output.specs.Pieces.{PartAt};

use sheet::LONGEST_SHEET;
use std::io::{self, ErrorKind, Read};

// 3N, for the most waypoints, 512.
const MOST_BENDS: usize = 1536;

// How many bytes are put together before they are written.
const PIECE: usize = 65536;

// A write that failed: how many bytes of the output are handed over, and why no more.
#[derive(Drop)]
struct Unsent {
    bytes: usize,
    cause: io::Error,
}

// Writes a part of the output, the one that starts after the `sent` bytes before it, and answers how many bytes are handed over then.
fn hand_part(rt: &impl Print, input: &[u8], sent: usize, part: &[u8]) -> Result<usize, Unsent>
    requires { PartAt (output input.now) sent part.now }
    ensures { MatchResult result (λ n. n ≡ sent + length part.now) (λ e. e.bytes ≡ sent) }
{
    match rt.write_all(part) {
        Ok(()) => Ok(sent + part.len()),
        Err(cause) => Err(Unsent { bytes: sent, cause }),
    }
}

// Hands the output over, piece after piece: all of it, unless a write fails. (A `while`: no count of pieces is known before.)
fn hand_over(rt: &impl Print, input: &[u8]) -> Result<usize, Unsent>
    ensures whole { IfOk result (λ n. n ≡ length (output input.now)) }
    ensures part { IfErr result (λ e. e.bytes ≤ length (output input.now)) }
{
    let mut list = [0i64; MOST_BENDS];
    let mut out = [0u8; PIECE];
    let mut piece = output::begin(input, &mut list, &mut out);
    let mut sent = 0;
    while 0 < piece.bytes {
        sent = hand_part(rt, input, sent, &out[..piece.bytes])?;
        piece = output::put_lines(input, &list, piece.next, piece.end, &mut out);
    }
    Ok(sent)
}

// Reads the input until it ends or the buffer is full, and answers how many bytes. At the end of its input a read gives 0 again; where one fails, or has
// more, the input was not read whole and there is no answer. (A `while`: how far a read comes it says itself, and std's `read_to_end` would want a heap.)
fn read_input(from: &mut impl Read, buffer: &mut [u8]) -> Option<usize>
    ensures { IfSome result (λ n. n ≤ length buffer.new) }
{
    let mut done = 0;
    while done < buffer.len() {
        let n = from.read(&mut buffer[done..]).ok()?;
        if n == 0 {
            let more = from.read(&mut buffer[done..]).ok()?;
            return if more == 0 { Some(done) } else { None };
        }
        done += n;
    }
    Some(done)
}

// One byte more than the longest sheet is asked for (T1).
fn main(rt: HostRuntime) {
    let mut input = [0u8; LONGEST_SHEET + 1];
    let Some(n) = read_input(&mut rt.stdin(), &mut input) else {
        let _ = eprintln!(rt; "stand: cannot read standard input");
        return;
    };
    if let Err(e) = hand_over(&rt, &input[..n]) {
        // Where nobody reads on there is nothing to say.
        if e.cause.kind() != ErrorKind::BrokenPipe {
            let _ = eprintln!(rt; "stand: cannot write standard output");
        }
    }
}
