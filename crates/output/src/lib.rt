// The stand's output in pieces, each put into a lent buffer: the header or a refusal's line, then the lines of successive ticks (T1 to T4). For the stand.
#![tactic(auto)]

ghost use Rattle.std.specs.Prelude.{◌≡◌, ◌⊎◌, ◌++◌, ◌+◌, ◌-◌, ◌≤◌, ◌<◌, length, take};
ghost use Rattle.output.specs.Output.{lines_from, lent_list, output};
ghost use Rattle.words.specs.Words.{refusal_line};
ghost use Rattle.output.specs.Pieces.{AllAnswered, PieceOf};

use lines::{LINE_ROOM, Text};
use sheet::{LONGEST_SHEET, MOST_POINTS, Refusal};

// How many bytes a piece has, at the front of the buffer that the stand keeps for all of them, and the ticks whose lines come after it: `next` to before `end`.
#[derive(Clone, Copy)]
pub struct Piece {
    pub bytes: usize,
    pub next: u64,
    pub end: u64,
}

// A refusal's line is all there is.
fn refused(out: &mut [u8], refusal: Refusal) -> Piece
    requires { 19 ≤ length out.old }
    ensures { (result.next ≡ 0) × (result.end ≡ 0) × (result.bytes ≤ length out.new) × (take result.bytes out.new ≡ refusal_line refusal) }
{
    let mut text = Text { bytes: out, len: 0 };
    words::put_refusal(&mut text, refusal);
    Piece {
        bytes: text.len,
        next: 0,
        end: 0,
    }
}

// The first piece. For an accepted sheet its bend numbers are laid out in the list, which has room for those of any.
pub fn begin(input: &[u8], list: &mut [i64], out: &mut [u8]) -> Piece
    requires { (list.old ≡ lent_list) × (19 ≤ length out.old) }
    ensures piece_of { PieceOf input.now list.new out.new result.bytes result.next result.end (output input.now) }
    ensures some { 1 ≤ result.bytes }
    ensures answered { AllAnswered input.now list.new result.end }
{
    if LONGEST_SHEET < input.len() {
        return refused(out, Refusal::Torn);
    }
    let mut sums = [0u32; sheet::SUMS];
    let reading = answers::open_with_sums(MOST_POINTS, input, &mut sums);
    let Ok(sheet) = reading else {
        return refused(out, reading.unwrap_err());
    };
    let _ = layout::lay_out(input, list);
    let mut text = Text { bytes: out, len: 0 };
    text.push(b"tick north east up\n");
    Piece {
        bytes: text.len,
        next: 0,
        end: sheet.ticks + 1,
    }
}

// Puts the lines of the ticks from `from` to before `end`, or of as many of them as there is room for, and answers the tick whose line comes next.
fn push_lines(s: &[u8], list: &[i64], from: u64, end: u64, text: &mut Text<'_>) -> u64
    requires { (from ≤ end) × AllAnswered s.now list.now end }
    ensures piece_of { PieceOf s.now list.now text.new.bytes.now text.new.len result end
        (take text.old.len text.old.bytes.now ++ lines_from s.now list.now from (end - from)) }
    ensures same { text.new.bytes.ghost_name ≡ text.old.bytes.ghost_name }
    ensures full { (result ≡ end) ⊎ (length text.new.bytes.now < text.new.len + 87) }
{
    for tick in from..end {
        if text.bytes.len() - text.len < LINE_ROOM {
            return tick;
        }
        let Ok(place) = place::place_at_tick(s, list, tick) else {
            return tick;
        };
        lines::put_line(text, tick, place.at);
    }
    end
}

// The piece of these lines.
pub fn put_lines(s: &[u8], list: &[i64], from: u64, end: u64, out: &mut [u8]) -> Piece
    requires { (from ≤ end) × AllAnswered s.now list.now end }
    ensures piece_of { PieceOf s.now list.now out.new result.bytes result.next result.end
        (lines_from s.now list.now from (end - from)) }
    ensures ends { result.end ≡ end }
    ensures full { (result.next ≡ end) ⊎ (length out.new < result.bytes + 87) }
{
    let mut text = Text { bytes: out, len: 0 };
    let next = push_lines(s, list, from, end, &mut text);
    Piece {
        bytes: text.len,
        next,
        end,
    }
}
