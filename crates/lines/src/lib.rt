// One line of the stand's output (T3), put into a lent buffer, so that many lines are written at once. For words and output.
#![tactic(auto)]

mod text;

ghost use Rattle.std.specs.Prelude.{pos, ◌∷◌, ◌+◌, ◌≤◌, length, get_or};
ghost use Rattle.lines.specs.Lines.{decimal, signed, line};
ghost use Rattle.lines.specs.Grown.{Grown};

use itoa::Buffer;
pub use text::Text;

// The room that a line asks for: twenty digits, three times a space, a minus and twenty digits, and the line feed.
pub const LINE_ROOM: usize = 87;

impl<'a> Text<'a> {
    // More at the end.
    pub fn push(&mut self, more: &[u8])
        requires { self.old.len + length more.now ≤ length self.old.bytes.now }
        ensures { Grown self.old self.new more.now }
    {
        let end = self.len + more.len();
        self.bytes[self.len..end].copy_from_slice(more);
        self.len = end;
    }
}

// A number's digits.
fn put_decimal(out: &mut Text<'_>, n: u64)
    requires { out.old.len + 20 ≤ length out.old.bytes.now }
    ensures grown { Grown out.old out.new (decimal n) }
    ensures short { out.new.len ≤ out.old.len + 20 }
{
    out.push(Buffer::new().format(n).as_bytes());
}

// One space, then the number, below 0 with a minus.
fn put_column(out: &mut Text<'_>, z: i64)
    requires { out.old.len + 22 ≤ length out.old.bytes.now }
    ensures grown { Grown out.old out.new (32 ∷ signed z) }
    ensures short { out.new.len ≤ out.old.len + 22 }
{
    out.push(b" ");
    out.push(Buffer::new().format(z).as_bytes());
}

// The line of a tick.
pub fn put_line(out: &mut Text<'_>, tick: u64, place: [i64; 3])
    requires { out.old.len + 87 ≤ length out.old.bytes.now }
    ensures grown { Grown out.old out.new (line tick (get_or place 0 (pos 0)) (get_or place 1 (pos 0)) (get_or place 2 (pos 0))) }
    ensures short { out.new.len ≤ out.old.len + 87 }
{
    put_decimal(out, tick);
    put_column(out, place[0]);
    put_column(out, place[1]);
    put_column(out, place[2]);
    out.push(b"\n");
}
