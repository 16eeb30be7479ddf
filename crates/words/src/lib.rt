// The line of each refusal (T4), whole, in a byte string (F6). For the stand's output.
#![tactic(auto)]

ghost use Rattle.std.specs.Prelude.{◌≡◌, ◌+◌, ◌≤◌, length};
ghost use Rattle.lines.specs.Grown.{Grown};
ghost use Rattle.words.specs.Words.{refusal_line};

use lines::Text;
use sheet::Refusal;

// Reading refuses with 1 to 8 alone; the table is whole.
fn line_of(refusal: Refusal) -> &'static [u8]
    ensures { result.now ≡ refusal_line refusal }
{
    match refusal {
        Refusal::Torn => b"refused 1 torn\n",
        Refusal::Edition => b"refused 2 edition\n",
        Refusal::Ends => b"refused 3 ends\n",
        Refusal::Points => b"refused 4 points\n",
        Refusal::Size => b"refused 5 size\n",
        Refusal::Leg => b"refused 6 leg\n",
        Refusal::Reach => b"refused 7 reach\n",
        Refusal::Slope => b"refused 8 slope\n",
        Refusal::Shelf => b"refused 9 shelf\n",
        Refusal::Past => b"refused 10 past\n",
        Refusal::Adrift => b"refused 11 adrift\n",
        Refusal::Bend => b"refused 12 bend\n",
        Refusal::Landed => b"refused 13 landed\n",
        Refusal::Page => b"refused 14 page\n",
        Refusal::Start => b"refused 15 start\n",
        Refusal::Shut => b"refused 16 shut\n",
        Refusal::Apart => b"refused 17 apart\n",
        Refusal::Crowded => b"refused 18 crowded\n",
        Refusal::Seats => b"refused 19 seats\n",
        Refusal::Turn => b"refused 20 turn\n",
        Refusal::Grain => b"refused 21 grain\n",
        Refusal::Ink => b"refused 22 ink\n",
        Refusal::Board => b"refused 23 board\n",
    }
}

// The refusal's line at a text's end.
pub fn put_refusal(out: &mut Text<'_>, refusal: Refusal)
    requires { out.old.len + 19 ≤ length out.old.bytes.now }
    ensures { Grown out.old out.new (refusal_line refusal) }
{
    out.push(line_of(refusal));
}
