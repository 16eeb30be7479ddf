// A sheet that was read and accepted (A2, A10), with what reading answered. What is known of it stands in the type, for every function that is handed one.
ghost use Rattle.std.specs.Prelude.{◌≡◌};
ghost use Rattle.sheet.specs.Fields.{kind as kind_in, points as points_in, ticks as ticks_in, legs as legs_in};
ghost use Rattle.sheet.specs.Reading.{Accepted};

use ends::EndKind;

// Its bytes, and its N and kind. (In this order, since the compiler moves N and the P of `TimedSheet` at once where they are neighbours, and then waits for both.)
#[derive(Clone, Copy)]
pub struct OpenSheet<'a> {
    pub bytes: &'a [u8],
    pub points: usize,
    pub kind: EndKind,
    pub ghost accepted: { Accepted bytes.now },
    pub ghost is_points: { points ≡ points_in bytes.now },
    pub ghost is_kind: { kind ≡ kind_in bytes.now },
}

// The same with its P, which is known once all legs were added up (P7).
#[derive(Clone, Copy)]
pub struct TimedSheet<'a> {
    pub sheet: OpenSheet<'a>,
    pub ticks: u64,
    pub ghost is_ticks: { ticks ≡ ticks_in sheet.bytes.now },
}

impl<'a> OpenSheet<'a> {
    // A10: of a sheet that is known to be accepted, with no refusal left: kind and N stand in its head (S4, S5). For a caller who was handed no open sheet.
    pub fn of_accepted(s: &'a [u8]) -> OpenSheet<'a>
        requires { Accepted s.now }
        ensures { result.bytes.now ≡ s.now }
    {
        OpenSheet {
            bytes: s,
            points: sheet::read16(s, 6) as usize,
            kind: EndKind::try_from(u64::from(s[5])).unwrap(),
        }
    }

    // S6: L.
    #[inline(always)]
    pub fn legs(&self) -> usize
        ensures { result ≡ legs_in self.now.bytes.now }
    {
        ends::leg_count(self.kind, self.points)
    }
}
