// A refusal's number (group N), for the C boundary and for programs that print it, and the refusal of a kind that is none.
ghost use Rattle.std.specs.Prelude.{◌≡◌};
ghost use Rattle.sheet.specs.Answers.{number_of};
ghost use Rattle.sheet.specs.declared.Refusal.TheVariants.{Ends};

use crate::Refusal;
use ends::UnknownKind;

// A9: the refusal's number.
impl From<Refusal> for u64 {
    ghost from_gives = { λ refusal n. n ≡ number_of refusal };

    fn from(refusal: Refusal) -> u64 {
        refusal as u64
    }
}

// N3: a kind's number that is none.
impl From<UnknownKind> for Refusal {
    ghost from_gives = { λ _ refusal. refusal ≡ Ends };

    fn from(_unknown: UnknownKind) -> Refusal {
        Refusal::Ends
    }
}
