// The lent round on a fleet of one's own of two seats, for callers that hand the pair over by value.
ghost use Rattle.std.specs.Prelude.{◌≡◌};
ghost use Rattle.place.specs.Places.{told_placed};
ghost use Rattle.seat.specs.Serving.{told_next};
ghost use Rattle.fleet.specs.Round.{round_answer, turn_given, fleet_after};

use crate::round;
use runner::Runner;
use seat::RoundAnswer;

// The two records after a round, and the round's answer.
#[derive(Clone, Copy)]
pub struct PairOutcome {
    pub pair: [Runner; 2],
    pub answer: RoundAnswer,
}

pub fn round_pair(s: &[u8], list: &[i64], pair: [Runner; 2], turn: u64) -> PairOutcome
    ensures told { told_placed result.answer.placed ≡ round_answer s.now list.now pair turn }
    ensures next { told_next result.answer.next ≡ turn_given s.now list.now pair turn }
    ensures pair { result.pair ≡ fleet_after s.now list.now pair turn }
{
    let mut fleet = pair;
    let answer = round(s, list, &mut fleet, turn);
    PairOutcome {
        pair: fleet,
        answer,
    }
}
