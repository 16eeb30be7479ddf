// A fleet's round (A14, group Q): the seat whose turn it is flies on by a tick where its record lies, and the turn goes to the next seat. For the C boundary too.
#![tactic(auto)]

mod numbers;
mod pair;

ghost use Rattle.std.specs.Prelude.{◌≡◌};
ghost use Rattle.place.specs.Places.{told_placed};
ghost use Rattle.seat.specs.Serving.{told_next};
ghost use Rattle.fleet.specs.Round.{round_answer, turn_given, fleet_after};

pub use numbers::round_numbers;
pub use pair::{PairOutcome, round_pair};
use runner::Runner;
use seat::{RoundAnswer, serve, turned_away};

// F9: over a lent list of records, one to a seat. Tests 1 to 9, 19, 20, then 11, 13, 12 of the seat; a refused call leaves the list as it was.
#[tactic(auto, using(crate::proofs::Lent::away_told, crate::proofs::Lent::away_kept, crate::proofs::Lent::seat_set))]
pub fn round(s: &[u8], list: &[i64], fleet: &mut [Runner], turn: u64) -> RoundAnswer
    ensures told { told_placed result.placed ≡ round_answer s.now list.now fleet.old turn }
    ensures next { told_next result.next ≡ turn_given s.now list.now fleet.old turn }
    ensures fleet { fleet.new ≡ fleet_after s.now list.now fleet.old turn }
{
    let seats = fleet.len();
    let at = turn as usize;
    let Some(&seat) = fleet.get(at) else {
        return turned_away(s, list, seats, turn);
    };
    let n = serve(s, list, seats, turn, seat);
    fleet[at] = n.at; // (Kept an index: of a write through what `get_mut` lends the proof is not told.)
    n.answer
}
