// The round over plain numbers, leg, offset and laps of each seat in turn, for callers without records, as at the C boundary.
ghost use Rattle.std.specs.Prelude.{◌≡◌, ◌/◌, ◌≤◌, ◌<◌, set, length, MatchOption};
ghost use Rattle.place.specs.Places.{told_placed};
ghost use Rattle.seat.specs.Serving.{told_next};
ghost use Rattle.fleet.specs.Round.{seat_of, round_answer, turn_given};
ghost use Rattle.fleet.specs.Numbers.{records, with_records, numbers_after};

use runner::Runner;
use seat::{NOBODY, RoundAnswer, serve};

// The record of a seat, if the turn is one's. (Kept indices, here and below: C hands plain numbers over, and a seat's three have names.)
#[tactic(auto, using(crate::proofs::Triples::count_is, crate::proofs::Triples::seat_lent))]
fn record_at(lent: &[u64], turn: u64) -> Option<Runner>
    ensures { MatchOption result (length lent.now / 3 ≤ turn) (λ r. (turn < length lent.now / 3) × (r ≡ seat_of (records lent.now) turn)) }
{
    if (lent.len() / 3) as u64 <= turn {
        return None;
    }
    let first = 3 * turn as usize;
    let leg = lent[first];
    let offset = lent[first + 1];
    let laps = lent[first + 2];
    Some(Runner { leg, offset, laps })
}

// A seat's record set to this one.
#[tactic(auto, using(crate::proofs::Triples::count_is, crate::proofs::Triples::set_numbers))]
fn put_record(lent: &mut [u64], turn: u64, at: Runner)
    requires { turn < length lent.old / 3 }
    ensures { lent.new ≡ with_records lent.old (set (records lent.old) turn at) }
{
    let first = 3 * turn as usize;
    lent[first] = at.leg;
    lent[first + 1] = at.offset;
    lent[first + 2] = at.laps;
}

// (One call of `serve`, for a turn that is no seat's too: with two the compiler keeps it apart, and a round at N = 3 takes a third longer.)
#[tactic(auto, using(crate::proofs::Triples::count_is, crate::proofs::Triples::kept_numbers, crate::proofs::Lent::away_told, crate::proofs::Lent::away_kept, crate::proofs::Lent::seat_set), unfolding(crate::specs::Numbers::numbers_after))]
pub fn round_numbers(s: &[u8], list: &[i64], lent: &mut [u64], turn: u64) -> RoundAnswer
    ensures told { told_placed result.placed ≡ round_answer s.now list.now (records lent.old) turn }
    ensures next { told_next result.next ≡ turn_given s.now list.now (records lent.old) turn }
    ensures lent { lent.new ≡ numbers_after s.now list.now lent.old turn }
{
    let seats = lent.len() / 3;
    let seat = record_at(lent, turn);
    let n = serve(s, list, seats, turn, seat.unwrap_or(NOBODY));
    if seat.is_some() {
        put_record(lent, turn, n.at);
    }
    n.answer
}
