// One seat's turn in a fleet's round (A14, group Q), by value. For the fleet, whose lent forms call it (F9).
#![tactic(auto)]

ghost use Rattle.std.specs.Prelude.{◌≡◌, cond, ◌<◌, eqb};
ghost use Rattle.runner.specs.Steps.{moved};
ghost use Rattle.place.specs.Places.{told_placed};
ghost use Rattle.seat.specs.Serving.{flown, served, next_turn, told_next, turn_after, seat_after, nobody};

use place::{Laid, Place};
use runner::Runner;
use sheet::{MOST_POINTS, Refusal};

// N19.
pub const MOST_SEATS: usize = 32;

// The runner of a turn that is no seat's.
pub const NOBODY: Runner = Runner {
    leg: 0,
    offset: 0,
    laps: 0,
};

// The seat's place or the refusal, and beside it the seat that has the next turn (Q3): none beside a refusal that is not a seat's own.
#[derive(Clone, Copy)]
pub struct RoundAnswer {
    pub placed: Result<Place, Refusal>,
    pub next: Option<u64>,
}

// The seat's runner, moved or as it was, and the answer: what `serve` gives back of a record by value (F9).
#[derive(Clone, Copy)]
pub struct SeatOutcome {
    pub at: Runner,
    pub answer: RoundAnswer,
}

// Q2: the seat after this one, the first after the last.
fn next_turn(seats: usize, turn: u64) -> u64
    requires { turn < seats }
    ensures { result ≡ next_turn seats turn }
{
    if turn + 1 == seats as u64 {
        return 0;
    }
    turn + 1
}

// A refusal that is not a seat's own: no turn beside it, and the runner as it came (A9).
fn kept(refusal: Refusal, at: Runner) -> SeatOutcome
    ensures { (result.answer.placed ≡ Err refusal) × (result.answer.next ≡ None) × (result.at ≡ at) }
{
    SeatOutcome {
        at,
        answer: RoundAnswer {
            placed: Err(refusal),
            next: None,
        },
    }
}

// The seat on a course that was admitted: 11, 13, then the step and the place there, or 12. A refused one stays where it was (A9).
#[tactic(auto, using(runner::proofs::Onward::moved_fits, place::proofs::Fitting::leg_fits, answers::proofs::Guards::refused_keeps, answers::proofs::Guards::done_changes), unfolding(crate::specs::Serving::flown))]
fn fly(laid: &Laid<'_>, at: &mut Runner) -> Result<Place, Refusal>
    ensures told { told_placed result ≡ flown laid.now.sheet.bytes.now laid.now.list.now at.old }
    ensures at { at.new ≡ cond (eqb (flown laid.now.sheet.bytes.now laid.now.list.now at.old).number 0) (moved laid.now.sheet.bytes.now at.old) at.old }
{
    if runner::is_adrift(&laid.sheet, *at) {
        return Err(Refusal::Adrift);
    }
    if runner::is_landed(&laid.sheet, *at) {
        return Err(Refusal::Landed);
    }
    let moved = runner::moved(&laid.sheet, *at);
    let place = place::place_at(laid, moved)?;
    *at = moved;
    Ok(place)
}

// A14: the turn `turn` of `seats`, taken by the runner `at`. Tests 1 to 9, 19, 20, then 11, 13, 12.
#[tactic(auto, using(runner::proofs::Entry::opening, answers::proofs::Guards::refused_keeps, answers::proofs::Guards::done_changes), unfolding(crate::specs::Serving::served, crate::specs::Serving::turn_after, crate::specs::Serving::seat_after))]
pub fn serve(s: &[u8], list: &[i64], seats: usize, turn: u64, at: Runner) -> SeatOutcome
    ensures told { told_placed result.answer.placed ≡ served s.now list.now seats turn at }
    ensures next { told_next result.answer.next ≡ turn_after s.now list.now seats turn }
    ensures at { result.at ≡ seat_after s.now list.now seats turn at }
{
    let reading = answers::open(MOST_POINTS, s);
    let Ok(sheet) = reading else {
        return kept(reading.unwrap_err(), at);
    };
    let with_list = Laid::on(sheet, list);
    let Ok(laid) = with_list else {
        return kept(with_list.unwrap_err(), at);
    };
    if (seats == 0) | (MOST_SEATS < seats) {
        return kept(Refusal::Seats, at);
    }
    if seats as u64 <= turn {
        return kept(Refusal::Turn, at);
    }
    let next = Some(next_turn(seats, turn));
    let mut at = at;
    let placed = fly(&laid, &mut at);
    SeatOutcome {
        at,
        answer: RoundAnswer { placed, next },
    }
}

// A14, where the turn is no seat's: one of 1 to 9, 19 or 20. It is asked of a runner that no seat has.
pub fn turned_away(s: &[u8], list: &[i64], seats: usize, turn: u64) -> RoundAnswer
    ensures told { told_placed result.placed ≡ served s.now list.now seats turn nobody }
    ensures next { told_next result.next ≡ turn_after s.now list.now seats turn }
{
    serve(s, list, seats, turn, NOBODY).answer
}
