// The kinds of a course's ends (S4), and what is chosen by the kind alone (F2). For every crate that knows a course.
#![tactic(auto)]

ghost use Rattle.std.specs.Prelude.{◌≡◌, ◌≤◌};
ghost use Rattle.ends.specs.Ends.{kind_number, kind_named, leg_count, least_points};

// S4: in the order of their numbers.
#[derive(Clone, Copy, Debug, PartialEq, Eq)]
pub enum EndKind {
    Free,
    Held,
    Closed,
}

// S4: the kind's number.
impl From<EndKind> for u64 {
    ghost from_gives = { λ kind n. n ≡ kind_number kind };

    fn from(kind: EndKind) -> u64 {
        kind as u64
    }
}

// A number that no kind has (N3).
#[derive(Clone, Copy, Debug, PartialEq, Eq)]
pub struct UnknownKind {
    pub number: u64,
}

// S4: the kind of a number.
impl TryFrom<u64> for EndKind {
    type Error = UnknownKind;

    ghost try_from_gives = { λ n named. named ≡ kind_named n };

    fn try_from(number: u64) -> Result<EndKind, UnknownKind> {
        match number {
            0 => Ok(EndKind::Free),
            1 => Ok(EndKind::Held),
            2 => Ok(EndKind::Closed),
            _ => Err(UnknownKind { number }),
        }
    }
}

// S6: L, of N waypoints.
pub fn leg_count(kind: EndKind, points: usize) -> usize
    requires { 1 ≤ points }
    ensures { result ≡ leg_count kind points }
{
    match kind {
        EndKind::Free => points - 1,
        EndKind::Held => points - 1,
        EndKind::Closed => points,
    }
}

// N4: the least N.
pub fn least_points(kind: EndKind) -> usize
    ensures { result ≡ least_points kind }
{
    match kind {
        EndKind::Free => 2,
        EndKind::Held => 2,
        EndKind::Closed => 3,
    }
}
