// The waypoint that two sheets share, or not (N17), and how many they have together. For join and put.
ghost use Rattle.std.specs.Prelude.{◌≡◌, [], ◌∷◌, ◌≤◌, ◌<◌};
ghost use Rattle.sheet.specs.Fields.{waypoint};
ghost use Rattle.lists.specs.Lists.{points_in};
ghost use Rattle.join.specs.Joining.{apart, joined_lists};

use crate::pair::FreePair;
use answers::OpenSheet;

// S7: north, east and up of waypoint i.
fn waypoint(sheet: &OpenSheet<'_>, i: usize) -> [i64; 3]
    requires { i < sheet.now.points }
    ensures { result ≡ waypoint sheet.now.bytes.now 0 i ∷ waypoint sheet.now.bytes.now 1 i ∷ waypoint sheet.now.bytes.now 2 i ∷ [] }
{
    let legs = sheet.legs();
    [
        sheet::waypoint_on(sheet.bytes, legs, 0, i),
        sheet::waypoint_on(sheet.bytes, legs, 1, i),
        sheet::waypoint_on(sheet.bytes, legs, 2, i),
    ]
}

// N17: the last waypoint of the first is not the first of the second.
#[tactic(auto, using(crate::proofs::Course::pair_bounds))]
pub fn is_apart(pair: &FreePair<'_>) -> bool
    ensures { result ≡ apart pair.now.first.bytes.now pair.now.second.bytes.now }
{
    waypoint(&pair.first, pair.first.points - 1) != waypoint(&pair.second, 0)
}

impl FreePair<'_> {
    // J2: N of the joined course, in which the shared waypoint stands once.
    #[tactic(auto, using(crate::proofs::Course::pair_bounds, crate::proofs::Course::pair_count))]
    pub fn points(&self) -> usize
        ensures count { result ≡ points_in (joined_lists self.now.first.bytes.now self.now.second.bytes.now).waypoints }
        ensures fits { (1 ≤ result) × (result < 65536) }
    {
        self.first.points + self.second.points - 1
    }
}
