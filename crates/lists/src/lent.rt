// A course as lists, as a caller lends them. For tested, and for writer.

// G1: the kind's number, the legs, north, east and up of each waypoint in turn, and of each side the slopes alike. (Of the kind a number: one that names none
// is refused by its test, N3, like the others.)
#[derive(Clone, Copy)]
pub struct LentLists<'a> {
    pub kind: u64,
    pub legs: &'a [u64],
    pub waypoints: &'a [i64],
    pub slopes: &'a [i64],
}
