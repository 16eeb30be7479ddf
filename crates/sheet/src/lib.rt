// The course sheet and its reader (groups S, N, A): whatever bytes are handed over, they are read or refused. For every later crate.
#![tactic(auto)]

mod bytes;
mod fields;
mod legs;
mod limits;
mod reader;
mod refusals;

pub use bytes::{read_signed, read16};
pub use fields::{end_of, leg_length, slope_on, waypoint_on};
pub use limits::{leg_outside, reach_outside, slope_outside};
pub use reader::{kind_of, read, read_by, read_with_sums, sheet_length};

// N4: the largest N.
pub const MOST_POINTS: usize = 512;

// S9: the bytes of the longest sheet that is accepted.
pub const LONGEST_SHEET: usize = 7198;

// P7: the legs from one kept sum to the next, and how many sums that gives at most.
pub const STRIDE: usize = 16;

pub const SUMS: usize = 33;

// N1 to N23, in the order of their numbers.
#[derive(Clone, Copy, Debug, PartialEq, Eq)]
pub enum Refusal {
    Torn = 1,
    Edition = 2,
    Ends = 3,
    Points = 4,
    Size = 5,
    Leg = 6,
    Reach = 7,
    Slope = 8,
    Shelf = 9,
    Past = 10,
    Adrift = 11,
    Bend = 12,
    Landed = 13,
    Page = 14,
    Start = 15,
    Shut = 16,
    Apart = 17,
    Crowded = 18,
    Seats = 19,
    Turn = 20,
    Grain = 21,
    Ink = 22,
    Board = 23,
}

// A2: what reading answers of a sheet that it accepts: the kind, N and P.
#[derive(Clone, Copy, Debug, PartialEq, Eq)]
pub struct Course {
    pub kind: ends::EndKind,
    pub points: usize,
    pub ticks: u64,
}
