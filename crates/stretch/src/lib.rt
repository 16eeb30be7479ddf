// The strokes of one leg (H1 to H3), by recursion over a stretch of it (F9); the leg's places stand in a table. For crate strokes.
#![tactic(auto)]

mod cuts;
mod piece;
mod test;

pub use cuts::{cut, put_end};
pub use piece::TabledLeg;

// The places of one axis in the table: a leg of 256 ticks has 257.
pub const MOST_PLACES: usize = 257;

// A leg's places, axis by axis.
pub type LegPlaces = [[i64; MOST_PLACES]; 3];
