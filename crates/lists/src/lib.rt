// A course as lists, and the tests before a sheet is written from them (G1 to G4). For writer, and for calls that make sheets.
#![tactic(auto)]

mod lent;
mod tested;

pub use lent::LentLists;
pub use tested::answer;
