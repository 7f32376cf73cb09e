// Pieces, what is read at once in a name, and what they weigh.
//
// A piece is a letter, or a run of two, three or four letters that are one together; what it weighs are `Weights`, one for each
// level, and a letter may weigh as two or three (piece). Runs of three or four letters, and letters that weigh as two or three,
// lie in lists in the order of their first letters, and are found by halving these (long, ranks).
#![tactic(auto)]

mod long;
mod piece;
mod ranks;

pub use long::find_long;
pub use piece::{
    Expanded, Expansion, Letter, LetterEntry, Long, LongRun, Pair, Run, Triples, Weights,
};
pub use ranks::{Ranked, find_ranked, place_for};
