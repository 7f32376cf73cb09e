// The order of names.
//
// The trait `Collate` gives a checked `Table` two methods: `compare` of two names, level by level, and where a name stands to
// what is asked, a `Standing` (collate). What both names begin with is passed over (front). An `Asked` is a question whose row is
// worked out once for many names (asked). `keeps_order` says whether a newer table keeps old pieces as they stood (newer,
// piece), and `row_laws` and `order_laws` carry what is promised of rows and of names (laws).
#![tactic(auto)]

mod asked;
mod collate;
mod front;
mod laws;
mod newer;
mod piece;

pub use asked::Asked;
pub use collate::{Collate, Standing};
pub use laws::{order_laws, row_laws};
pub use newer::{Change, keeps_order};
pub use piece::Piece;
