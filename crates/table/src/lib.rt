// Tables of weights, checked and looked up.
//
// A `Table` is a view of lent numbers that pass `Table::check` (view); a `TableBuf` owns such numbers, is filled
// letter by letter and run by run, or made of lent records at once, and lends a `Table` (buffer). Both read and
// write numbers by one layout, look pairs up along chains (pairs), longer runs and letters that weigh as two or three in
// lists that are in order, and mark the letters with which runs begin (marks). What is turned away is a `Refusal` (fault).
// The valley's own table is built in (valley), and `table_laws` carries what is promised of every table (laws).
#![tactic(auto)]

mod buffer;
mod fault;
mod laws;
mod layout;
mod marks;
mod others;
mod pairs;
mod valley;
mod view;

pub use buffer::TableBuf;
pub use fault::{AddError, Failure, Refusal};
pub use laws::table_laws;
pub use pieces::{
    Expanded, Expansion, Letter, LetterEntry, Long, LongRun, Pair, Run, Triples, Weights,
};
pub use valley::{valley_letters, valley_pairs};
pub use view::Table;
