// Names as rows of weights, and their sort keys.
//
// Names are bytes, read letter by letter (letters). A `Walk` reads a name piece by piece (walk), a `Row` its weights on one of
// three levels (row, level), and `KeyNumbers` the rows of all levels, one after the other (numbers). Keys are written into lent
// room (fill), those of short names all rows in one go (rows). The trait `SortKeys` gives a checked `Table` the methods that
// measure, write and make a key (sort_key); `make_key` does it from lent numbers alone (entry). What is turned away is a
// `NameRefusal` (fault), and `key_laws` carries what is promised of every name (laws).
#![tactic(auto)]

mod entry;
mod fault;
mod fill;
mod laws;
mod letters;
mod level;
mod numbers;
mod row;
mod rows;
mod sort_key;
mod walk;

pub use entry::{Done, make_key};
pub use fault::{KeyError, NameRefusal};
pub use laws::key_laws;
pub use letters::{count_in, first_in, one_byte};
pub use level::Level;
pub use numbers::KeyNumbers;
pub use row::Row;
pub use sort_key::{Short, SortKeys};
