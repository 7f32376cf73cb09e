// Lists of names in order.
//
// `Names` are a text and where each name begins in it (names), and a `Catalogue` a list of their numbers that is in order under
// a table (view); both are views of lent lists that pass a check, and what is wrong with others is a `ListFault` (fault). A
// catalogue hands back the part of its list that begins so; `Names` are put in order by `in_order` (names). A `CatalogueBuf` owns
// names and a table that grow, and lends the catalogue of all its names (buffer); a name may be `NotTaken` (fault). `find` and
// `find_under` find in lists that were not checked before (entry), and `catalogue_laws` carries what is promised of every list
// (laws).
#![tactic(auto)]

mod buffer;
mod entry;
mod fault;
mod laws;
mod names;
mod view;

pub use buffer::CatalogueBuf;
pub use entry::{find, find_under};
pub use fault::{ListFault, NotTaken, OrderError, PushError, TooMany};
pub use laws::catalogue_laws;
pub use names::Names;
pub use view::Catalogue;
pub use view::found::NamesFound;
