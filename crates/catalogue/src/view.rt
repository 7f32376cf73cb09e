// A list of names in order, as a view of lent lists that pass the check.
ghost use Rattle.std.specs.Prelude.{◌≡◌, None};
ghost use Rattle.catalogue.specs.Lists.{lists, names_fault, places_fault};
ghost use Rattle.table.specs.Meaning.{rules_of};

use table::Table;

mod check;
mod find;
pub(crate) mod found;
mod look;

// All names one behind the other, where each begins, with the end of the text behind, and a list of names' numbers that is in
// order under the table; it may have some only, or some twice. That a view exists says that its lists would pass the check:
// its ghost fields are what the check finds.
#[derive(Clone, Copy)]
pub struct Catalogue<'a> {
    table: Table<'a>,
    text: &'a [u8],
    starts: &'a [u32],
    places: &'a [u32],
    ghost sound: { names_fault (rules_of table).utf8 text.now starts.now ≡ None },
    ghost listed: { places_fault (lists (rules_of table) text.now starts.now places.now) ≡ None },
}
