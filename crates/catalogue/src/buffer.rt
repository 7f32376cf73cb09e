// Names that are owned, and put in order when they are asked for.
ghost use Rattle.std.specs.Prelude.{◌≡◌, ◌^◌, ◌≤◌, None, false, length, true, []};
ghost use Rattle.catalogue.specs.Arranging.{Arranged};
ghost use Rattle.catalogue.specs.Lists.{lists, names_fault, places_fault};
ghost use Rattle.table.specs.Buffer.{buffer_rules};

use table::TableBuf;

mod fill;
mod open;

// A table and names, both owned and both growing, and the list of all names in order under the table, once it has been asked
// for. A name that comes and a table that changes let go of the list; it is made anew when it is asked for again.
#[derive(Drop)]
pub struct CatalogueBuf {
    table: TableBuf,
    text: Vec<u8>,
    starts: Vec<u32>,
    // All names' numbers in order, where they have been put in order; else none.
    places: Vec<u32>,
    arranged: bool,
    ghost sound: { names_fault (buffer_rules table).utf8 text.items starts.items ≡ None },
    ghost few: { length starts.items ≤ 2 ^ 32 },
    ghost listed: { places_fault (lists (buffer_rules table) text.items starts.items places.items) ≡ None },
    ghost none: { arranged ≡ false → places.items ≡ [] },
    ghost whole: { ∥ (arranged ≡ true → Arranged (lists (buffer_rules table) text.items starts.items places.items)) ∥₁ },
}
