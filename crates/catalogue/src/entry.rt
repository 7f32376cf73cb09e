// Finding in lists that are lent and not checked before.
ghost use Rattle.catalogue.specs.Entry.{FindSays, FindsUnder};
ghost use Rattle.catalogue.specs.Finding.{BothOrNeither};
ghost use Rattle.catalogue.specs.Lists.{lists};
ghost use Rattle.table.specs.Meaning.{rules_of};

use crate::view::Catalogue;
use table::Table;

// The part of a list whose names begin as asked, under a table that is lent as numbers; a part of none where the table, the
// lists or what is asked are not as they should be. All is checked each time. What it takes are slices and a number, one by
// one, for callers who know tables by numbers alone.
pub fn find<'a>(
    letters: &[u16],
    joins: &[u16],
    how_many: u64,
    text: &[u8],
    starts: &[u32],
    places: &'a [u32],
    ask: &[u8],
) -> &'a [u32]
    ensures { FindSays letters.now joins.now how_many text.now starts.now places.now ask.now result.now }
{
    match Table::check(letters, joins, how_many) {
        Ok(table) => find_under(&table, text, starts, places, ask),
        Err(_) => &places[..0],
    }
}

// The same under a checked table. The lists are checked each time.
pub fn find_under<'a>(
    table: &Table,
    text: &[u8],
    starts: &[u32],
    places: &'a [u32],
    ask: &[u8],
) -> &'a [u32]
    ensures found { FindsUnder (lists (rules_of table.now) text.now starts.now places.now) ask.now result.now }
    ensures written_out { BothOrNeither (lists (rules_of table.now) text.now starts.now places.now) result.now }
{
    let Ok(catalogue) = Catalogue::check(table, text, starts, places) else {
        return &places[..0];
    };
    let range = catalogue.range(ask);
    &places[range.start..range.end]
}
