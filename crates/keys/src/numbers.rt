// The numbers of a sort key, one after the other.
ghost use Rattle.std.specs.Prelude.{◌≡◌, length};
ghost use Rattle.keys.specs.Reading.{Numbered, numbers_left};
ghost use Rattle.keys.specs.Rows.{key};
ghost use Rattle.table.specs.Meaning.{rules_of};
ghost use Rattle.std.specs.Iterator.{at_most};

use crate::level::Level;
use crate::row::Row;
use table::Table;

// What is left of the row that is being read; the rows of the levels behind it are still to come.
#[derive(Drop)]
pub struct KeyNumbers<'a, 't, 'n> {
    row: Row<'a, 't, 'n>,
    // The whole name, for those rows.
    name: &'n [u8],
}

impl<'a, 't, 'n> KeyNumbers<'a, 't, 'n> {
    // All numbers of a name's key.
    pub fn new(table: &'a Table<'t>, name: &'n [u8]) -> KeyNumbers<'a, 't, 'n>
        ensures { numbers_left result ≡ key (rules_of table.now) name.now }
    {
        KeyNumbers {
            row: Row::new(table, Level::Primary, name),
            name,
        }
    }
}

impl Iterator for KeyNumbers<'_, '_, '_> {
    type Item = u32;

    ghost next_gives = { λ s r t. Numbered s r t };

    ghost remaining = { λ s. at_most (length (numbers_left s)) };

    fn next(&mut self) -> Option<u32> {
        match self.row.next() {
            Some(weight) => Some(weight),
            None => {
                let level = self.row.level.behind()?;
                self.row = Row::new(self.row.walk.table, level, self.name);
                Some(0)
            }
        }
    }
}
