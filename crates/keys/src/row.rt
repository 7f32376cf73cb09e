// A name's row of a level.
ghost use Rattle.std.specs.Prelude.{◌≡◌, None, length};
ghost use Rattle.keys.specs.Reading.{Rowed, row_left};
ghost use Rattle.keys.specs.Rows.{row};
ghost use Rattle.table.specs.Meaning.{rules_of};
ghost use Rattle.pieces.specs.Runs.{nothing};
ghost use Rattle.std.specs.Iterator.{at_most};

use crate::level::Level;
use crate::walk::Walk;
use table::Table;

// The weights of a level that count, one after the other, of what is left of a name.
#[derive(Drop)]
pub struct Row<'a, 't, 'n> {
    pub(crate) walk: Walk<'a, 't, 'n>,
    pub(crate) level: Level,
}

impl<'a, 't, 'n> Row<'a, 't, 'n> {
    // The whole row of a name.
    pub fn new(table: &'a Table<'t>, level: Level, name: &'n [u8]) -> Row<'a, 't, 'n>
        ensures row { row_left result ≡ row level (rules_of table.now) name.now }
        ensures start { result ≡ record { walk = record { table = table.entry; rest = name.entry; weights = nothing; more = None }; level = level } }
    {
        Row {
            walk: Walk::new(table, name),
            level,
        }
    }
}

impl Iterator for Row<'_, '_, '_> {
    type Item = u32;

    ghost next_gives = { λ s r t. Rowed s r t };

    ghost remaining = { λ s. at_most (length (row_left s)) };

    fn next(&mut self) -> Option<u32> {
        while self.walk.step() {
            let weight = self.level.weight(self.walk.weights);
            if weight != 0 {
                return Some(weight as u32);
            }
        }
        None
    }
}
