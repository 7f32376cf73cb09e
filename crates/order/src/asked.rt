// What is asked, its first row worked out once for many names.
ghost use Rattle.std.specs.Prelude.{◌≡◌, ◌+◌, ◌<◌, ◌≤◌, ◌++◌, ◌∷◌, [], true, take};
ghost use Rattle.keys.specs.Rows.{row};
ghost use Rattle.keys.specs.declared.level.Level.TheVariants.{Primary};
ghost use Rattle.table.specs.Meaning.{rules_of};

use crate::collate::{Collate, Standing};
use keys::{Level, Row};
use std::cmp::Ordering;
use table::Table;

// A question under a table. The row of a short one is stored; that of another is read with each name.
#[derive(Drop)]
pub struct Asked<'a, 't, 'q> {
    table: &'a Table<'t>,
    ask: &'q [u8],
    weights: [u16; 32],
    count: usize,
    stored: bool,
    ghost within: { count ≤ 32 },
    ghost known: { stored ≡ true → take count weights ≡ row Primary (rules_of table.now) ask.now },
}

impl<'a, 't, 'q> Asked<'a, 't, 'q> {
    // How many bytes a question has at the most whose row is stored, and how many weights that row.
    const SHORT: usize = 32;

    pub fn new(table: &'a Table<'t>, ask: &'q [u8]) -> Asked<'a, 't, 'q>
        ensures { (result.table ≡ table.entry) × (result.ask ≡ ask.entry) }
    {
        let mut weights = [0; 32];
        let mut count = 0;
        let mut stored = ask.len() <= Self::SHORT;
        if stored {
            for weight in Row::new(table, Level::Primary, ask) {
                if count < Self::SHORT {
                    count = store(&mut weights, count, weight as u16);
                } else {
                    stored = false;
                }
            }
        }
        Asked {
            table,
            ask,
            weights,
            count,
            stored,
        }
    }
}

impl Asked<'_, '_, '_> {
    ghost use Rattle.order.specs.Names.{standing};

    // Where a name stands to it, by their first rows.
    pub fn standing(&self, name: &[u8]) -> Standing
        ensures { result ≡ standing (row Primary (rules_of self.now.table.now) name.now) (row Primary (rules_of self.now.table.now) self.now.ask.now) }
    {
        if !self.stored {
            return self.table.standing(name, self.ask);
        }
        let mut row = Row::new(self.table, Level::Primary, name);
        for weight in &self.weights[..self.count] {
            match row.next().cmp(&Some(*weight as u32)) {
                Ordering::Less => return Standing::Before,
                Ordering::Equal => {}
                Ordering::Greater => return Standing::After,
            }
        }
        Standing::Begins
    }
}

// One weight more behind the first so many; how many there are then.
fn store(weights: &mut [u16; 32], count: usize, weight: u16) -> usize
    requires { count < 32 }
    ensures weights { take result weights.new ≡ take count weights.old ++ weight ∷ [] }
    ensures count { result ≡ count + 1 }
{
    weights[count] = weight;
    count + 1
}
