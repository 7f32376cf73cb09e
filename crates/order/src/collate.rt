// Two names compared under a checked table.
ghost use Rattle.std.specs.Prelude.{◌≡◌};
ghost use Rattle.keys.specs.Rows.{row, rows};
ghost use Rattle.keys.specs.declared.level.Level.TheVariants.{Primary};
ghost use Rattle.order.specs.Names.{name_order, standing};
ghost use Rattle.order.specs.Rows.{by_levels, row_order};
ghost use Rattle.table.specs.Meaning.{rules_of};
ghost use Rattle.table.specs.Rules.{Rules};

use crate::front::shared;
use keys::{Level, Row};
use std::cmp::Ordering;
use table::Table;

// Where a name's first row stands to the first row of what is asked, in the order in which a list in order meets them.
#[derive(Clone, Copy, PartialEq, Eq, PartialOrd, Ord, Debug)]
pub enum Standing {
    // Before it.
    Before,
    // It begins with it.
    Begins,
    // After it, and it doesn't begin with it.
    After,
}

// How a table orders names.
pub trait Collate {
    ghost rules: { Self → Rules };

    // Which of two names is before the other. No key is made: behind what both begin with their rows are read side by side,
    // level after level, up to the first difference.
    fn compare(&self, a: &[u8], b: &[u8]) -> Ordering
        ensures keys { result ≡ name_order (rules self.now) a.now b.now }
        ensures levels { result ≡ by_levels (rows (rules self.now) a.now) (rows (rules self.now) b.now) };

    // Where a name stands to what is asked, by their first rows.
    fn standing(&self, name: &[u8], asked: &[u8]) -> Standing
        ensures { result ≡ standing (row Primary (rules self.now) name.now) (row Primary (rules self.now) asked.now) };
}

impl Collate for Table<'_> {
    ghost rules = { rules_of };

    fn compare(&self, a: &[u8], b: &[u8]) -> Ordering {
        let n = shared(self, a, b);
        compare_levels(self, &a[n..], &b[n..])
    }

    fn standing(&self, name: &[u8], asked: &[u8]) -> Standing {
        let mut row = Row::new(self, Level::Primary, name);
        for weight in Row::new(self, Level::Primary, asked) {
            match row.next().cmp(&Some(weight)) {
                Ordering::Less => return Standing::Before,
                Ordering::Equal => {}
                Ordering::Greater => return Standing::After,
            }
        }
        Standing::Begins
    }
}

// Which of two names is before the other, level by level.
fn compare_levels(table: &Table, a: &[u8], b: &[u8]) -> Ordering
    ensures { result ≡ by_levels (rows (rules_of table.now) a.now) (rows (rules_of table.now) b.now) }
{
    for level in Level::ALL {
        let order = compare_rows(table, level, a, b);
        if order.is_ne() {
            return order;
        }
    }
    Ordering::Equal
}

// Which of two names' rows of a level is before the other.
fn compare_rows(table: &Table, level: Level, a: &[u8], b: &[u8]) -> Ordering
    ensures { result ≡ row_order (row level (rules_of table.now) a.now) (row level (rules_of table.now) b.now) }
{
    Row::new(table, level, a).cmp(Row::new(table, level, b))
}
