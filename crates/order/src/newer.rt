// What a newer table keeps of an older one.
ghost use Rattle.order.specs.Changes.{Decided, IsSo, Parted, SameOrder, SamePart, SameZero, Tested, WeighedIn};
ghost use Rattle.order.specs.Pieces.{old_in};
ghost use Rattle.order.specs.declared.newer.Change.TheVariants.{Counts, Order};
ghost use Rattle.table.specs.Meaning.{rules_of};

use crate::piece::{OldPieces, Parts, Piece};
use keys::Level;
use table::Table;

// What a newer table says of old letters otherwise than the older one.
#[derive(Clone, Copy, PartialEq, Eq, Debug)]
pub enum Change {
    // Names are in UTF-8 under only one of the tables.
    Utf8,
    // These letters, a run, are one together in only one of the tables.
    Joins(Piece),
    // This letter weighs as another number of letters: it has not as many triples of weights.
    Expands(Piece),
    // This piece weighs 0 on the level in only one of the tables; of one that weighs as several, one of its triples does.
    Counts(Piece, Level),
    // These two pieces do not stand to each other on the level as before, or do not with one of their triples.
    Order(Piece, Piece, Level),
}

// Whether the newer table keeps what the older one says of old letters; else what has changed. Where it keeps, all names in
// old letters stand to each other as before. Old are the letters that are marked, by their numbers.
pub fn keeps_order(older: &Table, newer: &Table, old: &[bool]) -> Result<(), Change>
    ensures { Decided (old_in old.now) (rules_of older.now) (rules_of newer.now) result }
{
    if older.utf8() != newer.utf8() {
        return Err(Change::Utf8);
    }
    for piece in OldPieces::new(newer, old) {
        Weighed::new(piece, older, newer)?;
    }
    for piece in OldPieces::new(older, old) {
        Weighed::new(piece, older, newer)?.same_parts()?;
    }
    // A letter that only the newer table lists weighs nothing under the older.
    for piece in OldPieces::new(newer, old) {
        Weighed::new(piece, older, newer)?.same_parts()?;
    }
    for piece in OldPieces::new(older, old) {
        let weighed = Weighed::new(piece, older, newer)?;
        for other in OldPieces::new(older, old) {
            weighed.same_order(&Weighed::new(other, older, newer)?)?;
        }
    }
    Ok(())
}

// A piece, and what it weighs under both tables.
#[derive(Clone, Copy)]
struct Weighed {
    piece: Piece,
    older: Parts,
    newer: Parts,
}

impl Weighed {
    fn new(piece: Piece, older: &Table, newer: &Table) -> Result<Weighed, Change>
        ensures { WeighedIn (rules_of older.now) (rules_of newer.now) piece result }
    {
        match (piece.parts(older), piece.parts(newer)) {
            (Some(older), Some(newer)) => Ok(Weighed {
                piece,
                older,
                newer,
            }),
            _ => Err(Change::Joins(piece)),
        }
    }

    // Whether it has as many triples under both tables, which weigh 0 on the same levels; else that it hasn't, or one on which one of
    // them doesn't.
    fn same_parts(&self) -> Result<(), Change>
        ensures { Parted self.now result }
    {
        if self.older.count() != self.newer.count() {
            return Err(Change::Expands(self.piece));
        }
        self.same_zeros()
    }

    // Whether its triples weigh 0 on the same levels under both tables; else one on which one of them doesn't.
    fn same_zeros(&self) -> Result<(), Change>
        ensures { Tested (SameZero self.now) (Counts self.now.piece) result }
    {
        for level in Level::ALL {
            if !self.zeros_on(level) {
                return Err(Change::Counts(self.piece, level));
            }
        }
        Ok(())
    }

    // The same on one level.
    fn zeros_on(&self, level: Level) -> bool
        ensures { IsSo result (SameZero self.now level) }
    {
        for part in 0..self.older.count() {
            let now = level.weight(self.newer.get(part)) == 0;
            let before = level.weight(self.older.get(part)) == 0;
            if now != before {
                return false;
            }
        }
        true
    }

    // Whether its triples stand to those of another piece on each level as before; else one on which they don't.
    fn same_order(&self, other: &Weighed) -> Result<(), Change>
        ensures { Tested (SameOrder self.now other.now) (Order self.now.piece other.now.piece) result }
    {
        for level in Level::ALL {
            if !self.order_on(other, level) {
                return Err(Change::Order(self.piece, other.piece, level));
            }
        }
        Ok(())
    }

    // The same on one level.
    fn order_on(&self, other: &Weighed, level: Level) -> bool
        ensures { IsSo result (SameOrder self.now other.now level) }
    {
        for part in 0..self.older.count() {
            if !self.part_on(part, other, level) {
                return false;
            }
        }
        true
    }

    // The same of one of its triples.
    fn part_on(&self, part: usize, other: &Weighed, level: Level) -> bool
        ensures { IsSo result (SamePart self.now part other.now level) }
    {
        for behind in 0..other.older.count() {
            let now = level
                .weight(self.newer.get(part))
                .cmp(&level.weight(other.newer.get(behind)));
            let before = level
                .weight(self.older.get(part))
                .cmp(&level.weight(other.older.get(behind)));
            if now != before {
                return false;
            }
        }
        true
    }
}
