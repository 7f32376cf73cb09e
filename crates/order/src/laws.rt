// What is promised of rows and of names in order.
ghost use Rattle.std.specs.Prelude.{◌≡◌, ◌↔◌, IsTrue};
ghost use Rattle.std.specs.Ordering.{nat_cmp};
ghost use Rattle.order.specs.Laws.{OrderLaws, RowLaws};
ghost use Rattle.order.specs.Names.{along};
ghost use Rattle.order.specs.declared.collate.Standing.{Standing};
ghost use Rattle.order.specs.declared.newer.Change.{Change};
ghost use Rattle.order.specs.declared.piece.Piece.{Piece};
ghost use Rattle.table.specs.Meaning.{rules_of};
ghost use Rattle.table.specs.declared.view.Table.{Table};

use crate::collate::{Collate, Standing};
use crate::newer::Change;
use crate::piece::Piece;
use table::Table;

// The laws of rows, in any number: that this function is accepted is their proof.
pub fn row_laws()
    ensures { RowLaws }
{}

// The laws of names, by whose rules they are compared, which standing is met first, and that `==` of what is public is true just
// of what is the same: that this function is accepted is their proof.
pub fn order_laws()
    ensures laws { OrderLaws }
    ensures rules { (t : Table) → ⟦<Table<'static> as Collate>⟧.rules t ≡ rules_of t }
    ensures standings { (a b : Standing) → ⟦<Standing as Ord>⟧.cmp a b ≡ nat_cmp (along a) (along b) }
    ensures same_standings { (a b : Standing) → IsTrue (⟦<Standing as PartialEq>⟧.eq a b) ↔ (a ≡ b) }
    ensures same_pieces { (a b : Piece) → IsTrue (⟦<Piece as PartialEq>⟧.eq a b) ↔ (a ≡ b) }
    ensures same_changes { (a b : Change) → IsTrue (⟦<Change as PartialEq>⟧.eq a b) ↔ (a ≡ b) }
{}
