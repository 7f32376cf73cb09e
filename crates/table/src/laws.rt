// What is promised of every table.
ghost use Rattle.std.specs.Prelude.{◌≡◌, ◌↔◌, IsTrue};
ghost use Rattle.table.specs.Laws.{Laws};
ghost use Rattle.table.specs.declared.fault.Refusal.{Refusal};
ghost use Rattle.pieces.specs.declared.piece.Expanded.{Expanded};
ghost use Rattle.pieces.specs.declared.piece.Expansion.{Expansion};
ghost use Rattle.pieces.specs.declared.piece.Letter.{Letter};
ghost use Rattle.pieces.specs.declared.piece.LetterEntry.{LetterEntry};
ghost use Rattle.pieces.specs.declared.piece.Long.{Long};
ghost use Rattle.pieces.specs.declared.piece.LongRun.{LongRun};
ghost use Rattle.pieces.specs.declared.piece.Pair.{Pair};
ghost use Rattle.pieces.specs.declared.piece.Triples.{Triples};
ghost use Rattle.pieces.specs.declared.piece.Weights.{Weights};

use crate::fault::Refusal;
use crate::view::Table;
use pieces::{Expanded, Expansion, Letter, LetterEntry, Long, LongRun, Pair, Triples, Weights};

// The laws of tables, the limits of a table, and that `==` of what is public is true just of what is the same: that this
// function is accepted is their proof.
pub fn table_laws()
    ensures laws { Laws }
    ensures limits { (Table.LETTERS ≡ 256) × (Table.MAX_LETTERS ≡ 2000) × (Table.MAX_RUNS ≡ 200) × (Table.MAX_NAME ≡ 1000) }
    ensures same { ((a b : Refusal) → IsTrue (⟦<Refusal as PartialEq>⟧.eq a b) ↔ (a ≡ b)) × ((a b : Weights) → IsTrue (⟦<Weights as PartialEq>⟧.eq a b) ↔ (a ≡ b)) × ((a b : Letter) → IsTrue (⟦<Letter as PartialEq>⟧.eq a b) ↔ (a ≡ b)) × ((a b : Pair) → IsTrue (⟦<Pair as PartialEq>⟧.eq a b) ↔ (a ≡ b)) × ((a b : LongRun) → IsTrue (⟦<LongRun as PartialEq>⟧.eq a b) ↔ (a ≡ b)) × ((a b : Long) → IsTrue (⟦<Long as PartialEq>⟧.eq a b) ↔ (a ≡ b)) × ((a b : Expanded) → IsTrue (⟦<Expanded as PartialEq>⟧.eq a b) ↔ (a ≡ b)) × ((a b : Expansion) → IsTrue (⟦<Expansion as PartialEq>⟧.eq a b) ↔ (a ≡ b)) × ((a b : Triples) → IsTrue (⟦<Triples as PartialEq>⟧.eq a b) ↔ (a ≡ b)) × ((a b : LetterEntry) → IsTrue (⟦<LetterEntry as PartialEq>⟧.eq a b) ↔ (a ≡ b)) }
{}
