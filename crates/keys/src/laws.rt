// What is promised of every name and its key.
ghost use Rattle.std.specs.Prelude.{◌≡◌, ◌↔◌, [], ◌∷◌, IsTrue};
ghost use Rattle.keys.specs.Laws.{Laws};
ghost use Rattle.keys.specs.declared.entry.Done.{Done};
ghost use Rattle.keys.specs.declared.fault.NameRefusal.{NameRefusal};
ghost use Rattle.keys.specs.declared.level.Level.{Level};
ghost use Rattle.keys.specs.declared.level.Level.TheVariants.{Primary, Secondary, Tertiary};
ghost use Rattle.keys.specs.declared.sort_key.Short.{Short};
ghost use Rattle.table.specs.Meaning.{rules_of};
ghost use Rattle.table.specs.declared.view.Table.{Table};

use crate::entry::Done;
use crate::fault::NameRefusal;
use crate::level::Level;
use crate::sort_key::{Short, SortKeys};
use table::Table;

// The laws of keys, which levels there are, whose rules keys go by, and that `==` of what is public is true just of what is the
// same: that this function is accepted is their proof.
pub fn key_laws()
    ensures laws { Laws }
    ensures levels { Level.ALL ≡ Primary ∷ (Secondary ∷ (Tertiary ∷ [])) }
    ensures rules { (t : Table) → ⟦<Table<'static> as SortKeys>⟧.rules t ≡ rules_of t }
    ensures same { ((a b : NameRefusal) → IsTrue (⟦<NameRefusal as PartialEq>⟧.eq a b) ↔ (a ≡ b)) × ((a b : Level) → IsTrue (⟦<Level as PartialEq>⟧.eq a b) ↔ (a ≡ b)) × ((a b : Done) → IsTrue (⟦<Done as PartialEq>⟧.eq a b) ↔ (a ≡ b)) × ((a b : Short) → IsTrue (⟦<Short as PartialEq>⟧.eq a b) ↔ (a ≡ b)) }
{}
