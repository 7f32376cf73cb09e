// What is promised of every list.
ghost use Rattle.std.specs.Prelude.{◌≡◌, ◌↔◌, IsTrue};
ghost use Rattle.catalogue.specs.Laws.{CatalogueLaws};

use crate::fault::{ListFault, NotTaken, TooMany};

// The laws of lists, and what `==` says of faults: that this function is accepted is their proof.
pub fn catalogue_laws()
    ensures laws { CatalogueLaws }
    ensures list_faults { (a b : ListFault) → IsTrue (⟦<ListFault as PartialEq>⟧.eq a b) ↔ (a ≡ b) }
    ensures not_taken { (a b : NotTaken) → IsTrue (⟦<NotTaken as PartialEq>⟧.eq a b) ↔ (a ≡ b) }
    ensures too_many { (a b : TooMany) → IsTrue (⟦<TooMany as PartialEq>⟧.eq a b) ↔ (a ≡ b) }
{}
