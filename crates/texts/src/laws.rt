// What is promised of lines.
ghost use Rattle.std.specs.Prelude.{◌≡◌, ◌↔◌, IsTrue};
ghost use Rattle.texts.specs.Laws.{TextLaws};
ghost use Rattle.texts.specs.Lines.{meaning, saying};

use crate::fault::Fault;
use crate::line::{Command, Entry, Line};

// The laws of lines, and what `==` says: that this function is accepted is their proof.
pub fn text_laws()
    ensures laws { TextLaws }
    ensures equal_faults { (a b : Fault) → IsTrue (⟦<Fault as PartialEq>⟧.eq a b) ↔ (a ≡ b) }
    ensures equal_entries { (a b : Entry) → IsTrue (⟦<Entry as PartialEq>⟧.eq a b) ↔ (a ≡ b) }
    ensures equal_commands { (a b : Command) → IsTrue (⟦<Command<'static> as PartialEq>⟧.eq a b) ↔ (saying a ≡ saying b) }
    ensures equal_lines { (a b : Line) → IsTrue (⟦<Line<'static> as PartialEq>⟧.eq a b) ↔ (meaning a ≡ meaning b) }
{}
