// Commands written as lines.
ghost use Rattle.std.specs.Prelude.{◌≡◌, ◌++◌, IfOk};
ghost use Rattle.texts.specs.Laws.{MayStand};
ghost use Rattle.texts.specs.Lines.{meaning_of, saying, says};
ghost use Rattle.texts.specs.Parts.{without_return};
ghost use Rattle.texts.specs.Written.{saying_text};

use crate::line::Command;
use std::alloc::{AllocError, Global};

impl Command<'_> {
    // As the line that says it, without its end. A name is written behind the word `name`, whatever it begins with. Read again
    // it says the same, where it can stand in a line.
    pub fn to_line(&self, heap: Global) -> Result<Vec<u8>, AllocError>
        ensures line { IfOk result (λ v. v.items ≡ saying_text (saying self.now)) }
        ensures reads_back { MayStand (saying self.now) → IfOk result (λ v. meaning_of (without_return v.items) ≡ says (saying self.now)) }
    {
        match *self {
            Command::Enter(entry) => Ok(entry.to_string(heap)?.into_bytes()),
            Command::Find(text) => worded(heap, b"find ", text),
            Command::Key(name) => worded(heap, b"key ", name),
            Command::Name(name) => worded(heap, b"name ", name),
        }
    }
}

// A word with its space, and a text behind it.
fn worded(heap: Global, word: &[u8], text: &[u8]) -> Result<Vec<u8>, AllocError>
    ensures { IfOk result (λ v. v.items ≡ word.now ++ text.now) }
{
    let mut line = Vec::with_capacity(heap, word.len().saturating_add(text.len()))?;
    line.extend_from_slice(word)?;
    line.extend_from_slice(text)?;
    Ok(line)
}
