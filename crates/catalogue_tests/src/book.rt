// Names written one behind the other and looked through one by one, and what letters weigh.
use catalogue::Names;
use order::{Collate, Standing};
use std::alloc::Global;
use std::test::Fail;
use table::{Letter, LetterEntry, Table, TableBuf, Weights};

// A text and its starts, as a catalogue takes them.
#[derive(Drop)]
pub(crate) struct Book {
    pub(crate) text: Vec<u8>,
    pub(crate) starts: Vec<u32>,
}

impl Book {
    pub(crate) fn new(heap: Global, names: &[&[u8]]) -> Result<Book, Fail> {
        let mut text = Vec::new(heap);
        let mut starts = Vec::new(heap);
        starts.push(0)?;
        for name in names {
            text.extend_from_slice(name)?;
            starts.push(u32::try_from(text.len())?)?;
        }
        Ok(Book { text, starts })
    }
}

// Each of these letters weighs so.
pub(crate) fn fill(table: &mut TableBuf, letters: &[(u32, [u16; 3])]) -> Result<(), Fail> {
    for (letter, weights) in letters {
        table.add_letter(entry(*letter, *weights))?;
    }
    Ok(())
}

pub(crate) fn entry(letter: u32, weights: [u16; 3]) -> LetterEntry {
    LetterEntry::from(Letter {
        letter,
        weights: Weights::from(weights),
    })
}

// The numbers of a list whose names begin as asked, by looking at each.
pub(crate) fn filtered(
    heap: Global,
    table: &Table,
    names: Names,
    places: &[u32],
    ask: &[u8],
) -> Result<Vec<u32>, Fail> {
    let mut part = Vec::new(heap);
    for number in places {
        if let Some(name) = names.name(*number) {
            if table.standing(name, ask) == Standing::Begins {
                part.push(*number)?;
            }
        }
    }
    Ok(part)
}
