// The rules of the order, written down once more: names read under a table in plain numbers. Nothing here asks the library.
use crate::plain::Plain;
use crate::reading;
use crate::spread::Spread;
use keys::NameRefusal;
use std::alloc::{AllocError, Global};
use std::cmp::Ordering;

// A name as it was read under a table.
#[derive(Drop)]
pub(crate) struct Name {
    pub(crate) bytes: Vec<u8>,
    // Why it is no name, where it is none.
    pub(crate) refusal: Option<NameRefusal>,
    pub(crate) key: Vec<u32>,
    pub(crate) row: Vec<u32>,
    // How many letters its longest piece has, and how many triples of weights the piece that weighs as most.
    pub(crate) longest: usize,
    pub(crate) widest: usize,
}

impl Plain {
    // What letters begin with: four that are one, else three, else two, else the first alone. What it weighs, and how many letters
    // it has.
    fn first_piece(&self, letters: &[u32]) -> (Spread, usize) {
        for many in [4usize, 3, 2] {
            if let Some(weights) = letters.get(..many).and_then(|run| self.run(run)) {
                return (Spread::new(&[weights]), many);
            }
        }
        match letters.first() {
            Some(letter) => (self.spread(*letter), 1),
            None => (Spread::new(&[]), 1),
        }
    }

    // A name read from the left, piece by piece, its key and its first row.
    pub(crate) fn name(&self, heap: Global, name: &[u8]) -> Result<Name, AllocError> {
        let letters = reading::letters(heap, self.utf8, name)?;
        let mut triples = Vec::new(heap);
        let mut longest = 0;
        let mut widest = 0;
        let mut passed = 0usize;
        for place in 0..letters.len() {
            if passed > 0 {
                passed -= 1;
                continue;
            }
            let (spread, many) = self.first_piece(letters.get(place..).unwrap_or(&[]));
            triples.extend_from_slice(spread.triples())?;
            longest = many.max(longest);
            widest = spread.triples().len().max(widest);
            passed = many.saturating_sub(1);
        }
        let row = row(heap, &triples, 0)?;
        let mut key = row.to_vec(heap)?;
        for level in 1..3 {
            key.push(0)?;
            key.extend_from_slice(&self::row(heap, &triples, level)?)?;
        }
        Ok(Name {
            bytes: name.to_vec(heap)?,
            refusal: reading::refusal(self.utf8, name),
            key,
            row,
            longest,
            widest,
        })
    }
}

// The weights of a level, without zeros.
fn row(heap: Global, triples: &[[u16; 3]], level: usize) -> Result<Vec<u32>, AllocError> {
    let mut row = Vec::new(heap);
    for triple in triples {
        if let Some(weight) = triple.get(level) {
            if *weight != 0 {
                row.push(*weight as u32)?;
            }
        }
    }
    Ok(row)
}

// Which of two keys, or of two rows, is before the other, number by number.
pub(crate) fn compare(one: &[u32], other: &[u32]) -> Ordering {
    for (a, b) in one.iter().zip(other) {
        if *a < *b {
            return Ordering::Less;
        }
        if *a > *b {
            return Ordering::Greater;
        }
    }
    one.len().cmp(&other.len())
}

// Whether a row begins with another.
pub(crate) fn begins(row: &[u32], asked: &[u32]) -> bool {
    row.get(..asked.len()) == Some(asked)
}
