// What letters weigh, as one triple of weights or as several. Nothing here asks the library.
use std::alloc::{AllocError, Global};
use std::fmt;
use table::{Expanded, Expansion, LetterEntry, Triples, Weights};

// Triples of weights, one behind the other, one to four of them; a letter of a table has three at the most.
#[derive(Clone, Copy)]
pub(crate) struct Spread {
    all: [[u16; 3]; 4],
    many: usize,
}

impl Spread {
    pub(crate) fn new(triples: &[[u16; 3]]) -> Spread {
        let mut all = [[0; 3]; 4];
        for (one, triple) in all.iter_mut().zip(triples) {
            *one = *triple;
        }
        Spread {
            all,
            many: triples.len().clamp(1, 4),
        }
    }

    // More triples than a letter may have.
    pub(crate) fn excess() -> Spread {
        Spread::new(&[[0; 3]; 4])
    }

    pub(crate) fn triples(&self) -> &[[u16; 3]] {
        self.all.get(..self.many).unwrap_or(&[])
    }

    pub(crate) fn triples_mut(&mut self) -> &mut [[u16; 3]] {
        let many = self.many;
        self.all.get_mut(..many).unwrap_or(&mut [])
    }

    pub(crate) fn is_excess(&self) -> bool {
        self.many > 3
    }

    // Whether one of them is not 0 on every level; too many are taken to.
    pub(crate) fn counts(&self) -> bool {
        self.is_excess() || self.triples().iter().any(|triple| *triple != [0; 3])
    }

    // As it is lent.
    pub(crate) fn lent(&self) -> Triples {
        match self.triples() {
            [one] => Triples::One(Weights::from(*one)),
            _ => match self.expanded() {
                Some(expanded) => Triples::Several(expanded),
                None => Triples::Excess,
            },
        }
    }

    // As two or three, if it is so many.
    pub(crate) fn expanded(&self) -> Option<Expanded> {
        match self.triples() {
            [first, second] => Some(Expanded {
                first: Weights::from(*first),
                second: Weights::from(*second),
                third: None,
            }),
            [first, second, third] => Some(Expanded {
                first: Weights::from(*first),
                second: Weights::from(*second),
                third: Some(Weights::from(*third)),
            }),
            _ => None,
        }
    }
}

// A letter and what it weighs.
#[derive(Clone, Copy)]
pub(crate) struct Entry {
    pub(crate) letter: u32,
    pub(crate) spread: Spread,
}

impl Entry {
    // As it is lent.
    pub(crate) fn lent(&self) -> LetterEntry {
        LetterEntry {
            letter: self.letter,
            weights: self.spread.lent(),
        }
    }

    // As one that weighs as two or three, if it does.
    pub(crate) fn expansion(&self) -> Option<Expansion> {
        let weights = self.spread.expanded()?;
        Some(Expansion {
            letter: self.letter,
            weights,
        })
    }
}

// Entries as they are lent.
pub(crate) fn entered(heap: Global, entries: &[Entry]) -> Result<Vec<LetterEntry>, AllocError> {
    let mut entered = Vec::new(heap);
    for entry in entries {
        entered.push(entry.lent())?;
    }
    Ok(entered)
}

impl fmt::Display for Entry {
    fn fmt<W: fmt::Write>(&self, f: &mut fmt::Formatter<W>) -> fmt::Result {
        let letter = self.letter;
        let triples = self.spread.triples();
        write!(f, "{letter} {triples:?}")
    }
}
