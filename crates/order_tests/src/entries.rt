// Entries of letters that weigh as one, or as two or three, and of pairs.
use table::{Expanded, Expansion, Letter, LetterEntry, Pair, Weights};

// A letter that weighs so.
pub(crate) fn entry(letter: u32, weights: [u16; 3]) -> LetterEntry {
    LetterEntry::from(Letter {
        letter,
        weights: Weights::from(weights),
    })
}

// One that weighs as so many triples, none to three.
pub(crate) fn several(letter: u32, triples: &[[u16; 3]]) -> LetterEntry {
    match triples {
        [] => entry(letter, [0; 3]),
        [one] => entry(letter, *one),
        [first, second, ..] => LetterEntry::from(Expansion {
            letter,
            weights: Expanded {
                first: Weights::from(*first),
                second: Weights::from(*second),
                third: triples.get(2).map(|third| Weights::from(*third)),
            },
        }),
    }
}

// Two letters that weigh so together.
pub(crate) fn pair(first: u32, second: u32, weights: [u16; 3]) -> Pair {
    Pair {
        first,
        second,
        weights: Weights::from(weights),
    }
}
