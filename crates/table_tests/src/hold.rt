// What several tests have in common.
use std::process::Abort;
use table::{
    AddError, Expanded, Expansion, Letter, LetterEntry, Long, LongRun, Pair, Refusal, Run, Table,
    TableBuf, Triples, Weights,
};

pub(crate) const ONE: Weights = Weights {
    primary: 1,
    secondary: 2,
    tertiary: 3,
};

pub(crate) const TWO: Weights = Weights {
    primary: 4,
    secondary: 5,
    tertiary: 6,
};

pub(crate) const NONE: Weights = Weights {
    primary: 0,
    secondary: 0,
    tertiary: 0,
};

// As ONE twice, as ONE and TWO, and as three.
pub(crate) const DOUBLE: Expanded = Expanded {
    first: ONE,
    second: ONE,
    third: None,
};

pub(crate) const MIXED: Expanded = Expanded {
    first: ONE,
    second: TWO,
    third: None,
};

pub(crate) const TRIPLE: Expanded = Expanded {
    first: TWO,
    second: TWO,
    third: Some(ONE),
};

pub(crate) fn hold_letters(rt: &impl Abort, table: &Table, cases: &[(u32, Weights)]) {
    for (letter, weights) in cases {
        assert_eq!(rt; table.letter(*letter), *weights);
    }
}

// What letters expand to; one that does weighs nothing itself.
pub(crate) fn hold_expansions(rt: &impl Abort, table: &Table, cases: &[(u32, Option<Expanded>)]) {
    for (letter, expanded) in cases {
        assert_eq!(rt; table.expansion(*letter), *expanded);
        match expanded {
            Some(expanded) => {
                assert_eq!(rt; table.letter(*letter), NONE);
                assert_eq!(rt; table.triples(*letter), Triples::Several(*expanded));
            }
            None => {
                let weights = table.letter(*letter);
                assert_eq!(rt; table.triples(*letter), Triples::One(weights));
            }
        }
    }
}

// The letters of a table that expand are these, in their order, and no others.
pub(crate) fn hold_expansion_places(rt: &impl Abort, table: &Table, all: &[Expansion]) {
    assert_eq!(rt; table.expansion_count(), all.len());
    for (place, expansion) in all.iter().enumerate() {
        assert_eq!(rt; table.expansion_at(place), Some(*expansion));
    }
    assert_eq!(rt; table.expansion_at(all.len()), None);
    assert_eq!(rt; table.expansion_at(18446744073709551615), None);
}

pub(crate) fn hold_pairs(rt: &impl Abort, table: &Table, cases: &[(u32, u32, Option<Weights>)]) {
    for (first, second, weights) in cases {
        assert_eq!(rt; table.pair(*first, *second), *weights);
    }
}

pub(crate) fn hold_places(rt: &impl Abort, table: &Table, cases: &[(usize, Option<Pair>)]) {
    for (place, pair) in cases {
        assert_eq!(rt; table.pair_at(*place), *pair);
    }
}

pub(crate) fn hold_longs(rt: &impl Abort, table: &Table, cases: &[(LongRun, Option<Weights>)]) {
    for (run, weights) in cases {
        assert_eq!(rt; table.long(*run), *weights);
    }
}

// The longer runs of a table are these, in their order, and no others.
pub(crate) fn hold_long_places(rt: &impl Abort, table: &Table, longs: &[Long]) {
    assert_eq!(rt; table.long_count(), longs.len());
    for (place, long) in longs.iter().enumerate() {
        assert_eq!(rt; table.long_at(place), Some(*long));
    }
    assert_eq!(rt; table.long_at(longs.len()), None);
    assert_eq!(rt; table.long_at(18446744073709551615), None);
}

pub(crate) fn hold_begins(rt: &impl Abort, table: &Table, cases: &[(u32, bool)]) {
    for (letter, may) in cases {
        assert_eq!(rt; table.may_begin(*letter), *may);
    }
}

pub(crate) fn letter(letter: u32, weights: Weights) -> Letter {
    Letter { letter, weights }
}

pub(crate) fn entry(letter: u32, weights: Weights) -> LetterEntry {
    LetterEntry::from(Letter { letter, weights })
}

pub(crate) fn expansion(letter: u32, weights: Expanded) -> Expansion {
    Expansion { letter, weights }
}

pub(crate) fn several(letter: u32, weights: Expanded) -> LetterEntry {
    LetterEntry::from(Expansion { letter, weights })
}

// A letter that weighs as more than three.
pub(crate) fn excess(letter: u32) -> LetterEntry {
    LetterEntry {
        letter,
        weights: Triples::Excess,
    }
}

pub(crate) fn pair(first: u32, second: u32, weights: Weights) -> Pair {
    Pair {
        first,
        second,
        weights,
    }
}

pub(crate) fn three(first: u32, second: u32, third: u32) -> LongRun {
    LongRun {
        first,
        second,
        third,
        fourth: None,
    }
}

pub(crate) fn four(first: u32, second: u32, third: u32, fourth: u32) -> LongRun {
    LongRun {
        first,
        second,
        third,
        fourth: Some(fourth),
    }
}

pub(crate) fn long(run: LongRun, weights: Weights) -> Long {
    Long { run, weights }
}

pub(crate) fn run(letters: &[u32], weights: Weights) -> Run<'_> {
    Run { letters, weights }
}

// A letter that is added, or why it isn't.
#[derive(Clone, Copy)]
pub(crate) struct Added(
    pub(crate) u32,
    pub(crate) Weights,
    pub(crate) Option<Refusal>,
);

fn answer(why: Option<Refusal>) -> Result<(), AddError> {
    match why {
        None => Ok(()),
        Some(why) => Err(AddError::Refused(why)),
    }
}

// Adds letters, and holds each answer to what it should be.
pub(crate) fn add_letters(rt: &impl Abort, table: &mut TableBuf, cases: &[Added]) {
    for case in cases {
        let Added(letter, weights, why) = *case;
        add_entries(rt, table, &[(entry(letter, weights), why)]);
    }
}

// The same of entries that weigh as one or as several.
pub(crate) fn add_entries(
    rt: &impl Abort,
    table: &mut TableBuf,
    cases: &[(LetterEntry, Option<Refusal>)],
) {
    for (entry, why) in cases {
        assert_eq!(rt; table.allows_letter(*entry).err(), *why);
        assert_eq!(rt; table.add_letter(*entry), answer(*why));
    }
}

// Adds a pair, and holds the answer to what it should be.
pub(crate) fn add_pair(
    rt: &impl Abort,
    table: &mut TableBuf,
    first: u32,
    second: u32,
    weights: Weights,
    why: Option<Refusal>,
) {
    assert_eq!(rt; table.allows(pair(first, second, weights)).err(), why);
    assert_eq!(rt; table.add_pair(pair(first, second, weights)), answer(why));
}

// Adds longer runs one after the other, and holds each answer to what it should be.
pub(crate) fn add_longs(rt: &impl Abort, table: &mut TableBuf, cases: &[(Long, Option<Refusal>)]) {
    for (long, why) in cases {
        assert_eq!(rt; table.allows_long(*long).err(), *why);
        assert_eq!(rt; table.add_long(*long), answer(*why));
    }
}
