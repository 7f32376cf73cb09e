// Letters that weigh as two or three, in tables that are filled step by step.
use crate::hold::{
    DOUBLE, MIXED, NONE, ONE, TRIPLE, TWO, add_entries, add_pair, entry, expansion,
    hold_expansion_places, hold_expansions, hold_letters, letter, several,
};
use std::test::Fail;
use table::{Expanded, Refusal, TableBuf, Triples, Weights};

// Letters of one, two and three bytes, on both sides of 256; in the order of their letters, in whatever order they were added.
#[test]
fn found(rt: HostRuntime) -> Result<(), Fail> {
    let mut table = TableBuf::in_utf8(rt.alloc())?;
    hold_expansion_places(&rt, &table.table(), &[]);
    add_entries(
        &rt,
        &mut table,
        &[
            (several(64259, TRIPLE), None),
            (several(223, DOUBLE), None),
            (entry(98, ONE), None),
            (several(38, MIXED), None),
            (several(65535, MIXED), None),
            (several(256, DOUBLE), None),
            (entry(300, TWO), None),
            (several(0, TRIPLE), None),
            (several(255, MIXED), None),
            (several(128, TRIPLE), None),
            (several(127, DOUBLE), None),
        ],
    );
    let all = [
        expansion(0, TRIPLE),
        expansion(38, MIXED),
        expansion(127, DOUBLE),
        expansion(128, TRIPLE),
        expansion(223, DOUBLE),
        expansion(255, MIXED),
        expansion(256, DOUBLE),
        expansion(64259, TRIPLE),
        expansion(65535, MIXED),
    ];
    assert_eq!(rt; table.letter_count(), 11);
    let table = table.table();
    hold_expansion_places(&rt, &table, &all);
    for one in all {
        hold_expansions(&rt, &table, &[(one.letter, Some(one.weights))]);
    }
    for none in [
        1, 37, 39, 98, 126, 129, 222, 224, 254, 257, 300, 479, 64258, 64260, 65534, 65536, 65574,
        65791, 4294967295,
    ] {
        hold_expansions(&rt, &table, &[(none, None)]);
    }
    hold_letters(&rt, &table, &[(98, ONE), (300, TWO), (39, NONE)]);
    // Letters above 255 that expand have no weights of their own.
    assert_eq!(rt; table.letter_count(), 257);
    assert_eq!(rt; table.letter_at(38), Some(letter(38, NONE)));
    assert_eq!(rt; table.letter_at(256), Some(letter(300, TWO)));
    assert_eq!(rt; table.letter_at(257), None);
    Ok(())
}

// A table of bytes takes letters up to 255.
#[test]
fn bytes(rt: HostRuntime) -> Result<(), Fail> {
    let mut table = TableBuf::new(rt.alloc())?;
    add_entries(
        &rt,
        &mut table,
        &[
            (several(255, MIXED), None),
            (several(38, DOUBLE), None),
            (several(256, DOUBLE), Some(Refusal::NoLetter(2))),
            (several(223, TRIPLE), None),
            (several(4294967295, TRIPLE), Some(Refusal::NoLetter(3))),
            (several(0, TRIPLE), None),
            (several(128, DOUBLE), None),
            (several(223, MIXED), Some(Refusal::LetterTwice(5))),
            (entry(38, ONE), Some(Refusal::LetterTwice(5))),
            (entry(97, ONE), None),
            (several(97, MIXED), Some(Refusal::LetterTwice(6))),
            (several(353, MIXED), Some(Refusal::NoLetter(6))),
        ],
    );
    assert_eq!(rt; table.letter_count(), 6);
    let table = table.table();
    assert!(rt; !table.utf8());
    let all = [
        expansion(0, TRIPLE),
        expansion(38, DOUBLE),
        expansion(128, DOUBLE),
        expansion(223, TRIPLE),
        expansion(255, MIXED),
    ];
    for table in [table, table.in_utf8()] {
        hold_expansion_places(&rt, &table, &all);
        for one in all {
            hold_expansions(&rt, &table, &[(one.letter, Some(one.weights))]);
        }
        hold_expansions(
            &rt,
            &table,
            &[(97, None), (254, None), (256, None), (479, None)],
        );
        assert_eq!(rt; table.letter_count(), 256);
        hold_letters(&rt, &table, &[(97, ONE), (255, NONE)]);
    }
    Ok(())
}

// A letter is there twice whether it weighs as one or as several, and stays as it was.
#[test]
fn twice(rt: HostRuntime) -> Result<(), Fail> {
    for letter in [38, 223, 339, 65535] {
        for (first, second) in [
            (entry(letter, ONE), entry(letter, TWO)),
            (entry(letter, ONE), several(letter, MIXED)),
            (several(letter, MIXED), entry(letter, ONE)),
            (several(letter, MIXED), several(letter, TRIPLE)),
            (several(letter, TRIPLE), several(letter, TRIPLE)),
        ] {
            let mut table = TableBuf::in_utf8(rt.alloc())?;
            add_entries(
                &rt,
                &mut table,
                &[
                    (entry(7, ONE), None),
                    (first, None),
                    (second, Some(Refusal::LetterTwice(2))),
                ],
            );
            assert_eq!(rt; table.table().triples(letter), first.weights);
            assert_eq!(rt; table.letter_count(), 2);
        }
    }
    Ok(())
}

// What weighs as these, each on the first level alone.
pub(crate) fn firsts(first: u16, second: u16, third: Option<u16>) -> Expanded {
    Expanded {
        first: Weights::from([first, 0, 0]),
        second: Weights::from([second, 0, 0]),
        third: third.map(|third| Weights::from([third, 0, 0])),
    }
}

// An entry none of whose triples counts is as if it weren't there, whatever its letter is.
#[test]
fn nothing(rt: HostRuntime) -> Result<(), Fail> {
    let mut table = TableBuf::in_utf8(rt.alloc())?;
    for nothing in [firsts(0, 0, None), firsts(0, 0, Some(0))] {
        for letter in [38, 223, 339, 55296, 65536, 4294967295] {
            add_entries(&rt, &mut table, &[(several(letter, nothing), None)]);
            assert_eq!(rt; table.table().triples(letter), Triples::One(NONE));
        }
    }
    assert_eq!(rt; table.letter_count(), 0);
    hold_expansion_places(&rt, &table.table(), &[]);
    let nothing = firsts(0, 0, None);
    add_entries(
        &rt,
        &mut table,
        &[
            (several(223, DOUBLE), None),
            (entry(339, ONE), None),
            (several(223, nothing), None),
            (entry(223, NONE), None),
            (several(339, nothing), None),
        ],
    );
    assert_eq!(rt; table.letter_count(), 2);
    hold_letters(&rt, &table.table(), &[(339, ONE)]);
    hold_expansion_places(&rt, &table.table(), &[expansion(223, DOUBLE)]);
    Ok(())
}

// One triple that counts is enough, wherever it stands, and the zeros of the others are kept.
#[test]
fn one_counts(rt: HostRuntime) -> Result<(), Fail> {
    let mut table = TableBuf::in_utf8(rt.alloc())?;
    let all = [
        expansion(38, firsts(0, 9, None)),
        expansion(39, firsts(9, 0, None)),
        expansion(223, firsts(0, 0, Some(9))),
        expansion(224, firsts(0, 9, Some(0))),
        expansion(339, firsts(9, 0, Some(0))),
    ];
    for one in all {
        add_entries(&rt, &mut table, &[(several(one.letter, one.weights), None)]);
    }
    hold_expansion_places(&rt, &table.table(), &all);
    for one in all {
        add_entries(
            &rt,
            &mut table,
            &[(entry(one.letter, ONE), Some(Refusal::LetterTwice(5)))],
        );
        hold_expansions(&rt, &table.table(), &[(one.letter, Some(one.weights))]);
    }
    assert_eq!(rt; table.letter_count(), 5);
    Ok(())
}

// A copy has the same, and is filled further by itself; a table of bytes as one in UTF-8 has them too.
#[test]
fn copied(rt: HostRuntime) -> Result<(), Fail> {
    let mut table = TableBuf::new(rt.alloc())?;
    add_entries(
        &rt,
        &mut table,
        &[(several(223, DOUBLE), None), (several(38, TRIPLE), None)],
    );
    add_pair(&rt, &mut table, 223, 38, ONE, None);
    let mut copy = table.table().in_utf8().to_buf(rt.alloc())?;
    let both = [expansion(38, TRIPLE), expansion(223, DOUBLE)];
    hold_expansion_places(&rt, &copy.table(), &both);
    add_entries(
        &rt,
        &mut copy,
        &[
            (several(223, MIXED), Some(Refusal::LetterTwice(2))),
            (several(339, MIXED), None),
            (entry(339, ONE), Some(Refusal::LetterTwice(3))),
        ],
    );
    hold_expansions(&rt, &copy.table(), &[(339, Some(MIXED))]);
    assert_eq!(rt; copy.table().pair(223, 38), Some(ONE));
    assert_eq!(rt; copy.table().expansion_count(), 3);
    hold_expansion_places(&rt, &table.table(), &both);
    hold_expansion_places(&rt, &table.table().to_buf(rt.alloc())?.table(), &both);
    Ok(())
}
