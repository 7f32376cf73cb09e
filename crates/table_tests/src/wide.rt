// A table of names in UTF-8 filled step by step.
use crate::hold::{
    Added, NONE, ONE, TWO, add_letters, add_pair, entry, hold_letters, hold_pairs, letter, pair,
};
use std::test::Fail;
use table::{Refusal, Table, TableBuf, Weights};

// Letters on both sides of 256, from where on letters have entries, and the last of all.
#[test]
fn letters(rt: HostRuntime) -> Result<(), Fail> {
    let mut table = TableBuf::in_utf8(rt.alloc())?;
    assert!(rt; table.table().utf8());
    add_letters(
        &rt,
        &mut table,
        &[
            Added(65535, ONE, None),
            Added(255, TWO, None),
            Added(256, ONE, None),
            Added(300, TWO, None),
            Added(256, TWO, Some(Refusal::LetterTwice(4))),
            Added(255, ONE, Some(Refusal::LetterTwice(4))),
            Added(65535, ONE, Some(Refusal::LetterTwice(4))),
            Added(300, NONE, None),
            Added(301, NONE, None),
            Added(1, NONE, None),
        ],
    );
    hold_letters(
        &rt,
        &table.table(),
        &[
            (0, NONE),
            (44, NONE),
            (254, NONE),
            (255, TWO),
            (256, ONE),
            (257, NONE),
            (299, NONE),
            (300, TWO),
            (301, NONE),
            (511, NONE),
            (65534, NONE),
            (65535, ONE),
            (65536, NONE),
            (65791, NONE),
            (4294967295, NONE),
        ],
    );
    assert_eq!(rt; table.letter_count(), 4);
    let table = table.table();
    assert_eq!(rt; table.letter_count(), 259);
    assert_eq!(rt; table.letter_at(0), Some(letter(0, NONE)));
    assert_eq!(rt; table.letter_at(255), Some(letter(255, TWO)));
    assert_eq!(rt; table.letter_at(256), Some(letter(256, ONE)));
    assert_eq!(rt; table.letter_at(257), Some(letter(300, TWO)));
    assert_eq!(rt; table.letter_at(258), Some(letter(65535, ONE)));
    assert_eq!(rt; table.letter_at(259), None);
    assert_eq!(rt; table.letter_at(18446744073709551615), None);
    Ok(())
}

// Surrogates are no letters, nor is what is above 65,535; what weighs nothing is never turned away.
#[test]
fn no_letters(rt: HostRuntime) -> Result<(), Fail> {
    let mut table = TableBuf::in_utf8(rt.alloc())?;
    add_letters(
        &rt,
        &mut table,
        &[
            Added(55295, ONE, None),
            Added(55296, ONE, Some(Refusal::NoLetter(1))),
            Added(56000, ONE, Some(Refusal::NoLetter(1))),
            Added(57343, ONE, Some(Refusal::NoLetter(1))),
            Added(57344, TWO, None),
            Added(65536, ONE, Some(Refusal::NoLetter(2))),
            Added(4294967295, ONE, Some(Refusal::NoLetter(2))),
            Added(55296, NONE, None),
            Added(65536, NONE, None),
        ],
    );
    hold_letters(
        &rt,
        &table.table(),
        &[
            (55295, ONE),
            (55296, NONE),
            (57343, NONE),
            (57344, TWO),
            (65536, NONE),
        ],
    );
    assert_eq!(rt; table.letter_count(), 2);
    Ok(())
}

// A weight on one level is enough.
#[test]
fn one_level(rt: HostRuntime) -> Result<(), Fail> {
    let mut table = TableBuf::in_utf8(rt.alloc())?;
    add_letters(
        &rt,
        &mut table,
        &[
            Added(1000, Weights::from([0, 0, 1]), None),
            Added(1001, Weights::from([0, 1, 0]), None),
            Added(1002, Weights::from([1, 0, 0]), None),
            Added(1000, ONE, Some(Refusal::LetterTwice(3))),
            Added(1001, ONE, Some(Refusal::LetterTwice(3))),
            Added(1002, ONE, Some(Refusal::LetterTwice(3))),
        ],
    );
    assert_eq!(rt; table.letter_count(), 3);
    Ok(())
}

// The 2,000th letter is added, the 2,001st is not, and a table that is full says so first.
#[test]
fn many_letters(rt: HostRuntime) -> Result<(), Fail> {
    let mut table = TableBuf::in_utf8(rt.alloc())?;
    for k in 0..2000u32 {
        let weights = Weights::from([k as u16, 1, 0]);
        assert_eq!(rt; table.add_letter(entry(40000 - 20 * k, weights)), Ok(()));
    }
    add_letters(
        &rt,
        &mut table,
        &[
            Added(1, ONE, Some(Refusal::TooManyLetters)),
            Added(40000, ONE, Some(Refusal::TooManyLetters)),
            Added(55296, ONE, Some(Refusal::TooManyLetters)),
            Added(1, NONE, None),
        ],
    );
    assert_eq!(rt; table.letter_count(), 2000);
    let table = table.table();
    assert_eq!(rt; table.letter_count(), 2244);
    for k in 0..2000u32 {
        assert_eq!(rt;
            table.letter(40000 - 20 * k),
            Weights::from([k as u16, 1, 0])
        );
        assert_eq!(rt; table.letter(40001 - 20 * k), NONE);
    }
    Ok(())
}

// Letters of pairs are told apart though they have the same remainder by 256.
#[test]
fn pairs(rt: HostRuntime) -> Result<(), Fail> {
    let mut table = TableBuf::in_utf8(rt.alloc())?;
    add_pair(&rt, &mut table, 65535, 256, ONE, None);
    add_pair(&rt, &mut table, 256, 65535, TWO, None);
    add_pair(&rt, &mut table, 256, 65535, ONE, Some(Refusal::Twice(2)));
    add_pair(&rt, &mut table, 65536, 1, ONE, Some(Refusal::Foreign(2)));
    add_pair(&rt, &mut table, 1, 65536, ONE, Some(Refusal::Foreign(2)));
    add_pair(
        &rt,
        &mut table,
        4294967295,
        0,
        ONE,
        Some(Refusal::Foreign(2)),
    );
    add_pair(&rt, &mut table, 0, 255, TWO, None);
    hold_pairs(
        &rt,
        &table.table(),
        &[
            (65535, 256, Some(ONE)),
            (256, 65535, Some(TWO)),
            (0, 255, Some(TWO)),
            (255, 0, None),
            (256, 255, None),
            (0, 65535, None),
            (65536, 255, None),
            (131071, 256, None),
        ],
    );
    assert_eq!(rt; table.table().pair_at(0), Some(pair(65535, 256, ONE)));
    assert_eq!(rt; table.table().pair_count(), 3);
    Ok(())
}

// A table of bytes as one in UTF-8, and a copy of it that is filled further.
#[test]
fn widened(rt: HostRuntime) -> Result<(), Fail> {
    let valley = Table::valley().in_utf8();
    assert!(rt; !Table::valley().utf8());
    assert!(rt; valley.utf8());
    let mut table = valley.to_buf(rt.alloc())?;
    add_letters(
        &rt,
        &mut table,
        &[
            Added(97, ONE, Some(Refusal::LetterTwice(256))),
            Added(353, ONE, None),
            Added(353, TWO, Some(Refusal::LetterTwice(257))),
        ],
    );
    add_pair(&rt, &mut table, 99, 360, TWO, None);
    hold_letters(
        &rt,
        &table.table(),
        &[(97, Weights::from([10, 1, 1])), (353, ONE), (354, NONE)],
    );
    hold_pairs(
        &rt,
        &table.table(),
        &[
            (99, 104, Some(Weights::from([35, 1, 1]))),
            (99, 360, Some(TWO)),
            (99, 616, None),
        ],
    );
    hold_letters(
        &rt,
        &valley,
        &[(97, Weights::from([10, 1, 1])), (353, NONE)],
    );
    Ok(())
}
