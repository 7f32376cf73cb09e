// Tables of names in UTF-8 made from lent records, and records that are turned away.
use crate::hold::{
    NONE, ONE, TWO, entry, four, hold_begins, hold_letters, hold_long_places, hold_longs,
    hold_pairs, hold_places, long, pair, run, three,
};
use std::alloc::{AllocError, Global};
use std::process::Abort;
use std::test::Fail;
use table::{AddError, LetterEntry, Refusal, Run, TableBuf, Weights};

pub(crate) fn failure(heap: Global, letters: &[LetterEntry], runs: &[Run]) -> Option<AddError> {
    TableBuf::of(letters, runs, heap).err()
}

// Records, and why they are turned away.
#[derive(Clone, Copy)]
struct Case(
    &'static [(u32, u16)],
    &'static [&'static [u32]],
    Option<Refusal>,
);

fn letters_of(heap: Global, entries: &[(u32, u16)]) -> Result<Vec<LetterEntry>, AllocError> {
    let mut letters = Vec::new(heap);
    for (letter, primary) in entries {
        letters.push(entry(*letter, Weights::from([*primary, 0, 0])))?;
    }
    Ok(letters)
}

pub(crate) fn runs_of(
    heap: Global,
    all: &[&'static [u32]],
) -> Result<Vec<Run<'static>>, AllocError> {
    let mut runs = Vec::new(heap);
    for letters in all {
        runs.push(run(*letters, ONE))?;
    }
    Ok(runs)
}

fn hold(rt: &impl Abort, heap: Global, cases: &[Case]) -> Result<(), AllocError> {
    for case in cases {
        let letters = letters_of(heap, case.0)?;
        let runs = runs_of(heap, case.1)?;
        let why = failure(heap, letters.as_slice(), runs.as_slice());
        assert_eq!(rt; why, case.2.map(AddError::Refused));
    }
    Ok(())
}

// Letters in any order, among them some that weigh nothing, and runs of two, three and four letters.
#[test]
fn taken(rt: HostRuntime) -> Result<(), Fail> {
    let table = TableBuf::of(
        &[
            entry(65535, ONE),
            entry(97, NONE),
            entry(256, TWO),
            entry(55296, NONE),
            entry(97, TWO),
            entry(0, ONE),
            entry(4294967295, NONE),
            entry(256, NONE),
            entry(300, Weights::from([0, 0, 9])),
        ],
        &[
            run(&[256, 65535], ONE),
            run(&[256, 65535, 0], TWO),
            run(&[0, 1000], TWO),
            run(&[256, 65535, 0, 7], ONE),
            run(&[1000, 0], ONE),
            run(&[3, 3, 3], ONE),
        ],
        rt.alloc(),
    )?;
    assert_eq!(rt; table.letter_count(), 5);
    let table = table.table();
    assert!(rt; table.utf8());
    hold_letters(
        &rt,
        &table,
        &[
            (0, ONE),
            (1, NONE),
            (97, TWO),
            (255, NONE),
            (256, TWO),
            (300, Weights::from([0, 0, 9])),
            (55296, NONE),
            (65535, ONE),
            (65536, NONE),
            (4294967295, NONE),
        ],
    );
    hold_pairs(
        &rt,
        &table,
        &[
            (256, 65535, Some(ONE)),
            (0, 1000, Some(TWO)),
            (1000, 0, Some(ONE)),
            (0, 255, None),
            (0, 232, None),
            (3, 3, None),
        ],
    );
    hold_longs(
        &rt,
        &table,
        &[
            (three(256, 65535, 0), Some(TWO)),
            (four(256, 65535, 0, 7), Some(ONE)),
            (three(3, 3, 3), Some(ONE)),
            (three(0, 65535, 0), None),
            (four(3, 3, 3, 3), None),
            (four(256, 65535, 0, 0), None),
        ],
    );
    hold_places(
        &rt,
        &table,
        &[
            (0, Some(pair(256, 65535, ONE))),
            (1, Some(pair(0, 1000, TWO))),
            (2, Some(pair(1000, 0, ONE))),
            (3, None),
        ],
    );
    hold_long_places(
        &rt,
        &table,
        &[
            long(three(3, 3, 3), ONE),
            long(four(256, 65535, 0, 7), ONE),
            long(three(256, 65535, 0), TWO),
        ],
    );
    hold_begins(
        &rt,
        &table,
        &[
            (256, true),
            (0, true),
            (1000, true),
            (3, true),
            (65535, false),
            (7, false),
        ],
    );
    assert_eq!(rt; table.pair_count(), 3);
    assert_eq!(rt; table.letter_count(), 259);
    Ok(())
}

// No records are a table in which nothing weighs anything.
#[test]
fn none(rt: HostRuntime) -> Result<(), Fail> {
    let table = TableBuf::of(&[], &[], rt.alloc())?;
    assert!(rt; table.table().utf8());
    assert_eq!(rt; table.letter_count(), 0);
    assert_eq!(rt; table.table().pair_count(), 0);
    assert_eq!(rt; table.table().long_count(), 0);
    hold_letters(&rt, &table.table(), &[(0, NONE), (300, NONE)]);
    Ok(())
}

// The place is that among all entries, also those that weigh nothing.
#[test]
fn letters(rt: HostRuntime) -> Result<(), Fail> {
    hold(
        &rt,
        rt.alloc(),
        &[
            Case(
                &[(55295, 1), (57344, 1), (65535, 1), (255, 1), (256, 1)],
                &[],
                None,
            ),
            Case(&[(55296, 1)], &[], Some(Refusal::NoLetter(0))),
            Case(&[(1, 1), (57343, 1)], &[], Some(Refusal::NoLetter(1))),
            Case(
                &[(1, 0), (2, 0), (65536, 1)],
                &[],
                Some(Refusal::NoLetter(2)),
            ),
            Case(
                &[(65536, 0), (4294967295, 1)],
                &[],
                Some(Refusal::NoLetter(1)),
            ),
            Case(&[(55296, 0), (65536, 0), (7, 1)], &[], None),
            Case(&[(7, 1), (7, 2)], &[], Some(Refusal::LetterTwice(1))),
            Case(
                &[(7, 1), (8, 0), (9, 3), (7, 1)],
                &[],
                Some(Refusal::LetterTwice(3)),
            ),
            Case(
                &[(700, 1), (8, 0), (701, 3), (700, 1)],
                &[],
                Some(Refusal::LetterTwice(3)),
            ),
            Case(&[(7, 0), (7, 1), (7, 0)], &[], None),
            Case(
                &[(7, 0), (7, 1), (7, 0), (7, 1)],
                &[],
                Some(Refusal::LetterTwice(3)),
            ),
            Case(&[(7, 1), (263, 1), (519, 1)], &[], None),
            Case(
                &[(7, 1), (7, 1), (55296, 1)],
                &[],
                Some(Refusal::LetterTwice(1)),
            ),
            Case(
                &[(7, 1), (55296, 1), (7, 1)],
                &[],
                Some(Refusal::NoLetter(1)),
            ),
            Case(&[(55296, 1), (55296, 1)], &[], Some(Refusal::NoLetter(0))),
        ],
    )?;
    Ok(())
}

// All runs are looked through for foreign letters before any is compared.
#[test]
fn runs(rt: HostRuntime) -> Result<(), Fail> {
    hold(
        &rt,
        rt.alloc(),
        &[
            Case(&[], &[&[65535, 65535], &[0, 65535], &[55296, 0]], None),
            Case(
                &[],
                &[&[65535, 65535, 65535], &[65535, 65535, 65535, 65535]],
                None,
            ),
            Case(&[], &[&[65536, 0]], Some(Refusal::Foreign(0))),
            Case(&[], &[&[0, 65536]], Some(Refusal::Foreign(0))),
            Case(&[], &[&[0, 0, 65536]], Some(Refusal::Foreign(0))),
            Case(
                &[],
                &[&[0, 0], &[0, 0, 0, 65536]],
                Some(Refusal::Foreign(1)),
            ),
            Case(
                &[],
                &[&[1, 2], &[4294967295, 0], &[65536, 0]],
                Some(Refusal::Foreign(1)),
            ),
            Case(
                &[],
                &[&[1, 2], &[1, 2], &[65536, 0]],
                Some(Refusal::Foreign(2)),
            ),
            Case(
                &[],
                &[&[1, 2], &[2, 1], &[1, 1], &[2, 2], &[257, 2], &[1, 258]],
                None,
            ),
            Case(
                &[],
                &[
                    &[1, 2],
                    &[1, 2, 3],
                    &[1, 2, 3, 4],
                    &[1, 2, 259],
                    &[1, 2, 3, 260],
                    &[2, 3],
                    &[2, 3, 4],
                ],
                None,
            ),
            Case(&[], &[&[1, 2], &[2, 1], &[1, 2]], Some(Refusal::Twice(2))),
            Case(
                &[],
                &[&[1, 2, 3], &[1, 2], &[1, 2, 3]],
                Some(Refusal::Twice(2)),
            ),
            Case(
                &[],
                &[&[1, 2, 3, 4], &[1, 2, 3], &[1, 2], &[1, 2, 3, 4], &[1, 2]],
                Some(Refusal::Twice(3)),
            ),
            Case(
                &[],
                &[&[7, 7], &[8, 8], &[8, 8], &[7, 7]],
                Some(Refusal::Twice(2)),
            ),
            Case(
                &[],
                &[&[300, 400], &[300, 401], &[300, 400]],
                Some(Refusal::Twice(2)),
            ),
        ],
    )?;
    Ok(())
}

// Runs of fewer letters than two, or of more than four.
#[test]
fn lengths(rt: HostRuntime) -> Result<(), Fail> {
    hold(
        &rt,
        rt.alloc(),
        &[
            Case(&[], &[&[]], Some(Refusal::RunLength(0))),
            Case(&[], &[&[1]], Some(Refusal::RunLength(0))),
            Case(&[], &[&[1, 2, 3, 4, 5]], Some(Refusal::RunLength(0))),
            Case(&[], &[&[1, 2], &[1]], Some(Refusal::RunLength(1))),
            Case(
                &[],
                &[&[1, 2, 3, 4], &[1, 2, 3, 4, 5]],
                Some(Refusal::RunLength(1)),
            ),
            Case(
                &[],
                &[&[1, 2], &[1, 2, 3], &[], &[1], &[1, 2, 3, 4, 5]],
                Some(Refusal::RunLength(2)),
            ),
            Case(
                &[(7, 1), (300, 1)],
                &[&[1, 2], &[1, 2, 3], &[1]],
                Some(Refusal::RunLength(2)),
            ),
        ],
    )?;
    Ok(())
}

// Faults of runs come before those of letters, but for how many letters a run has, which comes last.
#[test]
fn both(rt: HostRuntime) -> Result<(), Fail> {
    hold(
        &rt,
        rt.alloc(),
        &[
            Case(
                &[(55296, 1)],
                &[&[1, 2], &[65536, 0]],
                Some(Refusal::Foreign(1)),
            ),
            Case(
                &[(7, 1), (7, 1)],
                &[&[1, 2], &[1, 2]],
                Some(Refusal::Twice(1)),
            ),
            Case(
                &[(7, 1), (7, 1)],
                &[&[1, 2], &[2, 1]],
                Some(Refusal::LetterTwice(1)),
            ),
            Case(
                &[(7, 1), (7, 1)],
                &[&[1], &[]],
                Some(Refusal::LetterTwice(1)),
            ),
            Case(
                &[(7, 1), (55296, 1)],
                &[&[1, 2, 3, 4, 5]],
                Some(Refusal::NoLetter(1)),
            ),
            Case(
                &[(7, 1)],
                &[&[1], &[1, 2], &[1, 2]],
                Some(Refusal::Twice(2)),
            ),
            Case(&[], &[&[], &[]], Some(Refusal::Twice(1))),
            Case(&[], &[&[1], &[2], &[1]], Some(Refusal::Twice(2))),
            Case(
                &[],
                &[&[1, 2, 3, 4, 5], &[1, 2, 3, 4, 6], &[1, 2, 3, 4, 5]],
                Some(Refusal::Twice(2)),
            ),
            Case(&[], &[&[1], &[65536]], Some(Refusal::Foreign(1))),
            Case(
                &[(55296, 1)],
                &[&[1, 2, 3, 4, 65536]],
                Some(Refusal::Foreign(0)),
            ),
        ],
    )?;
    Ok(())
}
