// Letters that weigh as two or three, or as more, among lent records.
use crate::expand::firsts;
use crate::hold::{
    DOUBLE, MIXED, NONE, ONE, TRIPLE, TWO, entry, excess, expansion, hold_expansion_places,
    hold_expansions, hold_letters, run, several,
};
use crate::most::{failure_with, many_letters};
use crate::records::{failure, runs_of};
use std::alloc::{AllocError, Global};
use std::process::Abort;
use std::test::Fail;
use table::{AddError, LetterEntry, Refusal, TableBuf};

// Letters of both kinds in any order, and runs of them.
#[test]
fn taken(rt: HostRuntime) -> Result<(), Fail> {
    let nothing = several(97, firsts(0, 0, None));
    let table = TableBuf::of(
        &[
            several(64259, TRIPLE),
            entry(97, NONE),
            several(38, MIXED),
            nothing,
            entry(97, TWO),
            several(4294967295, firsts(0, 0, Some(0))),
            entry(339, ONE),
            several(223, DOUBLE),
            nothing,
        ],
        &[run(&[223, 38], ONE), run(&[38, 97, 64259], TWO)],
        rt.alloc(),
    )?;
    assert_eq!(rt; table.letter_count(), 5);
    let table = table.table();
    hold_letters(&rt, &table, &[(97, TWO), (339, ONE), (223, NONE)]);
    hold_expansion_places(
        &rt,
        &table,
        &[
            expansion(38, MIXED),
            expansion(223, DOUBLE),
            expansion(64259, TRIPLE),
        ],
    );
    hold_expansions(
        &rt,
        &table,
        &[(223, Some(DOUBLE)), (97, None), (339, None), (64258, None)],
    );
    assert_eq!(rt; table.pair(223, 38), Some(ONE));
    assert_eq!(rt; table.long_count(), 1);
    Ok(())
}

// Records, and why they are turned away.
#[derive(Clone, Copy)]
struct Case<'a>(&'a [LetterEntry], &'a [&'static [u32]], Option<Refusal>);

fn hold(rt: &impl Abort, heap: Global, cases: &[Case]) -> Result<(), AllocError> {
    for case in cases {
        let runs = runs_of(heap, case.1)?;
        let why = failure(heap, case.0, runs.as_slice());
        assert_eq!(rt; why, case.2.map(AddError::Refused));
    }
    Ok(())
}

// The place is that among all entries, also those that weigh nothing.
#[test]
fn places(rt: HostRuntime) -> Result<(), Fail> {
    let nothing = several(7, firsts(0, 0, Some(0)));
    hold(
        &rt,
        rt.alloc(),
        &[
            Case(&[several(7, DOUBLE), several(55295, TRIPLE)], &[], None),
            Case(&[nothing, entry(7, ONE), nothing], &[], None),
            Case(&[excess(7)], &[], Some(Refusal::TooManyTriples(0))),
            Case(
                &[nothing, entry(7, ONE), several(8, DOUBLE), excess(65535)],
                &[&[1, 2], &[1, 2, 3]],
                Some(Refusal::TooManyTriples(3)),
            ),
            Case(
                &[entry(9, NONE), excess(7), several(8, DOUBLE), excess(10)],
                &[],
                Some(Refusal::TooManyTriples(1)),
            ),
            Case(&[several(55296, DOUBLE)], &[], Some(Refusal::NoLetter(0))),
            Case(
                &[several(7, DOUBLE), nothing, several(7, DOUBLE)],
                &[],
                Some(Refusal::LetterTwice(2)),
            ),
            Case(
                &[several(339, DOUBLE), nothing, entry(339, ONE)],
                &[],
                Some(Refusal::LetterTwice(2)),
            ),
            Case(
                &[nothing, entry(7, ONE), several(7, TRIPLE)],
                &[],
                Some(Refusal::LetterTwice(2)),
            ),
        ],
    )?;
    Ok(())
}

// What weighs as more than three is told behind every other fault, wherever that is.
#[test]
fn two_faults(rt: HostRuntime) -> Result<(), Fail> {
    hold(
        &rt,
        rt.alloc(),
        &[
            Case(&[excess(7)], &[&[1, 65536]], Some(Refusal::Foreign(0))),
            Case(&[excess(7)], &[&[1, 2], &[1, 2]], Some(Refusal::Twice(1))),
            Case(&[excess(7)], &[&[1, 2], &[1]], Some(Refusal::RunLength(1))),
            Case(
                &[excess(7)],
                &[&[1, 2, 3, 4, 5]],
                Some(Refusal::RunLength(0)),
            ),
            Case(&[excess(55296)], &[], Some(Refusal::NoLetter(0))),
            Case(
                &[excess(7), entry(55296, ONE)],
                &[],
                Some(Refusal::NoLetter(1)),
            ),
            Case(&[excess(7), excess(7)], &[], Some(Refusal::LetterTwice(1))),
            Case(
                &[excess(7), several(7, DOUBLE)],
                &[],
                Some(Refusal::LetterTwice(1)),
            ),
            Case(
                &[entry(7, ONE), excess(7)],
                &[],
                Some(Refusal::LetterTwice(1)),
            ),
            Case(
                &[excess(7), several(8, MIXED), entry(8, TWO)],
                &[&[1]],
                Some(Refusal::LetterTwice(2)),
            ),
        ],
    )?;
    Ok(())
}

// 2,000 letters that weigh as one or as several are taken, 2,001 are not; a fault of each kind in the way of the last one.
#[test]
fn most(rt: HostRuntime) -> Result<(), Fail> {
    let heap = rt.alloc();
    let mut letters = many_letters(heap, 1998, 20000)?;
    letters.push(several(7, TRIPLE))?;
    let cases = [
        (several(8, DOUBLE), None),
        (excess(8), Some(Refusal::TooManyTriples(3997))),
        (excess(7), Some(Refusal::LetterTwice(3997))),
        (excess(55296), Some(Refusal::NoLetter(3997))),
    ];
    for (last, why) in cases {
        letters.push(last)?;
        assert_eq!(rt;
            failure(heap, letters.as_slice(), &[]),
            why.map(AddError::Refused)
        );
        letters.push(excess(9))?;
        assert_eq!(rt;
            failure(heap, letters.as_slice(), &[]),
            Some(AddError::Refused(Refusal::TooManyLetters))
        );
        letters.truncate(3997);
    }
    Ok(())
}

// So is it behind too many runs, and behind the last of as many as there may be.
#[test]
fn many_runs(rt: HostRuntime) -> Result<(), Fail> {
    let heap = rt.alloc();
    let letters = [entry(7, ONE), excess(8)];
    for (fours, last, why) in [
        (80, [1u32, 2].as_slice(), Refusal::TooMany),
        (79, &[1, 65536], Refusal::Foreign(199)),
        (79, &[0, 9], Refusal::Twice(199)),
        (79, &[1], Refusal::RunLength(199)),
        (79, &[1, 2], Refusal::TooManyTriples(1)),
    ] {
        assert_eq!(rt;
            failure_with(heap, &letters, fours, last)?,
            Some(AddError::Refused(why))
        );
    }
    Ok(())
}
