// As many lent records as a table of names in UTF-8 may have, and one more.
use crate::hold::{NONE, ONE, TWO, entry, four, run};
use crate::records::failure;
use std::alloc::{AllocError, Global};
use std::test::Fail;
use table::{AddError, LetterEntry, Refusal, Run, TableBuf, Weights};

// So many letters, each from `first` on, with one that weighs nothing behind each.
pub(crate) fn many_letters(
    heap: Global,
    many: u32,
    first: u32,
) -> Result<Vec<LetterEntry>, AllocError> {
    let mut letters = Vec::new(heap);
    for k in 0..many.min(3000) {
        letters.push(entry(first.saturating_add(7 * k), Weights::from([k as u16, 1, 0])))?;
        letters.push(entry(first, NONE))?;
    }
    Ok(letters)
}

// The letters of so many pairs, and of so many runs of four, one behind the other.
fn letters_of_pairs(heap: Global, many: u32) -> Result<Vec<u32>, AllocError> {
    let mut letters = Vec::new(heap);
    for k in 0..many {
        letters.extend_from_slice(&[k, 9])?;
    }
    Ok(letters)
}

fn letters_of_fours(heap: Global, many: u32) -> Result<Vec<u32>, AllocError> {
    let mut letters = Vec::new(heap);
    for k in 0..many {
        letters.extend_from_slice(&[9, k, 9, 9])?;
    }
    Ok(letters)
}

// Lent letters as pairs, and behind them as runs of four.
fn lend<'a>(heap: Global, pairs: &'a [u32], fours: &'a [u32]) -> Result<Vec<Run<'a>>, AllocError> {
    let mut runs = Vec::new(heap);
    for letters in pairs.chunks_exact(2) {
        runs.push(run(letters, ONE))?;
    }
    for letters in fours.chunks_exact(4) {
        runs.push(run(letters, TWO))?;
    }
    Ok(runs)
}

// 2,000 letters that weigh something are taken, 2,001 are not, whatever else is wrong with them.
#[test]
fn most_letters(rt: HostRuntime) -> Result<(), Fail> {
    let heap = rt.alloc();
    let letters = many_letters(heap, 2000, 20000)?;
    assert_eq!(rt; letters.len(), 4000);
    let table = TableBuf::of(letters.as_slice(), &[], heap)?;
    assert_eq!(rt; table.letter_count(), 2000);
    for k in 0..2000u32 {
        assert_eq!(rt;
            table.table().letter(20000 + 7 * k),
            Weights::from([k as u16, 1, 0])
        );
        assert_eq!(rt; table.table().letter(20001 + 7 * k), NONE);
    }
    let full = Some(AddError::Refused(Refusal::TooManyLetters));
    let letters = many_letters(heap, 2001, 20000)?;
    assert_eq!(rt; failure(heap, letters.as_slice(), &[]), full);
    let mut letters = many_letters(heap, 2000, 20000)?;
    letters.push(entry(55296, ONE))?;
    assert_eq!(rt; failure(heap, letters.as_slice(), &[]), full);
    let mut letters = many_letters(heap, 2000, 20000)?;
    letters.push(entry(20000, ONE))?;
    assert_eq!(rt; failure(heap, letters.as_slice(), &[]), full);
    // The place of the last of 2,000, which is no letter, and of one that is there twice.
    let mut letters = many_letters(heap, 1999, 20000)?;
    letters.push(entry(55296, ONE))?;
    assert_eq!(rt;
        failure(heap, letters.as_slice(), &[]),
        Some(AddError::Refused(Refusal::NoLetter(3998)))
    );
    let mut letters = many_letters(heap, 1999, 20000)?;
    letters.push(entry(20000, ONE))?;
    assert_eq!(rt;
        failure(heap, letters.as_slice(), &[]),
        Some(AddError::Refused(Refusal::LetterTwice(3998)))
    );
    Ok(())
}

// 200 runs are taken, pairs and longer ones together.
#[test]
fn most_runs(rt: HostRuntime) -> Result<(), Fail> {
    let heap = rt.alloc();
    let pairs = letters_of_pairs(heap, 120)?;
    let fours = letters_of_fours(heap, 80)?;
    let runs = lend(heap, pairs.as_slice(), fours.as_slice())?;
    assert_eq!(rt; runs.len(), 200);
    let table = TableBuf::of(&[], runs.as_slice(), heap)?;
    let table = table.table();
    assert_eq!(rt; table.pair_count(), 120);
    assert_eq!(rt; table.long_count(), 80);
    assert_eq!(rt; table.pair(119, 9), Some(ONE));
    assert_eq!(rt; table.long(four(9, 0, 9, 9)), Some(TWO));
    assert_eq!(rt; table.long(four(9, 79, 9, 9)), Some(TWO));
    assert_eq!(rt; table.long(four(9, 80, 9, 9)), None);
    Ok(())
}

// Why letters, 120 pairs, so many runs of four, and one run more behind them are turned away.
pub(crate) fn failure_with(
    heap: Global,
    letters: &[LetterEntry],
    fours: u32,
    last: &[u32],
) -> Result<Option<AddError>, AllocError> {
    let pairs = letters_of_pairs(heap, 120)?;
    let fours = letters_of_fours(heap, fours)?;
    let mut runs = lend(heap, pairs.as_slice(), fours.as_slice())?;
    runs.push(run(last, ONE))?;
    Ok(failure(heap, letters, runs.as_slice()))
}

// A last run, and why it is turned away.
#[derive(Clone, Copy)]
struct Last(&'static [u32], Refusal);

// 201 are not taken, whatever else is wrong with them or with the letters; the last place is looked at.
#[test]
fn too_many_runs(rt: HostRuntime) -> Result<(), Fail> {
    let heap = rt.alloc();
    let letters = many_letters(heap, 2001, 20000)?;
    let letters = letters.as_slice();
    let full = Some(AddError::Refused(Refusal::TooMany));
    let more: [&[u32]; 5] = [&[7, 7, 7], &[65536, 0], &[0, 9], &[], &[1, 2, 3, 4, 5]];
    for last in more {
        assert_eq!(rt; failure_with(heap, &[], 80, last)?, full);
        assert_eq!(rt; failure_with(heap, letters, 80, last)?, full);
    }
    let cases = [
        Last(&[0, 9], Refusal::Twice(199)),
        Last(&[9, 78, 9, 9], Refusal::Twice(199)),
        Last(&[0, 9, 65536], Refusal::Foreign(199)),
        Last(&[9], Refusal::TooManyLetters),
        Last(&[9, 8], Refusal::TooManyLetters),
    ];
    for Last(last, why) in cases {
        assert_eq!(rt;
            failure_with(heap, letters, 79, last)?,
            Some(AddError::Refused(why))
        );
    }
    assert_eq!(rt;
        failure_with(heap, &[], 79, &[9])?,
        Some(AddError::Refused(Refusal::RunLength(199)))
    );
    assert_eq!(rt; failure_with(heap, &[], 79, &[119, 9, 9])?, None);
    Ok(())
}
