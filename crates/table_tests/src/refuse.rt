// Which numbers are turned away, with which place.
use std::alloc::{AllocError, Global};
use std::process::Abort;
use std::test::Fail;
use table::{Refusal, Table};

static ZEROS: [u16; 769] = [0; 769];

// How many weights of letters there are, the numbers of pairs, how many they are said to be, and what the check answers.
#[derive(Clone, Copy)]
struct Case(usize, &'static [u16], u64, Option<Refusal>);

fn refusal(letters: usize, pairs: &[u16], how_many: u64) -> Option<Refusal> {
    Table::check(&ZEROS[0..letters.min(769)], pairs, how_many).err()
}

fn hold(rt: &impl Abort, cases: &[Case]) {
    for case in cases {
        assert_eq!(rt; refusal(case.0, case.1, case.2), case.3);
    }
}

// 768 weights are a table's; five numbers are a pair.
#[test]
fn shapes(rt: HostRuntime) {
    hold(
        &rt,
        &[
            Case(768, &[], 0, None),
            Case(767, &[], 0, Some(Refusal::Letters)),
            Case(769, &[], 0, Some(Refusal::Letters)),
            Case(0, &[], 0, Some(Refusal::Letters)),
            Case(768, &[1, 2, 3, 4, 5], 1, None),
            Case(768, &[1, 2, 3, 4], 1, Some(Refusal::Shape)),
            Case(768, &[1, 2, 3, 4, 5, 6], 1, Some(Refusal::Shape)),
            Case(768, &[1, 2, 3, 4, 5], 0, Some(Refusal::Shape)),
            Case(768, &[1, 2, 3, 4, 5], 2, Some(Refusal::Shape)),
            Case(
                768,
                &[1, 2, 3, 4, 5],
                18446744073709551615,
                Some(Refusal::Shape),
            ),
            // Five times this is 2^64 + 4.
            Case(
                768,
                &[1, 2, 3, 4],
                3689348814741910324,
                Some(Refusal::Shape),
            ),
        ],
    );
}

#[test]
fn pairs(rt: HostRuntime) {
    hold(
        &rt,
        &[
            Case(768, &[255, 255, 65535, 65535, 65535], 1, None),
            Case(768, &[256, 0, 1, 1, 1], 1, Some(Refusal::Foreign(0))),
            Case(768, &[0, 256, 1, 1, 1], 1, Some(Refusal::Foreign(0))),
            Case(
                768,
                &[1, 1, 1, 1, 1, 65535, 2, 1, 1, 1],
                2,
                Some(Refusal::Foreign(1)),
            ),
            Case(768, &[1, 2, 1, 1, 1, 2, 1, 1, 1, 1], 2, None),
            Case(
                768,
                &[1, 2, 1, 1, 1, 1, 2, 9, 9, 9],
                2,
                Some(Refusal::Twice(1)),
            ),
            Case(
                768,
                &[1, 2, 1, 1, 1, 3, 4, 1, 1, 1, 1, 2, 9, 9, 9],
                3,
                Some(Refusal::Twice(2)),
            ),
            Case(
                768,
                &[0, 0, 1, 1, 1, 255, 0, 1, 1, 1, 255, 0, 1, 1, 1],
                3,
                Some(Refusal::Twice(2)),
            ),
        ],
    );
}

// Of two faults the first in the order of the checks is told, and of two of a kind the first in the list.
#[test]
fn two_faults(rt: HostRuntime) {
    hold(
        &rt,
        &[
            Case(767, &[1, 2], 1, Some(Refusal::Letters)),
            Case(767, &[256, 2, 1, 1, 1], 1, Some(Refusal::Letters)),
            Case(
                767,
                &[1, 2, 1, 1, 1, 1, 2, 1, 1, 1],
                2,
                Some(Refusal::Letters),
            ),
            Case(768, &[256, 2], 201, Some(Refusal::Shape)),
            Case(
                768,
                &[1, 2, 1, 1, 1, 1, 2, 1, 1, 1, 1, 256, 1, 1, 1],
                3,
                Some(Refusal::Foreign(2)),
            ),
            Case(
                768,
                &[7, 7, 1, 1, 1, 8, 8, 1, 1, 1, 8, 8, 1, 1, 1, 7, 7, 1, 1, 1],
                4,
                Some(Refusal::Twice(2)),
            ),
            Case(
                768,
                &[7, 7, 1, 1, 1, 8, 300, 1, 1, 1, 400, 8, 1, 1, 1],
                3,
                Some(Refusal::Foreign(1)),
            ),
        ],
    );
}

// `good` pairs of known letters, and behind them one of two given letters.
fn numbers_of(heap: Global, good: u16, first: u16, second: u16) -> Result<Vec<u16>, AllocError> {
    let mut pairs = Vec::new(heap);
    for k in 0..good {
        pairs.extend_from_slice(&[k, 9, 1, 2, 3])?;
    }
    pairs.extend_from_slice(&[first, second, 1, 2, 3])?;
    Ok(pairs)
}

// 200 pairs are taken, 201 are not, whatever else is wrong with them; the last place is looked at.
#[test]
fn many_pairs(rt: HostRuntime) -> Result<(), Fail> {
    let heap = rt.alloc();
    assert_eq!(rt;
        refusal(768, numbers_of(heap, 199, 199, 9)?.as_slice(), 200),
        None
    );
    assert_eq!(rt;
        refusal(768, numbers_of(heap, 199, 256, 9)?.as_slice(), 200),
        Some(Refusal::Foreign(199))
    );
    assert_eq!(rt;
        refusal(768, numbers_of(heap, 199, 0, 9)?.as_slice(), 200),
        Some(Refusal::Twice(199))
    );
    assert_eq!(rt;
        refusal(768, numbers_of(heap, 199, 199, 9)?.as_slice(), 199),
        Some(Refusal::Shape)
    );
    assert_eq!(rt;
        refusal(768, numbers_of(heap, 200, 200, 9)?.as_slice(), 201),
        Some(Refusal::TooMany)
    );
    assert_eq!(rt;
        refusal(768, numbers_of(heap, 200, 300, 9)?.as_slice(), 201),
        Some(Refusal::TooMany)
    );
    assert_eq!(rt;
        refusal(768, numbers_of(heap, 200, 0, 9)?.as_slice(), 201),
        Some(Refusal::TooMany)
    );
    assert_eq!(rt;
        refusal(767, numbers_of(heap, 200, 200, 9)?.as_slice(), 201),
        Some(Refusal::Letters)
    );
    Ok(())
}

// A refusal of runs or of how many numbers there are has the number 1, one of letters 4, one of how long a run is 6, and one of
// what weighs as more than three 7. Its place is that of the run or of the entry, how many letters there may be, or 0.
#[test]
fn numbers(rt: HostRuntime) {
    let all = [
        (Refusal::Letters, 1, 0usize),
        (Refusal::Shape, 1, 0),
        (Refusal::TooMany, 1, 0),
        (Refusal::Foreign(5), 1, 5),
        (Refusal::Twice(7), 1, 7),
        (Refusal::TooManyLetters, 4, 2000),
        (Refusal::NoLetter(8), 4, 8),
        (Refusal::LetterTwice(9), 4, 9),
        (Refusal::RunLength(0), 6, 0),
        (Refusal::RunLength(10), 6, 10),
        (Refusal::TooManyTriples(0), 7, 0),
        (Refusal::TooManyTriples(11), 7, 11),
    ];
    for (why, number, place) in all {
        assert_eq!(rt; why.number(), number);
        assert_eq!(rt; why.place(), place);
    }
}
