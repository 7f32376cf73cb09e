// Entries by their ranks.
use crate::expand::expansion;
use pieces::{Letter, Ranked, Weights, find_ranked};
use std::alloc::{AllocError, Global};
use std::test::Fail;

fn letter(letter: u32) -> Letter {
    Letter {
        letter,
        weights: Weights::from([(letter % 1000) as u16, 1, 2]),
    }
}

fn letters_of(heap: Global, all: &[u32]) -> Result<Vec<Letter>, AllocError> {
    let mut letters = Vec::new(heap);
    for one in all {
        letters.push(letter(*one))?;
    }
    Ok(letters)
}

// Letters in order, a rank, and the letter that has it.
#[derive(Clone, Copy)]
struct Case(&'static [u32], u64, Option<u32>);

// None, one, and several: the first, one in the middle, the last, and what is missing below, between and above.
#[test]
fn letters(rt: HostRuntime) -> Result<(), Fail> {
    let cases = [
        Case(&[], 0, None),
        Case(&[], 7, None),
        Case(&[0], 0, Some(0)),
        Case(&[0], 1, None),
        Case(&[7], 7, Some(7)),
        Case(&[7], 6, None),
        Case(&[7], 8, None),
        Case(&[7, 9], 7, Some(7)),
        Case(&[7, 9], 8, None),
        Case(&[7, 9], 9, Some(9)),
        Case(&[7, 9, 300, 301, 4294967295], 7, Some(7)),
        Case(&[7, 9, 300, 301, 4294967295], 9, Some(9)),
        Case(&[7, 9, 300, 301, 4294967295], 300, Some(300)),
        Case(&[7, 9, 300, 301, 4294967295], 301, Some(301)),
        Case(&[7, 9, 300, 301, 4294967295], 4294967295, Some(4294967295)),
        Case(&[7, 9, 300, 301, 4294967295], 0, None),
        Case(&[7, 9, 300, 301, 4294967295], 6, None),
        Case(&[7, 9, 300, 301, 4294967295], 8, None),
        Case(&[7, 9, 300, 301, 4294967295], 299, None),
        Case(&[7, 9, 300, 301, 4294967295], 302, None),
        Case(&[7, 9, 300, 301, 4294967295], 4294967294, None),
        Case(&[7, 9, 300, 301, 4294967295], 4294967296, None),
        // 2^32 more than a letter that is there.
        Case(&[7, 9, 300, 301, 4294967295], 4294967303, None),
        Case(&[7, 9, 300, 301, 4294967295], 18446744073709551615, None),
    ];
    for Case(all, rank, found) in cases {
        let letters = letters_of(rt.alloc(), all)?;
        assert_eq!(rt; find_ranked(&letters, rank), found.map(letter));
    }
    Ok(())
}

// The same of letters that weigh as two or three.
#[test]
fn expansions(rt: HostRuntime) {
    let all = [
        expansion(223, None),
        expansion(230, Some(Weights::from([1, 2, 3]))),
        expansion(64259, None),
    ];
    for (rank, found) in [
        (222u64, None),
        (223, Some(all[0])),
        (224, None),
        (230, Some(all[1])),
        (231, None),
        (64259, Some(all[2])),
        (64260, None),
    ] {
        assert_eq!(rt; find_ranked(&all, rank), found);
    }
    assert_eq!(rt; all[2].rank(), 64259);
    assert_eq!(rt; expansion(4294967295, None).rank(), 4294967295);
}
