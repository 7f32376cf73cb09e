// A table of bytes filled step by step.
use crate::hold::{Added, NONE, ONE, TWO, add_letters, add_pair, hold_letters, pair};
use std::test::Fail;
use table::{Refusal, TableBuf};

#[test]
fn letters(rt: HostRuntime) -> Result<(), Fail> {
    let mut table = TableBuf::new(rt.alloc())?;
    assert!(rt; !table.table().utf8());
    hold_letters(&rt, &table.table(), &[(0, NONE), (97, NONE), (255, NONE)]);
    add_letters(
        &rt,
        &mut table,
        &[
            Added(0, ONE, None),
            Added(255, TWO, None),
            Added(97, TWO, None),
            Added(97, ONE, Some(Refusal::LetterTwice(3))),
            Added(97, NONE, None),
            Added(256, ONE, Some(Refusal::NoLetter(3))),
            Added(4294967295, ONE, Some(Refusal::NoLetter(3))),
            Added(256, NONE, None),
        ],
    );
    hold_letters(
        &rt,
        &table.table(),
        &[
            (0, ONE),
            (1, NONE),
            (255, TWO),
            (254, NONE),
            (97, TWO),
            (96, NONE),
            (98, NONE),
            (256, NONE),
            (353, NONE),
        ],
    );
    assert_eq!(rt; table.letter_count(), 3);
    assert_eq!(rt; table.table().letter_count(), 256);
    Ok(())
}

#[test]
fn pairs(rt: HostRuntime) -> Result<(), Fail> {
    let mut table = TableBuf::new(rt.alloc())?;
    add_pair(&rt, &mut table, 0, 255, ONE, None);
    add_pair(&rt, &mut table, 255, 0, TWO, None);
    add_letters(&rt, &mut table, &[Added(97, TWO, None)]);
    add_pair(&rt, &mut table, 0, 255, TWO, Some(Refusal::Twice(2)));
    add_pair(&rt, &mut table, 256, 1, ONE, Some(Refusal::Foreign(2)));
    add_pair(&rt, &mut table, 1, 65535, ONE, Some(Refusal::Foreign(2)));
    hold_letters(&rt, &table.table(), &[(96, NONE), (97, TWO)]);
    assert_eq!(rt; table.table().pair(0, 255), Some(ONE));
    assert_eq!(rt; table.table().pair(255, 0), Some(TWO));
    assert_eq!(rt; table.table().pair(0, 0), None);
    assert_eq!(rt; table.table().pair_at(1), Some(pair(255, 0, TWO)));
    assert_eq!(rt; table.table().pair_count(), 2);
    Ok(())
}

// The 200th pair is added, the 201st is not, and a table that is full says so first.
#[test]
fn many_pairs(rt: HostRuntime) -> Result<(), Fail> {
    let mut table = TableBuf::new(rt.alloc())?;
    for k in 0..200u32 {
        add_pair(&rt, &mut table, 7, k, ONE, None);
    }
    add_pair(&rt, &mut table, 7, 200, ONE, Some(Refusal::TooMany));
    add_pair(&rt, &mut table, 7, 0, ONE, Some(Refusal::TooMany));
    add_pair(&rt, &mut table, 256, 0, ONE, Some(Refusal::TooMany));
    assert_eq!(rt; table.table().pair(7, 199), Some(ONE));
    assert_eq!(rt; table.table().pair_count(), 200);
    Ok(())
}
