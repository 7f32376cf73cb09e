// Runs of three and four letters in tables that are filled step by step.
use crate::hold::{
    ONE, TWO, add_longs, add_pair, four, hold_begins, hold_long_places, hold_longs, hold_pairs,
    long, three,
};
use std::test::Fail;
use table::{Refusal, Table, TableBuf, Weights};

const NINE: Weights = Weights {
    primary: 9,
    secondary: 9,
    tertiary: 9,
};

// Runs that begin alike, among them one that is the front of another, and letters that have the same remainder by 256.
#[test]
fn found(rt: HostRuntime) -> Result<(), Fail> {
    let mut table = TableBuf::in_utf8(rt.alloc())?;
    hold_longs(&rt, &table.table(), &[(three(7, 8, 9), None)]);
    hold_long_places(&rt, &table.table(), &[]);
    add_longs(
        &rt,
        &mut table,
        &[
            (long(three(7, 8, 9), ONE), None),
            (long(four(7, 8, 9, 10), TWO), None),
            (long(three(263, 8, 9), NINE), None),
            (long(four(7, 264, 9, 10), ONE), None),
            (long(three(7, 9, 8), TWO), None),
            (long(four(0, 0, 0, 0), NINE), None),
            (long(four(65535, 65535, 65535, 65535), TWO), None),
            (long(four(9, 8, 7, 6), ONE), None),
        ],
    );
    hold_longs(
        &rt,
        &table.table(),
        &[
            (three(7, 8, 9), Some(ONE)),
            (four(7, 8, 9, 10), Some(TWO)),
            (three(263, 8, 9), Some(NINE)),
            (four(7, 264, 9, 10), Some(ONE)),
            (three(7, 9, 8), Some(TWO)),
            (four(0, 0, 0, 0), Some(NINE)),
            (four(65535, 65535, 65535, 65535), Some(TWO)),
            (four(9, 8, 7, 6), Some(ONE)),
            // The front of a run of four, and a run of three with one letter more.
            (three(9, 8, 7), None),
            (three(0, 0, 0), None),
            (four(7, 9, 8, 0), None),
            (four(7, 8, 9, 11), None),
            (four(7, 8, 9, 266), None),
            (four(7, 8, 9, 7), None),
            (three(7, 8, 265), None),
            (three(7, 264, 9), None),
            (three(519, 8, 9), None),
            (four(263, 8, 9, 10), None),
            (three(8, 9, 7), None),
            (three(65535, 65535, 65535), None),
            (three(4294967295, 8, 9), None),
            (four(4294967295, 4294967295, 4294967295, 4294967295), None),
        ],
    );
    Ok(())
}

// By the first letter, and of those that begin alike four letters before three; a run stands in front of those that are added
// before it and have the same rank.
#[test]
fn places(rt: HostRuntime) -> Result<(), Fail> {
    let mut table = TableBuf::in_utf8(rt.alloc())?;
    add_longs(
        &rt,
        &mut table,
        &[
            (long(three(7, 8, 9), ONE), None),
            (long(three(300, 1, 1), TWO), None),
            (long(four(7, 9, 9, 9), ONE), None),
            (long(three(7, 1, 1), NINE), None),
            (long(four(7, 1, 1, 1), TWO), None),
            (long(four(0, 5, 5, 5), NINE), None),
            (long(four(300, 0, 0, 0), ONE), None),
        ],
    );
    hold_long_places(
        &rt,
        &table.table(),
        &[
            long(four(0, 5, 5, 5), NINE),
            long(four(7, 1, 1, 1), TWO),
            long(four(7, 9, 9, 9), ONE),
            long(three(7, 1, 1), NINE),
            long(three(7, 8, 9), ONE),
            long(four(300, 0, 0, 0), ONE),
            long(three(300, 1, 1), TWO),
        ],
    );
    Ok(())
}

// A letter that has the same remainder by 256 as the first of a pair or of a longer run, and no other.
#[test]
fn begins(rt: HostRuntime) -> Result<(), Fail> {
    let mut table = TableBuf::in_utf8(rt.alloc())?;
    hold_begins(&rt, &table.table(), &[(0, false), (7, false), (255, false)]);
    add_pair(&rt, &mut table, 300, 1, ONE, None);
    add_longs(
        &rt,
        &mut table,
        &[
            (long(three(7, 8, 9), ONE), None),
            (long(four(65535, 10, 11, 12), TWO), None),
        ],
    );
    hold_begins(
        &rt,
        &table.table(),
        &[
            (7, true),
            (263, true),
            (65287, true),
            (300, true),
            (44, true),
            (65535, true),
            (255, true),
            (4294967295, true),
            (8, false),
            (9, false),
            (1, false),
            (10, false),
            (11, false),
            (12, false),
            (0, false),
            (256, false),
            (301, false),
            (65534, false),
            (4294967294, false),
        ],
    );
    hold_begins(
        &rt,
        &Table::valley(),
        &[(99, true), (355, true), (104, false), (98, false)],
    );
    Ok(())
}

// The place is that among all runs, pairs and longer ones; a pair and a longer run are never the same.
#[test]
fn refused(rt: HostRuntime) -> Result<(), Fail> {
    let mut table = TableBuf::in_utf8(rt.alloc())?;
    add_pair(&rt, &mut table, 7, 8, ONE, None);
    add_longs(
        &rt,
        &mut table,
        &[
            (long(three(7, 8, 9), ONE), None),
            (long(three(7, 8, 9), ONE), Some(Refusal::Twice(2))),
            (long(three(7, 8, 9), TWO), Some(Refusal::Twice(2))),
            (long(four(7, 8, 9, 10), TWO), None),
            (long(four(7, 8, 9, 10), ONE), Some(Refusal::Twice(3))),
            (long(three(65536, 8, 9), ONE), Some(Refusal::Foreign(3))),
            (long(three(7, 65536, 9), ONE), Some(Refusal::Foreign(3))),
            (long(three(7, 8, 65536), ONE), Some(Refusal::Foreign(3))),
            (long(four(65536, 8, 9, 10), ONE), Some(Refusal::Foreign(3))),
            (long(four(7, 65536, 9, 10), ONE), Some(Refusal::Foreign(3))),
            (long(four(7, 8, 65536, 10), ONE), Some(Refusal::Foreign(3))),
            (long(four(7, 8, 9, 65536), ONE), Some(Refusal::Foreign(3))),
            (
                long(four(7, 8, 9, 4294967295), ONE),
                Some(Refusal::Foreign(3)),
            ),
        ],
    );
    add_pair(&rt, &mut table, 7, 8, TWO, Some(Refusal::Twice(3)));
    add_pair(&rt, &mut table, 7, 65536, TWO, Some(Refusal::Foreign(3)));
    add_pair(&rt, &mut table, 7, 9, TWO, None);
    add_longs(
        &rt,
        &mut table,
        &[
            (long(three(7, 8, 9), ONE), Some(Refusal::Twice(4))),
            (long(three(7, 8, 65536), ONE), Some(Refusal::Foreign(4))),
        ],
    );
    hold_pairs(&rt, &table.table(), &[(7, 8, Some(ONE)), (7, 9, Some(TWO))]);
    hold_longs(
        &rt,
        &table.table(),
        &[(three(7, 8, 9), Some(ONE)), (four(7, 8, 9, 10), Some(TWO))],
    );
    assert_eq!(rt; table.table().pair_count(), 2);
    hold_long_places(
        &rt,
        &table.table(),
        &[long(four(7, 8, 9, 10), TWO), long(three(7, 8, 9), ONE)],
    );
    Ok(())
}

// A table of bytes takes letters up to 255.
#[test]
fn bytes(rt: HostRuntime) -> Result<(), Fail> {
    let mut table = TableBuf::new(rt.alloc())?;
    add_longs(
        &rt,
        &mut table,
        &[
            (long(three(0, 128, 255), ONE), None),
            (long(four(255, 255, 255, 255), TWO), None),
            (long(three(256, 0, 0), ONE), Some(Refusal::Foreign(2))),
            (long(three(0, 256, 0), ONE), Some(Refusal::Foreign(2))),
            (long(three(0, 128, 256), ONE), Some(Refusal::Foreign(2))),
            (long(four(0, 128, 255, 256), ONE), Some(Refusal::Foreign(2))),
            (long(three(0, 128, 65535), ONE), Some(Refusal::Foreign(2))),
            (long(three(0, 128, 255), TWO), Some(Refusal::Twice(2))),
        ],
    );
    let table = table.table();
    assert!(rt; !table.utf8());
    hold_longs(
        &rt,
        &table,
        &[
            (three(0, 128, 255), Some(ONE)),
            (four(255, 255, 255, 255), Some(TWO)),
            (three(255, 255, 255), None),
            (three(256, 128, 255), None),
            (three(0, 128, 511), None),
        ],
    );
    hold_begins(&rt, &table, &[(0, true), (255, true), (128, false)]);
    Ok(())
}

// 200 runs are taken, pairs and longer ones together, and a table that is full says so first.
#[test]
fn many_runs(rt: HostRuntime) -> Result<(), Fail> {
    let mut table = TableBuf::in_utf8(rt.alloc())?;
    for k in 0..100u32 {
        add_pair(&rt, &mut table, 7, k, ONE, None);
        add_longs(&rt, &mut table, &[(long(three(1000 - k, 7, k), TWO), None)]);
    }
    add_longs(
        &rt,
        &mut table,
        &[
            (long(three(7, 7, 7), ONE), Some(Refusal::TooMany)),
            (long(four(7, 7, 7, 7), ONE), Some(Refusal::TooMany)),
            (long(three(1000, 7, 0), ONE), Some(Refusal::TooMany)),
            (long(three(65536, 7, 0), ONE), Some(Refusal::TooMany)),
        ],
    );
    add_pair(&rt, &mut table, 8, 8, ONE, Some(Refusal::TooMany));
    add_pair(&rt, &mut table, 7, 0, ONE, Some(Refusal::TooMany));
    add_pair(&rt, &mut table, 65536, 0, ONE, Some(Refusal::TooMany));
    let table = table.table();
    assert_eq!(rt; table.pair_count(), 100);
    assert_eq!(rt; table.long_count(), 100);
    for k in 0..100u32 {
        assert_eq!(rt; table.pair(7, k), Some(ONE));
        assert_eq!(rt; table.long(three(1000 - k, 7, k)), Some(TWO));
        assert_eq!(rt; table.long(three(1000 - k, 7, k + 1)), None);
    }
    Ok(())
}

// The 200th of longer runs alone, which all begin alike.
#[test]
fn many_longs(rt: HostRuntime) -> Result<(), Fail> {
    let mut table = TableBuf::in_utf8(rt.alloc())?;
    for k in 0..100u32 {
        add_longs(
            &rt,
            &mut table,
            &[
                (long(three(7, 7, k), ONE), None),
                (long(four(7, 7, k, 7), TWO), None),
            ],
        );
    }
    add_longs(
        &rt,
        &mut table,
        &[(long(three(7, 7, 100), ONE), Some(Refusal::TooMany))],
    );
    add_pair(&rt, &mut table, 7, 7, ONE, Some(Refusal::TooMany));
    let table = table.table();
    assert_eq!(rt; table.long_count(), 200);
    assert_eq!(rt; table.pair_count(), 0);
    for k in 0..100u32 {
        assert_eq!(rt; table.long(three(7, 7, k)), Some(ONE));
        assert_eq!(rt; table.long(four(7, 7, k, 7)), Some(TWO));
        assert_eq!(rt; table.long(four(7, 7, k, 8)), None);
    }
    Ok(())
}

// A copy has the same runs, and is filled further by itself; a table of bytes as one in UTF-8 has them too.
#[test]
fn copied(rt: HostRuntime) -> Result<(), Fail> {
    let mut table = TableBuf::new(rt.alloc())?;
    add_pair(&rt, &mut table, 7, 8, ONE, None);
    add_longs(
        &rt,
        &mut table,
        &[
            (long(three(7, 8, 9), ONE), None),
            (long(four(3, 8, 9, 10), TWO), None),
        ],
    );
    let mut copy = table.table().in_utf8().to_buf(rt.alloc())?;
    assert!(rt; copy.utf8());
    hold_long_places(
        &rt,
        &copy.table(),
        &[long(four(3, 8, 9, 10), TWO), long(three(7, 8, 9), ONE)],
    );
    add_longs(
        &rt,
        &mut copy,
        &[
            (long(three(7, 8, 9), TWO), Some(Refusal::Twice(3))),
            (long(three(300, 8, 9), NINE), None),
            (long(three(300, 8, 9), NINE), Some(Refusal::Twice(4))),
        ],
    );
    hold_longs(
        &rt,
        &copy.table(),
        &[
            (three(7, 8, 9), Some(ONE)),
            (four(3, 8, 9, 10), Some(TWO)),
            (three(300, 8, 9), Some(NINE)),
        ],
    );
    hold_begins(
        &rt,
        &copy.table(),
        &[(7, true), (3, true), (300, true), (8, false)],
    );
    hold_longs(
        &rt,
        &table.table(),
        &[
            (three(7, 8, 9), Some(ONE)),
            (four(3, 8, 9, 10), Some(TWO)),
            (three(300, 8, 9), None),
        ],
    );
    Ok(())
}
