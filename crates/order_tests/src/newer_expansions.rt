// What a newer table keeps of letters that weigh as two or three.
use crate::entries::{entry, pair, several};
use crate::newer::marked;
use keys::Level;
use order::{Change, Collate, Piece, keeps_order};
use std::alloc::{AllocError, Global};
use std::test::Fail;
use table::{AddError, TableBuf};

const E: Piece = Piece::Letter(101);

// a, b and c, the pair of b and a, and e, which weighs so.
fn with_e(heap: Global, e: &[[u16; 3]]) -> Result<TableBuf, AddError> {
    let mut table = TableBuf::new(heap)?;
    for (letter, primary) in [(97, 10), (98, 20), (99, 30)] {
        table.add_letter(entry(letter, [primary, 1, 1]))?;
    }
    table.add_letter(several(101, e))?;
    table.add_pair(pair(98, 97, [15, 1, 1]))?;
    Ok(table)
}

// These letters are old.
fn old(heap: Global, letters: &[u32]) -> Result<Vec<bool>, AllocError> {
    let mut old = vec![in heap; false; 65536]?;
    for letter in letters {
        if let Some(mark) = old.get_mut(*letter as usize) {
            *mark = true;
        }
    }
    Ok(old)
}

// Letters that weigh so.
fn letters(heap: Global, letters: &[(u32, &[[u16; 3]])]) -> Result<TableBuf, AddError> {
    let mut table = TableBuf::in_utf8(heap)?;
    for (letter, triples) in letters {
        table.add_letter(several(*letter, *triples))?;
    }
    Ok(table)
}

// The same triples, the same on another scale, and new letters that weigh as two or three.
#[test]
fn keeps(rt: HostRuntime) -> Result<(), Fail> {
    let heap = rt.alloc();
    let older = with_e(heap, &[[10, 1, 1], [20, 0, 2], [0, 0, 0]])?;
    let mut newer = TableBuf::new(heap)?;
    for (letter, primary) in [(97, 100), (98, 300), (99, 65535)] {
        newer.add_letter(entry(letter, [primary, 7, 3]))?;
    }
    newer.add_letter(several(101, &[[100, 7, 3], [300, 0, 9], [0, 0, 0]]))?;
    newer.add_letter(several(102, &[[1, 2, 3], [4, 5, 6]]))?;
    newer.add_letter(several(103, &[[0, 0, 1], [0, 0, 0], [7, 7, 7]]))?;
    newer.add_pair(pair(98, 97, [200, 7, 3]))?;
    newer.add_pair(pair(101, 102, [1, 1, 1]))?;
    let (before, now) = (older.table(), newer.table());
    let all = [true; 256];
    assert_eq!(rt; keeps_order(&before, &before, &all), Ok(()));
    assert_eq!(rt; keeps_order(&now, &now, &all), Ok(()));
    let old = marked(b"abce");
    assert_eq!(rt; keeps_order(&before, &now, &old), Ok(()));
    assert_eq!(rt; keeps_order(&now, &before, &old), Ok(()));
    for letter in b"fg" {
        let change = Err(Change::Expands(Piece::Letter(*letter as u32)));
        let more = marked(&[b'a', b'b', b'c', *letter]);
        assert_eq!(rt; keeps_order(&before, &now, &more), change);
        assert_eq!(rt; keeps_order(&now, &before, &more), change);
    }
    let names: [&[u8]; 14] = [
        b"", b"a", b"ab", b"e", b"ea", b"abe", b"eab", b"ba", b"eba", b"bae", b"c", b"ec", b"ace",
        b"ee",
    ];
    for one in names {
        for other in names {
            assert_eq!(rt; before.compare(one, other), now.compare(one, other));
        }
    }
    Ok(())
}

// What a letter weighs under one table and under another, its number of triples not the same.
static OTHER_NUMBERS: [(&[[u16; 3]], &[[u16; 3]]); 8] = [
    (&[[10, 1, 1]], &[[10, 1, 1], [20, 1, 1]]),
    (&[[10, 1, 1]], &[[10, 1, 1], [20, 1, 1], [30, 1, 1]]),
    (
        &[[10, 1, 1], [20, 1, 1]],
        &[[10, 1, 1], [20, 1, 1], [30, 1, 1]],
    ),
    (&[[10, 1, 1], [20, 1, 1]], &[]),
    (&[[10, 1, 1], [20, 1, 1], [30, 1, 1]], &[]),
    // Also where no triple more counts, or others came to be 0.
    (&[[10, 1, 1]], &[[10, 1, 1], [0, 0, 0]]),
    (
        &[[10, 1, 1], [20, 1, 1]],
        &[[10, 1, 1], [20, 1, 1], [0, 0, 0]],
    ),
    (
        &[[10, 1, 1], [20, 1, 1]],
        &[[0, 0, 0], [0, 1, 1], [30, 1, 1]],
    ),
];

// A letter that weighs as another number of letters, if it is old.
#[test]
fn expands(rt: HostRuntime) -> Result<(), Fail> {
    let heap = rt.alloc();
    for (before, now) in OTHER_NUMBERS {
        let (older, newer) = (with_e(heap, before)?, with_e(heap, now)?);
        for (one, other) in [
            (older.table(), newer.table()),
            (newer.table(), older.table()),
        ] {
            let told = keeps_order(&one, &other, &marked(b"abce"));
            assert_eq!(rt; told, Err(Change::Expands(E)));
            assert_eq!(rt; keeps_order(&one, &other, &marked(b"abc")), Ok(()));
            assert_eq!(rt; keeps_order(&one, &other, &[]), Ok(()));
        }
    }
    Ok(())
}

// The same of letters above 255, which a table lists only where they weigh something.
#[test]
fn large_expands(rt: HostRuntime) -> Result<(), Fail> {
    let heap = rt.alloc();
    for letter in [256, 339, 65535] {
        let change = Err(Change::Expands(Piece::Letter(letter)));
        let all = old(heap, &[97, letter])?;
        let but = old(heap, &[97])?;
        for (before, now) in OTHER_NUMBERS {
            let a: &[[u16; 3]] = &[[10, 1, 1]];
            let older = letters(heap, &[(letter, before), (97, a)])?;
            let newer = letters(heap, &[(letter, now), (97, a)])?;
            for (one, other) in [
                (older.table(), newer.table()),
                (newer.table(), older.table()),
            ] {
                assert_eq!(rt; keeps_order(&one, &other, &all), change);
                assert_eq!(rt; keeps_order(&one, &other, &but), Ok(()));
                let marks = all.get(..letter as usize).unwrap_or(&[]);
                assert_eq!(rt; keeps_order(&one, &other, marks), Ok(()));
            }
        }
    }
    Ok(())
}

// A triple that came to weigh 0, or no longer does, on the first level on which one of them did.
#[test]
fn zeros(rt: HostRuntime) -> Result<(), Fail> {
    let heap = rt.alloc();
    let older = with_e(heap, &[[10, 1, 1], [20, 0, 1], [0, 2, 0]])?;
    for (now, level) in [
        ([[10, 1, 1], [0, 0, 1], [0, 2, 0]], Level::Primary),
        ([[10, 1, 1], [20, 5, 1], [0, 2, 0]], Level::Secondary),
        ([[10, 1, 1], [20, 0, 0], [0, 2, 0]], Level::Tertiary),
        ([[10, 1, 1], [20, 0, 1], [5, 2, 0]], Level::Primary),
        ([[10, 1, 1], [20, 0, 1], [0, 0, 0]], Level::Secondary),
        ([[10, 1, 1], [20, 0, 1], [0, 2, 9]], Level::Tertiary),
        ([[0, 1, 1], [20, 0, 1], [0, 2, 0]], Level::Primary),
        ([[10, 1, 1], [0, 5, 0], [0, 2, 0]], Level::Primary),
        ([[10, 1, 0], [20, 5, 1], [0, 2, 0]], Level::Secondary),
        ([[10, 1, 0], [20, 0, 1], [7, 2, 0]], Level::Primary),
        ([[10, 1, 1], [0, 2, 0], [20, 0, 1]], Level::Primary),
    ] {
        let newer = with_e(heap, &now)?;
        let change = Err(Change::Counts(E, level));
        let old = marked(b"abce");
        assert_eq!(rt; keeps_order(&older.table(), &newer.table(), &old), change);
        assert_eq!(rt; keeps_order(&newer.table(), &older.table(), &old), change);
        let but = marked(b"abc");
        assert_eq!(rt; keeps_order(&older.table(), &newer.table(), &but), Ok(()));
    }
    Ok(())
}

// A triple that stands otherwise to a letter, or to the pair.
#[test]
fn order(rt: HostRuntime) -> Result<(), Fail> {
    let heap = rt.alloc();
    let older = with_e(heap, &[[10, 1, 1], [30, 1, 2]])?;
    let [a, b, c] = [Piece::Letter(97), Piece::Letter(98), Piece::Letter(99)];
    let old = marked(b"abce");
    for (now, other, level) in [
        ([[20, 1, 1], [30, 1, 2]], a, Level::Primary),
        ([[9, 1, 1], [30, 1, 2]], a, Level::Primary),
        ([[30, 1, 2], [10, 1, 1]], a, Level::Primary),
        ([[10, 1, 1], [20, 1, 2]], b, Level::Primary),
        ([[10, 1, 1], [12, 1, 2]], b, Level::Primary),
        ([[10, 1, 1], [31, 1, 2]], c, Level::Primary),
        ([[10, 1, 1], [25, 1, 2]], c, Level::Primary),
        ([[10, 2, 1], [30, 1, 2]], a, Level::Secondary),
        ([[10, 1, 1], [30, 2, 2]], a, Level::Secondary),
        ([[10, 1, 1], [30, 1, 1]], a, Level::Tertiary),
        ([[10, 1, 2], [30, 1, 2]], a, Level::Tertiary),
    ] {
        let newer = with_e(heap, &now)?;
        let told = keeps_order(&older.table(), &newer.table(), &old);
        assert_eq!(rt; told, Err(Change::Order(other, E, level)));
        let but = marked(b"abc");
        assert_eq!(rt; keeps_order(&older.table(), &newer.table(), &but), Ok(()));
    }
    let before = with_e(heap, &[[10, 1, 1], [10, 1, 1], [15, 1, 1]])?;
    let now = with_e(heap, &[[10, 1, 1], [10, 1, 1], [16, 1, 1]])?;
    let change = Change::Order(E, Piece::Pair(98, 97), Level::Primary);
    assert_eq!(rt;
        keeps_order(&before.table(), &now.table(), &old),
        Err(change)
    );
    assert_eq!(rt;
        keeps_order(&before.table(), &now.table(), &marked(b"ace")),
        Ok(())
    );
    Ok(())
}

// Triples of one letter that stand otherwise to each other, and to those of another letter that weighs as several.
#[test]
fn order_of_triples(rt: HostRuntime) -> Result<(), Fail> {
    let heap = rt.alloc();
    let [e, f] = [E, Piece::Letter(339)];
    let all = old(heap, &[101, 339])?;
    let but = old(heap, &[339])?;
    let other: &[[u16; 3]] = &[[5, 1, 1], [8, 1, 1]];
    for (before, now, one, level) in [
        (
            [[1, 1, 1], [2, 1, 1]],
            [[2, 1, 1], [1, 1, 1]],
            e,
            Level::Primary,
        ),
        (
            [[1, 1, 1], [1, 1, 1]],
            [[1, 1, 1], [2, 1, 1]],
            e,
            Level::Primary,
        ),
        (
            [[1, 1, 1], [2, 1, 1]],
            [[1, 1, 1], [1, 1, 1]],
            e,
            Level::Primary,
        ),
        (
            [[1, 1, 2], [1, 2, 1]],
            [[1, 2, 2], [1, 1, 1]],
            e,
            Level::Secondary,
        ),
        (
            [[1, 1, 2], [1, 1, 1]],
            [[1, 1, 1], [1, 1, 2]],
            e,
            Level::Tertiary,
        ),
        (
            [[1, 1, 1], [5, 1, 1]],
            [[1, 1, 1], [6, 1, 1]],
            f,
            Level::Primary,
        ),
        (
            [[1, 1, 1], [7, 1, 1]],
            [[1, 1, 1], [8, 1, 1]],
            f,
            Level::Primary,
        ),
        (
            [[6, 1, 1], [7, 1, 1]],
            [[4, 1, 1], [7, 1, 1]],
            f,
            Level::Primary,
        ),
        (
            [[6, 1, 1], [7, 1, 1]],
            [[6, 1, 1], [9, 1, 1]],
            f,
            Level::Primary,
        ),
        (
            [[5, 1, 1], [8, 1, 1]],
            [[5, 2, 1], [8, 2, 1]],
            f,
            Level::Secondary,
        ),
    ] {
        let [first, second] = before;
        let [third, fourth] = now;
        // Behind a triple that stays the same, too.
        let zero = [0; 3];
        for (before, now) in [
            ([first, second, zero], [third, fourth, zero]),
            ([zero, first, second], [zero, third, fourth]),
        ] {
            let older = letters(heap, &[(101, &before), (339, other)])?;
            let newer = letters(heap, &[(101, &now), (339, other)])?;
            let told = keeps_order(&older.table(), &newer.table(), &all);
            assert_eq!(rt; told, Err(Change::Order(e, one, level)));
            let told = keeps_order(&older.table(), &newer.table(), &but);
            assert_eq!(rt; told, Ok(()));
        }
    }
    Ok(())
}

// What came to be one is told before a letter's number of triples, and this before what weighs 0, of that letter and of those
// behind it; and before what is no longer one.
#[test]
fn told_first(rt: HostRuntime) -> Result<(), Fail> {
    let heap = rt.alloc();
    let older = with_e(heap, &[[10, 1, 1], [20, 1, 1]])?;
    let old = marked(b"abcef");
    let mut newer = TableBuf::new(heap)?;
    for letter in [97, 98, 99] {
        newer.add_letter(entry(letter, [10 * (letter as u16 - 96), 1, 1]))?;
    }
    newer.add_letter(several(101, &[[0, 1, 1], [0, 1, 1], [0, 0, 1]]))?;
    newer.add_letter(entry(102, [1, 1, 1]))?;
    let (before, now) = (older.table(), newer.table());
    assert_eq!(rt; keeps_order(&before, &now, &old), Err(Change::Expands(E)));
    let joined = Err(Change::Joins(Piece::Pair(98, 97)));
    assert_eq!(rt; keeps_order(&now, &before, &old), joined);
    let mut newer = with_e(heap, &[[10, 1, 1]])?;
    newer.add_pair(pair(101, 101, [1, 1, 1]))?;
    let joined = Err(Change::Joins(Piece::Pair(101, 101)));
    assert_eq!(rt; keeps_order(&before, &newer.table(), &old), joined);
    let utf8 = newer.table().in_utf8();
    assert_eq!(rt; keeps_order(&before, &utf8, &old), Err(Change::Utf8));
    // A letter in front of it that weighs 0.
    let mut newer = TableBuf::new(heap)?;
    newer.add_letter(several(101, &[[10, 1, 1]]))?;
    let counts = Err(Change::Counts(Piece::Letter(97), Level::Primary));
    assert_eq!(rt; keeps_order(&before, &newer.table(), &old), counts);
    Ok(())
}
