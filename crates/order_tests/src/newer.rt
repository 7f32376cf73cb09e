// What a newer table keeps, and what has changed.
use crate::entries::{entry, pair};
use keys::Level;
use order::{Change, Collate, Piece, keeps_order};
use std::alloc::Global;
use std::cmp::Ordering;
use std::test::Fail;
use table::{Table, TableBuf};

const LETTERS: &[u8] = b"abc";

// a, b and c.
fn letters(heap: Global) -> Result<TableBuf, Fail> {
    let mut table = TableBuf::new(heap)?;
    table.add_letter(entry(97, [10, 1, 0]))?;
    table.add_letter(entry(98, [20, 1, 2]))?;
    table.add_letter(entry(99, [20, 2, 1]))?;
    Ok(table)
}

// The same, and the pair of b and c.
fn older(heap: Global) -> Result<TableBuf, Fail> {
    let mut table = letters(heap)?;
    table.add_pair(pair(98, 99, [15, 1, 1]))?;
    Ok(table)
}

// The same, but that one of the letters weighs something else.
fn other(heap: Global, letter: u32, weights: [u16; 3]) -> Result<TableBuf, Fail> {
    let mut table = TableBuf::new(heap)?;
    for (one, weighs) in [(97, [10, 1, 0]), (98, [20, 1, 2]), (99, [20, 2, 1])] {
        table.add_letter(entry(one, if one == letter { weights } else { weighs }))?;
    }
    table.add_pair(pair(98, 99, [15, 1, 1]))?;
    Ok(table)
}

// The letters of a name are old.
pub(crate) fn marked(letters: &[u8]) -> [bool; 256] {
    let mut old = [false; 256];
    for letter in letters {
        old[*letter as usize] = true;
    }
    old
}

// Weights on another scale, new letters and new pairs with new letters.
#[test]
fn keeps(rt: HostRuntime) -> Result<(), Fail> {
    let older = older(rt.alloc())?;
    let mut newer = TableBuf::new(rt.alloc())?;
    newer.add_letter(entry(97, [100, 7, 0]))?;
    newer.add_letter(entry(98, [300, 7, 65535]))?;
    newer.add_letter(entry(99, [300, 8, 3]))?;
    newer.add_letter(entry(100, [150, 0, 4]))?;
    newer.add_pair(pair(98, 99, [101, 7, 3]))?;
    for (first, second) in [(97, 100), (100, 100), (100, 97)] {
        newer.add_pair(pair(first, second, [1, 2, 3]))?;
    }
    let old = marked(LETTERS);
    assert_eq!(rt; keeps_order(&older.table(), &newer.table(), &old), Ok(()));
    assert_eq!(rt;
        keeps_order(&older.table(), &older.table(), &[true; 256]),
        Ok(())
    );
    assert_eq!(rt;
        keeps_order(&Table::valley(), &Table::valley(), &[true; 256]),
        Ok(())
    );
    let names: [&[u8]; 9] = [b"", b"a", b"bc", b"abc", b"b", b"c", b"cb", b"xcc", b"bca"];
    for one in names {
        for other in names {
            assert_eq!(rt;
                older.table().compare(one, other),
                newer.table().compare(one, other)
            );
        }
    }
    Ok(())
}

// An old letter that weighs nothing must not come to count.
#[test]
fn letter_without_weight(rt: HostRuntime) -> Result<(), Fail> {
    let older = older(rt.alloc())?;
    let mut newer = self::older(rt.alloc())?;
    newer.add_letter(entry(100, [0, 0, 5]))?;
    assert_eq!(rt;
        keeps_order(&older.table(), &newer.table(), &marked(LETTERS)),
        Ok(())
    );
    assert_eq!(rt;
        keeps_order(&older.table(), &newer.table(), &marked(b"abcd")),
        Err(Change::Counts(Piece::Letter(100), Level::Tertiary))
    );
    Ok(())
}

// Where no letter is old nothing has to be kept, and none is where there are no marks.
#[test]
fn nothing_old(rt: HostRuntime) -> Result<(), Fail> {
    let empty = TableBuf::new(rt.alloc())?;
    for marks in [[false; 256].as_slice(), &[]] {
        assert_eq!(rt;
            keeps_order(&Table::valley(), &empty.table(), marks),
            Ok(())
        );
        assert_eq!(rt;
            keeps_order(&empty.table(), &Table::valley(), marks),
            Ok(())
        );
    }
    Ok(())
}

// A pair that is one in only one of the tables, where both its letters are old.
#[test]
fn pairs(rt: HostRuntime) -> Result<(), Fail> {
    let older = older(rt.alloc())?;
    let newer = letters(rt.alloc())?;
    let old = marked(LETTERS);
    let lost = Change::Joins(Piece::Pair(98, 99));
    assert_eq!(rt;
        keeps_order(&older.table(), &newer.table(), &old),
        Err(lost)
    );
    assert_eq!(rt;
        keeps_order(&newer.table(), &older.table(), &old),
        Err(lost)
    );
    assert_eq!(rt;
        keeps_order(&newer.table(), &older.table(), &marked(b"ab")),
        Ok(())
    );
    assert_eq!(rt;
        keeps_order(&newer.table(), &older.table(), &marked(b"c")),
        Ok(())
    );
    Ok(())
}

// A weight that becomes 0, or is 0 no more, on the level that is named.
#[test]
fn zeros(rt: HostRuntime) -> Result<(), Fail> {
    let older = older(rt.alloc())?;
    let old = marked(LETTERS);
    let mut newer = letters(rt.alloc())?;
    newer.add_pair(pair(98, 99, [15, 0, 1]))?;
    assert_eq!(rt;
        keeps_order(&older.table(), &newer.table(), &old),
        Err(Change::Counts(Piece::Pair(98, 99), Level::Secondary))
    );
    for (letter, weights, level) in [
        (97, [0, 1, 0], Level::Primary),
        (98, [20, 0, 2], Level::Secondary),
        (97, [10, 1, 1], Level::Tertiary),
    ] {
        let newer = other(rt.alloc(), letter, weights)?;
        let change = Change::Counts(Piece::Letter(letter), level);
        assert_eq!(rt;
            keeps_order(&older.table(), &newer.table(), &old),
            Err(change)
        );
        assert_eq!(rt;
            keeps_order(&newer.table(), &older.table(), &old),
            Err(change)
        );
    }
    Ok(())
}

// Two that were the same are not, or the other way round, or turned; also where one is a pair.
#[test]
fn order(rt: HostRuntime) -> Result<(), Fail> {
    let older = older(rt.alloc())?;
    let [a, b, c] = [Piece::Letter(97), Piece::Letter(98), Piece::Letter(99)];
    let bc = Piece::Pair(98, 99);
    for (letter, weights, one, two, level) in [
        (98, [21, 1, 2], b, c, Level::Primary),
        (97, [15, 1, 0], a, bc, Level::Primary),
        (97, [10, 2, 0], a, b, Level::Secondary),
        (98, [20, 1, 1], b, c, Level::Tertiary),
        (97, [30, 1, 0], a, b, Level::Primary),
        (97, [17, 1, 0], a, bc, Level::Primary),
    ] {
        let newer = other(rt.alloc(), letter, weights)?;
        assert_eq!(rt;
            keeps_order(&older.table(), &newer.table(), &marked(LETTERS)),
            Err(Change::Order(one, two, level))
        );
    }
    Ok(())
}

// Names in UTF-8 under only one of the tables are told before all else, also where no letter is old.
#[test]
fn utf8(rt: HostRuntime) -> Result<(), Fail> {
    let bytes = Table::valley();
    let utf8 = bytes.in_utf8();
    let empty = TableBuf::in_utf8(rt.alloc())?;
    for marks in [[true; 256].as_slice(), &[]] {
        assert_eq!(rt; keeps_order(&bytes, &utf8, marks), Err(Change::Utf8));
        assert_eq!(rt; keeps_order(&utf8, &bytes, marks), Err(Change::Utf8));
        assert_eq!(rt;
            keeps_order(&bytes, &empty.table(), marks),
            Err(Change::Utf8)
        );
        assert_eq!(rt; keeps_order(&utf8, &utf8, marks), Ok(()));
    }
    Ok(())
}

// Letters above 255, all marked but those named; as many marks as are needed for them.
fn wide(heap: Global, unmarked: &[u32]) -> Result<Vec<bool>, Fail> {
    let mut old = vec![in heap; true; 65536]?;
    for letter in unmarked {
        if let Some(mark) = old.get_mut(*letter as usize) {
            *mark = false;
        }
    }
    Ok(old)
}

// 97, 351, 353, 65535, and 351 and 353 as a pair: of each what it weighs on the first level.
fn large(heap: Global, weights: [u16; 5]) -> Result<TableBuf, Fail> {
    let [a, b, c, d, e] = weights;
    let mut table = TableBuf::in_utf8(heap)?;
    for (letter, weight) in [(65535, d), (353, c), (97, a), (351, b)] {
        table.add_letter(entry(letter, [weight, 0, 0]))?;
    }
    table.add_pair(pair(351, 353, [e, 0, 0]))?;
    Ok(table)
}

// A letter above 255 that came to weigh something, or nothing, if it is old.
#[test]
fn large_zeros(rt: HostRuntime) -> Result<(), Fail> {
    let heap = rt.alloc();
    let full = large(heap, [10, 20, 30, 40, 50])?;
    for (weights, letter) in [
        ([10, 0, 30, 40, 50], 351),
        ([10, 20, 0, 40, 50], 353),
        ([10, 20, 30, 0, 50], 65535),
    ] {
        let less = large(heap, weights)?;
        let change = Err(Change::Counts(Piece::Letter(letter), Level::Primary));
        let all = wide(heap, &[])?;
        assert_eq!(rt; keeps_order(&less.table(), &full.table(), &all), change);
        assert_eq!(rt; keeps_order(&full.table(), &less.table(), &all), change);
        let but = wide(heap, &[letter])?;
        assert_eq!(rt; keeps_order(&less.table(), &full.table(), &but), Ok(()));
        assert_eq!(rt; keeps_order(&full.table(), &less.table(), &but), Ok(()));
        let marks = letter as usize;
        for (end, there) in [(marks, Ok(())), (marks + 1, change)] {
            let old = all.get(..end).unwrap_or(&[]);
            assert_eq!(rt; keeps_order(&less.table(), &full.table(), old), there);
            assert_eq!(rt; keeps_order(&full.table(), &less.table(), old), there);
        }
    }
    Ok(())
}

// Letters above 255 that stand to others otherwise, if both are old.
#[test]
fn large_order(rt: HostRuntime) -> Result<(), Fail> {
    let heap = rt.alloc();
    let older = large(heap, [10, 20, 30, 40, 50])?;
    let [a, d] = [Piece::Letter(97), Piece::Letter(65535)];
    let [b, c] = [Piece::Letter(351), Piece::Letter(353)];
    let bc = Piece::Pair(351, 353);
    for (weights, one, two, unmarked) in [
        ([10, 30, 20, 40, 50], b, c, 351),
        ([10, 30, 30, 40, 50], b, c, 353),
        ([15, 20, 30, 12, 50], a, d, 65535),
        ([25, 20, 30, 40, 50], a, b, 97),
        ([10, 20, 30, 40, 15], b, bc, 351),
        ([10, 20, 30, 60, 50], d, bc, 351),
        ([10, 20, 30, 60, 50], d, bc, 65535),
    ] {
        let newer = large(heap, weights)?;
        let change = Err(Change::Order(one, two, Level::Primary));
        let all = wide(heap, &[])?;
        assert_eq!(rt; keeps_order(&older.table(), &newer.table(), &all), change);
        let but = wide(heap, &[unmarked])?;
        assert_eq!(rt; keeps_order(&older.table(), &newer.table(), &but), Ok(()));
    }
    let newer = large(heap, [100, 2000, 30000, 40000, 65535])?;
    let all = wide(heap, &[])?;
    assert_eq!(rt; keeps_order(&older.table(), &newer.table(), &all), Ok(()));
    Ok(())
}

// A pair of letters above 255 in only one of the tables is told before what weighs something in only one.
#[test]
fn large_pairs(rt: HostRuntime) -> Result<(), Fail> {
    let heap = rt.alloc();
    let older = large(heap, [10, 20, 30, 40, 50])?;
    let mut newer = large(heap, [0, 20, 30, 40, 50])?;
    newer.add_pair(pair(353, 65535, [60, 0, 0]))?;
    let all = wide(heap, &[])?;
    let joined = Err(Change::Joins(Piece::Pair(353, 65535)));
    assert_eq!(rt; keeps_order(&older.table(), &newer.table(), &all), joined);
    let counts = Err(Change::Counts(Piece::Letter(97), Level::Primary));
    assert_eq!(rt; keeps_order(&newer.table(), &older.table(), &all), counts);
    let but = wide(heap, &[97])?;
    assert_eq!(rt; keeps_order(&newer.table(), &older.table(), &but), joined);
    let but = wide(heap, &[65535])?;
    assert_eq!(rt; keeps_order(&older.table(), &newer.table(), &but), counts);
    let but = wide(heap, &[97, 65535])?;
    assert_eq!(rt; keeps_order(&older.table(), &newer.table(), &but), Ok(()));
    Ok(())
}
