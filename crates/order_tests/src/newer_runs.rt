// What a newer table keeps of runs of three and four letters.
use crate::entries::{entry, pair};
use crate::newer::marked;
use crate::runs::{four, three};
use keys::Level;
use order::{Change, Collate, Piece, keeps_order};
use std::alloc::Global;
use std::test::Fail;
use table::{AddError, Long, Run, TableBuf, Weights};

// abc and abcd.
const ABC: [u32; 3] = [97, 98, 99];

const ABCD: [u32; 4] = [97, 98, 99, 100];

// a, b, c and d, and the pair of c and d.
fn letters(heap: Global) -> Result<TableBuf, AddError> {
    let mut table = TableBuf::new(heap)?;
    for (one, primary) in [(97, 10), (98, 20), (99, 30), (100, 40)] {
        table.add_letter(entry(one, [primary, 1, 1]))?;
    }
    table.add_pair(pair(99, 100, [33, 1, 1]))?;
    Ok(table)
}

// The same, and abc and abcd, which weigh so.
fn runs(heap: Global, abc: [u16; 3], abcd: [u16; 3]) -> Result<TableBuf, AddError> {
    let mut table = letters(heap)?;
    table.add_long(three(ABC, Weights::from(abc)))?;
    table.add_long(four(ABCD, Weights::from(abcd)))?;
    Ok(table)
}

fn older(heap: Global) -> Result<TableBuf, AddError> {
    runs(heap, [31, 1, 0], [35, 2, 1])
}

// A run, the piece that it is, and its letters.
#[derive(Clone, Copy)]
struct Case(Long, Piece, &'static [u8]);

// A run that is one in only one of the tables, where all its letters are old.
#[test]
fn joins(rt: HostRuntime) -> Result<(), Fail> {
    let less = letters(rt.alloc())?;
    let weights = Weights::from([1, 2, 3]);
    for case in [
        Case(three(ABC, weights), Piece::Three(97, 98, 99), b"abc"),
        Case(four(ABCD, weights), Piece::Four(97, 98, 99, 100), b"abcd"),
        Case(
            three([97, 97, 98], weights),
            Piece::Three(97, 97, 98),
            b"ab",
        ),
        Case(
            four([99, 100, 99, 100], weights),
            Piece::Four(99, 100, 99, 100),
            b"cd",
        ),
    ] {
        let mut full = letters(rt.alloc())?;
        full.add_long(case.0)?;
        let change = Err(Change::Joins(case.1));
        let mut old = marked(b"abcd");
        assert_eq!(rt; keeps_order(&less.table(), &full.table(), &old), change);
        assert_eq!(rt; keeps_order(&full.table(), &less.table(), &old), change);
        assert_eq!(rt; keeps_order(&full.table(), &full.table(), &old), Ok(()));
        for letter in b"abcd" {
            old[*letter as usize] = false;
            let there = if case.2.contains(letter) {
                Ok(())
            } else {
                change
            };
            assert_eq!(rt; keeps_order(&less.table(), &full.table(), &old), there);
            assert_eq!(rt; keeps_order(&full.table(), &less.table(), &old), there);
            old[*letter as usize] = true;
        }
    }
    Ok(())
}

// A weight that becomes 0, or is 0 no more, on the level that is named.
#[test]
fn zeros(rt: HostRuntime) -> Result<(), Fail> {
    let older = older(rt.alloc())?;
    let [abc, abcd] = [Piece::Three(97, 98, 99), Piece::Four(97, 98, 99, 100)];
    for (one, other, piece, level) in [
        ([0, 1, 0], [35, 2, 1], abc, Level::Primary),
        ([31, 0, 0], [35, 2, 1], abc, Level::Secondary),
        ([31, 1, 5], [35, 2, 1], abc, Level::Tertiary),
        ([0, 0, 0], [35, 2, 1], abc, Level::Primary),
        ([31, 1, 0], [0, 2, 1], abcd, Level::Primary),
        ([31, 1, 0], [35, 0, 0], abcd, Level::Secondary),
        ([31, 1, 0], [35, 2, 0], abcd, Level::Tertiary),
    ] {
        let newer = runs(rt.alloc(), one, other)?;
        let change = Err(Change::Counts(piece, level));
        let all = marked(b"abcd");
        assert_eq!(rt; keeps_order(&older.table(), &newer.table(), &all), change);
        assert_eq!(rt; keeps_order(&newer.table(), &older.table(), &all), change);
        let but = marked(b"acd");
        assert_eq!(rt; keeps_order(&older.table(), &newer.table(), &but), Ok(()));
    }
    Ok(())
}

// A run that stands to a letter, to a pair or to another run otherwise.
#[test]
fn order(rt: HostRuntime) -> Result<(), Fail> {
    let older = older(rt.alloc())?;
    let [a, c, d] = [Piece::Letter(97), Piece::Letter(99), Piece::Letter(100)];
    let cd = Piece::Pair(99, 100);
    let [abc, abcd] = [Piece::Three(97, 98, 99), Piece::Four(97, 98, 99, 100)];
    for (three, four, one, other, level) in [
        ([34, 1, 0], [35, 2, 1], cd, abc, Level::Primary),
        ([30, 1, 0], [35, 2, 1], c, abc, Level::Primary),
        ([41, 1, 0], [45, 2, 1], d, abcd, Level::Primary),
        ([31, 2, 0], [35, 2, 1], a, abc, Level::Secondary),
        ([31, 1, 0], [32, 2, 1], cd, abcd, Level::Primary),
        ([31, 1, 0], [35, 1, 1], a, abcd, Level::Secondary),
        ([31, 1, 0], [35, 2, 2], a, abcd, Level::Tertiary),
    ] {
        let newer = runs(rt.alloc(), three, four)?;
        let change = Err(Change::Order(one, other, level));
        let all = marked(b"abcd");
        assert_eq!(rt; keeps_order(&older.table(), &newer.table(), &all), change);
        let but = marked(b"bcd");
        assert_eq!(rt; keeps_order(&older.table(), &newer.table(), &but), Ok(()));
    }
    // Of two runs alone.
    let mut before = TableBuf::new(rt.alloc())?;
    before.add_long(three(ABC, Weights::from([1, 1, 1])))?;
    before.add_long(four(ABCD, Weights::from([2, 1, 1])))?;
    let mut now = TableBuf::new(rt.alloc())?;
    now.add_long(four(ABCD, Weights::from([3, 5, 1])))?;
    now.add_long(three(ABC, Weights::from([2, 6, 1])))?;
    assert_eq!(rt;
        keeps_order(&before.table(), &now.table(), &marked(b"abcd")),
        Err(Change::Order(abcd, abc, Level::Secondary))
    );
    assert_eq!(rt;
        keeps_order(&before.table(), &now.table(), &marked(b"abc")),
        Ok(())
    );
    Ok(())
}

// Of a newer table letters are told before pairs, and these before longer runs, four letters before three; what is one in only the
// newer table before what weighs 0 in only one.
#[test]
fn told_first(rt: HostRuntime) -> Result<(), Fail> {
    let older = letters(rt.alloc())?;
    let all = marked(b"abcd");
    let mut newer = runs(rt.alloc(), [0, 0, 0], [1, 1, 1])?;
    let abcd = Err(Change::Joins(Piece::Four(97, 98, 99, 100)));
    assert_eq!(rt; keeps_order(&older.table(), &newer.table(), &all), abcd);
    newer.add_letter(entry(101, [1, 1, 1]))?;
    let old = marked(b"abcde");
    assert_eq!(rt; keeps_order(&older.table(), &newer.table(), &old), abcd);
    assert_eq!(rt;
        keeps_order(&newer.table(), &older.table(), &old),
        Err(Change::Counts(Piece::Letter(101), Level::Primary))
    );
    newer.add_pair(pair(100, 100, [1, 1, 1]))?;
    let dd = Err(Change::Joins(Piece::Pair(100, 100)));
    assert_eq!(rt; keeps_order(&older.table(), &newer.table(), &all), dd);
    assert_eq!(rt; keeps_order(&newer.table(), &older.table(), &all), dd);
    let abc = Err(Change::Joins(Piece::Three(97, 98, 99)));
    let old = marked(b"abc");
    assert_eq!(rt; keeps_order(&older.table(), &newer.table(), &old), abc);
    Ok(())
}

// Weights on another scale, and runs with a new letter: names in old letters stand as before.
#[test]
fn keeps(rt: HostRuntime) -> Result<(), Fail> {
    let older = older(rt.alloc())?;
    let mut newer = TableBuf::new(rt.alloc())?;
    for (one, primary) in [(97, 100), (98, 200), (99, 300), (100, 400)] {
        newer.add_letter(entry(one, [primary, 7, 3]))?;
    }
    newer.add_letter(entry(101, [150, 0, 4]))?;
    newer.add_pair(pair(99, 100, [330, 7, 3]))?;
    newer.add_pair(pair(97, 101, [1, 1, 1]))?;
    for long in [
        three(ABC, Weights::from([310, 7, 0])),
        four([97, 98, 99, 101], Weights::from([1, 2, 3])),
        four([101, 97, 98, 99], Weights::from([0, 0, 3])),
        three([98, 101, 98], Weights::from([65535, 0, 0])),
        four(ABCD, Weights::from([350, 8, 3])),
    ] {
        newer.add_long(long)?;
    }
    let old = marked(b"abcd");
    assert_eq!(rt; keeps_order(&older.table(), &newer.table(), &old), Ok(()));
    assert_eq!(rt;
        keeps_order(&older.table(), &older.table(), &[true; 256]),
        Ok(())
    );
    assert_eq!(rt;
        keeps_order(&older.table(), &newer.table(), &marked(b"abcde")),
        Err(Change::Joins(Piece::Pair(97, 101)))
    );
    let names: [&[u8]; 16] = [
        b"", b"a", b"ab", b"abc", b"abcd", b"abd", b"abcabcd", b"abcdabc", b"bcd", b"cd", b"cdcd",
        b"dcd", b"aabc", b"abcc", b"dabcd", b"abccd",
    ];
    for one in names {
        for other in names {
            assert_eq!(rt;
                older.table().compare(one, other),
                newer.table().compare(one, other)
            );
        }
    }
    Ok(())
}

// a, 351, 353 and 65535, one behind the other, and two runs of them.
fn large(heap: Global, three: u16, four: u16) -> Result<TableBuf, Fail> {
    let mut letters = Vec::new(heap);
    for (one, primary) in [(65535, 40), (353, 30), (97, 10), (351, 20)] {
        letters.push(entry(one, [primary, 0, 0]))?;
    }
    Ok(TableBuf::of(
        &letters,
        &[
            Run {
                letters: &[97, 351, 353, 65535],
                weights: Weights::from([four, 0, 0]),
            },
            Run {
                letters: &[351, 353, 65535],
                weights: Weights::from([three, 0, 0]),
            },
        ],
        heap,
    )?)
}

// Runs of letters above 255: old where all their letters are marked, and there are as many marks.
#[test]
fn large_letters(rt: HostRuntime) -> Result<(), Fail> {
    let heap = rt.alloc();
    let older = large(heap, 50, 60)?;
    let [abcd, bcd] = [
        Piece::Four(97, 351, 353, 65535),
        Piece::Three(351, 353, 65535),
    ];
    let mut old = vec![in heap; true; 65536]?;
    for (three, four, change) in [
        (0, 60, Change::Counts(bcd, Level::Primary)),
        (50, 0, Change::Counts(abcd, Level::Primary)),
        (60, 50, Change::Order(abcd, bcd, Level::Primary)),
        (50, 50, Change::Order(abcd, bcd, Level::Primary)),
        (
            35,
            60,
            Change::Order(Piece::Letter(65535), bcd, Level::Primary),
        ),
    ] {
        let newer = large(heap, three, four)?;
        assert_eq!(rt;
            keeps_order(&older.table(), &newer.table(), &old),
            Err(change)
        );
        let less = old.get(..65535).unwrap_or(&[]);
        assert_eq!(rt; keeps_order(&older.table(), &newer.table(), less), Ok(()));
    }
    if let Some(mark) = old.get_mut(351) {
        *mark = false;
    }
    let newer = large(heap, 60, 50)?;
    assert_eq!(rt; keeps_order(&older.table(), &newer.table(), &old), Ok(()));
    Ok(())
}
