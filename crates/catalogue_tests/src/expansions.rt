// Letters that weigh as two or three: names that have them, and names in which they are written out.
use crate::book::{Book, fill};
use crate::find::{Case, all_found};
use catalogue::{Catalogue, Names};
use std::alloc::Global;
use std::process::Abort;
use std::test::Fail;
use table::{Expanded, Expansion, LetterEntry, Long, LongRun, Pair, TableBuf, Weights};

// What weighs so, but for the third level, which tells it from the same letters written out.
pub(crate) fn parts(letter: u32, first: u16, second: u16) -> LetterEntry {
    LetterEntry::from(Expansion {
        letter,
        weights: Expanded {
            first: Weights::from([first, 1, 1]),
            second: Weights::from([second, 1, 2]),
            third: None,
        },
    })
}

// a, c, e, h, r, s and t; 223 (C3 9F) weighs as s twice, and 230 (C3 A6) as a and e.
pub(crate) fn own(heap: Global) -> Result<TableBuf, Fail> {
    let mut own = TableBuf::in_utf8(heap)?;
    fill(
        &mut own,
        &[
            (97, [1, 1, 1]),
            (99, [2, 1, 1]),
            (101, [3, 1, 1]),
            (104, [4, 1, 1]),
            (114, [5, 1, 1]),
            (115, [6, 1, 1]),
            (116, [7, 1, 1]),
        ],
    )?;
    own.add_letter(parts(223, 6, 6))?;
    own.add_letter(parts(230, 1, 3))?;
    Ok(own)
}

// The same, and two letters that are one together, behind all others.
fn joined(heap: Global, first: u32, second: u32) -> Result<TableBuf, Fail> {
    let mut own = own(heap)?;
    own.add_pair(Pair {
        first,
        second,
        weights: Weights::from([9, 1, 1]),
    })?;
    Ok(own)
}

// Names are in this order, and of them each question finds what is said.
fn hold(
    rt: &impl Abort,
    heap: Global,
    own: &TableBuf,
    names: &[&[u8]],
    cases: &[Case],
) -> Result<(), Fail> {
    let table = own.table();
    let book = Book::new(heap, names)?;
    let checked = Names::check(&table, &book.text, &book.starts)?;
    let places = checked.in_order(&table, heap)?;
    assert_eq!(rt; places.len(), names.len());
    for (place, number) in places.iter().enumerate() {
        assert_eq!(rt; *number as usize, place);
    }
    let catalogue = Catalogue::check(&table, &book.text, &book.starts, &places)?;
    all_found(rt, heap, &table, &catalogue, cases)
}

// Both ways to write a name are found by what either begins with, and by nothing else.
#[test]
fn written_out(rt: HostRuntime) -> Result<(), Fail> {
    let heap = rt.alloc();
    hold(
        &rt,
        heap,
        &own(heap)?,
        &[
            b"stra",
            b"stras",
            b"strasse",
            b"stra\xc3\x9fe",
            b"strasst",
            b"strat",
        ],
        &[
            Case(b"", 0, 6),
            Case(b"stra", 0, 6),
            Case(b"stras", 1, 5),
            Case(b"strass", 2, 5),
            Case(b"stra\xc3\x9f", 2, 5),
            Case(b"strasse", 2, 4),
            Case(b"stra\xc3\x9fe", 2, 4),
            Case(b"stra\xc3\x9ft", 4, 5),
            Case(b"strasst", 4, 5),
            Case(b"strase", 2, 2),
            Case(b"strasa", 2, 2),
            Case(b"stra\xc3\x9fs", 4, 4),
            Case(b"strasses", 4, 4),
            Case(b"stra\xc3\x9fes", 4, 4),
            Case(b"strae", 1, 1),
            Case(b"strat", 5, 6),
            Case(b"strr", 6, 6),
            Case(b"ss", 0, 0),
            Case(b"\xc3\x9f", 0, 0),
        ],
    )
}

// The letter at the front, at the end, twice, and beside another.
#[test]
fn several_letters(rt: HostRuntime) -> Result<(), Fail> {
    let heap = rt.alloc();
    hold(
        &rt,
        heap,
        &own(heap)?,
        &[
            b"aess",
            b"ae\xc3\x9f",
            b"\xc3\xa6ss",
            b"\xc3\xa6\xc3\x9f",
            b"ess",
            b"e\xc3\x9f",
            b"ssss",
            b"ss\xc3\x9f",
            b"s\xc3\x9fs",
            b"\xc3\x9fss",
            b"\xc3\x9f\xc3\x9f",
        ],
        &[
            Case(b"a", 0, 4),
            Case(b"\xc3\xa6", 0, 4),
            Case(b"aes", 0, 4),
            Case(b"\xc3\xa6\xc3\x9f", 0, 4),
            Case(b"ae\xc3\x9fs", 4, 4),
            Case(b"e\xc3\x9f", 4, 6),
            Case(b"s", 6, 11),
            Case(b"\xc3\x9f", 6, 11),
            Case(b"sss", 6, 11),
            Case(b"\xc3\x9fs", 6, 11),
            Case(b"s\xc3\x9fs", 6, 11),
            Case(b"\xc3\x9f\xc3\x9fs", 11, 11),
        ],
    )
}

// A run in the way: of the last of what is written out and the letter behind it, of the letter itself and that, or of the letter in
// front and the first. The two ways part.
#[test]
fn run_in_the_way(rt: HostRuntime) -> Result<(), Fail> {
    let heap = rt.alloc();
    hold(
        &rt,
        heap,
        &joined(heap, 101, 104)?,
        &[b"\xc3\xa6h", b"aeh"],
        &[
            Case(b"a", 0, 2),
            Case(b"ae", 0, 1),
            Case(b"\xc3\xa6", 0, 1),
            Case(b"\xc3\xa6h", 0, 1),
            Case(b"aeh", 1, 2),
        ],
    )?;
    hold(
        &rt,
        heap,
        &joined(heap, 230, 104)?,
        &[b"aeh", b"\xc3\xa6h"],
        &[
            Case(b"a", 0, 1),
            Case(b"ae", 0, 1),
            Case(b"\xc3\xa6", 0, 1),
            Case(b"aeh", 0, 1),
            Case(b"\xc3\xa6h", 1, 2),
        ],
    )?;
    hold(
        &rt,
        heap,
        &joined(heap, 99, 97)?,
        &[b"c\xc3\xa6", b"cae"],
        &[
            Case(b"c", 0, 1),
            Case(b"c\xc3\xa6", 0, 1),
            Case(b"ca", 1, 2),
            Case(b"cae", 1, 2),
        ],
    )?;
    // What is written out is a run itself, or three letters around it are.
    hold(
        &rt,
        heap,
        &joined(heap, 97, 101)?,
        &[b"\xc3\xa6", b"ae"],
        &[Case(b"a", 0, 1), Case(b"\xc3\xa6", 0, 1), Case(b"ae", 1, 2)],
    )?;
    let mut around = own(heap)?;
    around.add_long(Long {
        run: LongRun {
            first: 99,
            second: 97,
            third: 101,
            fourth: Some(104),
        },
        weights: Weights::from([9, 1, 1]),
    })?;
    hold(
        &rt,
        heap,
        &around,
        &[b"cae", b"c\xc3\xa6", b"c\xc3\xa6h", b"caeh"],
        &[
            Case(b"c", 0, 3),
            Case(b"cae", 0, 3),
            Case(b"c\xc3\xa6h", 2, 3),
            Case(b"caeh", 3, 4),
        ],
    )
}

// A run elsewhere, also one that ends right in front or begins right behind, is not in the way.
#[test]
fn run_elsewhere(rt: HostRuntime) -> Result<(), Fail> {
    let heap = rt.alloc();
    hold(
        &rt,
        heap,
        &joined(heap, 99, 104)?,
        &[
            b"aech",
            b"\xc3\xa6ch",
            b"ach",
            b"cha",
            b"chae",
            b"ch\xc3\xa6",
            b"chaech",
            b"ch\xc3\xa6ch",
        ],
        &[
            Case(b"ach", 2, 3),
            Case(b"ae", 0, 2),
            Case(b"\xc3\xa6", 0, 2),
            Case(b"aech", 0, 2),
            Case(b"\xc3\xa6ch", 0, 2),
            Case(b"\xc3\xa6c", 0, 0),
            Case(b"c", 3, 3),
            Case(b"ch", 3, 8),
            Case(b"chae", 4, 8),
            Case(b"ch\xc3\xa6", 4, 8),
            Case(b"chaech", 6, 8),
            Case(b"ch\xc3\xa6ch", 6, 8),
        ],
    )?;
    // The table has a run that would be in the way elsewhere.
    hold(
        &rt,
        heap,
        &joined(heap, 101, 104)?,
        &[
            b"ae",
            b"\xc3\xa6",
            b"aeeh",
            b"\xc3\xa6eh",
            b"ehae",
            b"eh\xc3\xa6",
        ],
        &[
            Case(b"ae", 0, 4),
            Case(b"\xc3\xa6", 0, 4),
            Case(b"aeeh", 2, 4),
            Case(b"\xc3\xa6eh", 2, 4),
            Case(b"\xc3\xa6e", 2, 2),
            Case(b"ehae", 4, 6),
            Case(b"eh\xc3\xa6", 4, 6),
        ],
    )
}
