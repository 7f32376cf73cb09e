// Letters that weigh as two or three.
use crate::numbers::{Case, hold};
use keys::{KeyError, Level, NameRefusal, Row, SortKeys};
use std::alloc::Global;
use std::test::Fail;
use table::{AddError, Expanded, Expansion, Letter, LetterEntry, TableBuf, Weights};

// A letter that weighs as these.
pub(crate) fn expansion(
    letter: u32,
    first: [u16; 3],
    second: [u16; 3],
    third: Option<[u16; 3]>,
) -> LetterEntry {
    LetterEntry::from(Expansion {
        letter,
        weights: Expanded {
            first: Weights::from(first),
            second: Weights::from(second),
            third: third.map(Weights::from),
        },
    })
}

// a to z weigh ten times their place in the alphabet.
fn add_alphabet(table: &mut TableBuf) -> Result<(), AddError> {
    for k in 0..26u16 {
        table.add_letter(LetterEntry::from(Letter {
            letter: 97 + u32::from(k),
            weights: Weights::from([10 * k + 10, 1, 1]),
        }))?;
    }
    Ok(())
}

// The alphabet, and 223 (C3 9F) as ss, 230 (C3 A6) as ae, 339 (C5 93) as oe and 64259 (EF AC 83) as ffi; 228 (C3 A4) weighs as ae
// too, but on the second level.
fn own(heap: Global) -> Result<TableBuf, AddError> {
    let mut own = TableBuf::in_utf8(heap)?;
    for entry in [
        expansion(64259, [60, 1, 1], [60, 1, 1], Some([90, 1, 1])),
        expansion(223, [190, 1, 1], [190, 1, 1], None),
        expansion(230, [10, 1, 1], [50, 1, 1], None),
        expansion(339, [150, 1, 1], [50, 1, 1], None),
        expansion(228, [10, 1, 1], [50, 2, 1], None),
    ] {
        own.add_letter(entry)?;
    }
    add_alphabet(&mut own)?;
    Ok(own)
}

#[test]
fn ligatures(rt: HostRuntime) -> Result<(), Fail> {
    let own = own(rt.alloc())?;
    hold(
        &rt,
        rt.alloc(),
        &own.table(),
        &[
            Case(b"\xc3\x9f", &[190, 190, 0, 1, 1, 0, 1, 1]),
            Case(b"\xc3\xa6", &[10, 50, 0, 1, 1, 0, 1, 1]),
            Case(b"\xc5\x93", &[150, 50, 0, 1, 1, 0, 1, 1]),
            Case(b"\xef\xac\x83", &[60, 60, 90, 0, 1, 1, 1, 0, 1, 1, 1]),
            Case(b"\xc3\xa4", &[10, 50, 0, 1, 2, 0, 1, 1]),
            Case(
                b"ma\xc3\x9f",
                &[130, 10, 190, 190, 0, 1, 1, 1, 1, 0, 1, 1, 1, 1],
            ),
            Case(
                b"\xc3\x9fe\xc3\xa6",
                &[190, 190, 50, 10, 50, 0, 1, 1, 1, 1, 1, 0, 1, 1, 1, 1, 1],
            ),
            Case(
                b"o\xef\xac\x83ce",
                &[
                    150, 60, 60, 90, 30, 50, 0, 1, 1, 1, 1, 1, 1, 0, 1, 1, 1, 1, 1, 1,
                ],
            ),
            Case(
                b"\xc5\x93\xef\xac\x83\xc3\x9f",
                &[
                    150, 50, 60, 60, 90, 190, 190, 0, 1, 1, 1, 1, 1, 1, 1, 0, 1, 1, 1, 1, 1, 1, 1,
                ],
            ),
            // Letters beside them weigh nothing.
            Case(b"\xc3\x9e\xc3\xa7\xef\xac\x82\xef\xac\x84", &[0, 0]),
        ],
    )?;
    Ok(())
}

// A name, and the same with the letters written out: both have one key, and one first row where another level differs.
#[test]
fn written_out(rt: HostRuntime) -> Result<(), Fail> {
    let own = own(rt.alloc())?;
    let table = own.table();
    let cases: [(&[u8], &[u8], bool); 8] = [
        (b"\xc3\x9f", b"ss", true),
        (b"stra\xc3\x9fe", b"strasse", true),
        (b"\xc3\xa6on", b"aeon", true),
        (b"\xc5\x93uvre", b"oeuvre", true),
        (b"\xc5\x93\xef\xac\x83\xc3\x9f", b"oeffiss", true),
        (b"\xc3\xa4", b"ae", false),
        (b"\xc3\xa4", b"\xc3\xa6", false),
        (b"k\xc3\xa4se\xc3\x9f", b"kaesess", false),
    ];
    for (name, written, same) in cases {
        let row = Row::new(&table, Level::Primary, name);
        assert!(rt; row.eq(Row::new(&table, Level::Primary, written)));
        let key = table.sort_key(rt.alloc(), name)?;
        let other = table.sort_key(rt.alloc(), written)?;
        assert_eq!(rt; key.as_slice() == other.as_slice(), same);
        assert_eq!(rt; key.len(), other.len());
    }
    Ok(())
}

// Letters of one byte and of three in whose triples zeros stand: each is left out of its row, and a triple of zeros of all rows.
fn add_zeros(table: &mut TableBuf, wide: u32) -> Result<(), AddError> {
    for entry in [
        expansion(38, [190, 0, 2], [0, 3, 0], Some([7, 0, 0])),
        expansion(33, [0, 0, 0], [5, 6, 7], None),
        expansion(34, [0, 0, 0], [0, 0, 0], Some([0, 0, 65535])),
        expansion(35, [0, 0, 9], [0, 8, 0], None),
        expansion(36, [1, 2, 3], [0, 0, 0], Some([4, 5, 6])),
        expansion(37, [1, 2, 3], [0, 0, 0], None),
        expansion(127, [65535, 0, 0], [65534, 0, 0], Some([0, 0, 0])),
        expansion(wide, [0, 1, 0], [0, 0, 0], Some([0, 2, 4])),
    ] {
        table.add_letter(entry)?;
    }
    add_alphabet(table)
}

#[test]
fn zeros(rt: HostRuntime) -> Result<(), Fail> {
    let heap = rt.alloc();
    let cases = [
        Case(b"&", &[190, 7, 0, 3, 0, 2]),
        Case(b"!", &[5, 0, 6, 0, 7]),
        Case(b"\"", &[0, 0, 65535]),
        Case(b"#", &[0, 8, 0, 9]),
        Case(b"$", &[1, 4, 0, 2, 5, 0, 3, 6]),
        Case(b"%", &[1, 0, 2, 0, 3]),
        Case(b"\x7f", &[65535, 65534, 0, 0]),
        Case(b"&&", &[190, 7, 190, 7, 0, 3, 3, 0, 2, 2]),
        Case(b"a&b", &[10, 190, 7, 20, 0, 1, 3, 1, 0, 1, 2, 1]),
        Case(b"!a!", &[5, 10, 5, 0, 6, 1, 6, 0, 7, 1, 7]),
        Case(b"#\"a", &[10, 0, 8, 1, 0, 9, 65535, 1]),
        Case(b"\"\"\"%", &[1, 0, 2, 0, 65535, 65535, 65535, 3]),
        Case(b"$\x01&", &[1, 4, 190, 7, 0, 2, 5, 3, 0, 3, 6, 2]),
    ];
    let mut bytes = TableBuf::new(heap)?;
    add_zeros(&mut bytes, 223)?;
    hold(&rt, heap, &bytes.table(), &cases)?;
    hold(&rt, heap, &bytes.table().in_utf8(), &cases)?;
    let mut utf8 = TableBuf::in_utf8(heap)?;
    add_zeros(&mut utf8, 8364)?;
    hold(&rt, heap, &utf8.table(), &cases)?;
    // The last of these letters by its byte, and by its three.
    hold(
        &rt,
        heap,
        &bytes.table(),
        &[
            Case(b"\xdf", &[0, 1, 2, 0, 4]),
            Case(b"a\xdf&", &[10, 190, 7, 0, 1, 1, 2, 3, 0, 1, 4, 2]),
            Case(b"\xc3\x9f", &[0, 0]),
        ],
    )?;
    hold(
        &rt,
        heap,
        &utf8.table(),
        &[
            Case(b"\xe2\x82\xac", &[0, 1, 2, 0, 4]),
            Case(b"a\xe2\x82\xac&", &[10, 190, 7, 0, 1, 1, 2, 3, 0, 1, 4, 2]),
            Case(b"\xe2\x82\xad", &[0, 0]),
        ],
    )?;
    Ok(())
}

// What an expanding letter still weighs is not lost at a byte at which no letter can be read.
#[test]
fn damaged(rt: HostRuntime) -> Result<(), Fail> {
    let own = own(rt.alloc())?;
    let table = own.table();
    let cases: [(&[u8], usize); 4] = [
        (b"\xef\xac\x83\xff", 3),
        (b"\xef\xac\x83\xc3", 3),
        (b"\xff\xef\xac\x83", 0),
        (b"\x9f\xef\xac\x83\xef\xac", 0),
    ];
    for (name, place) in cases {
        assert_eq!(rt;
            table.sort_key(rt.alloc(), name).err(),
            Some(KeyError::Refused(NameRefusal::NotUtf8(place)))
        );
        let mut room = [7u32; 12];
        assert_eq!(rt; table.write_key(name, &mut room), Ok(11));
        assert!(rt; room == [60, 60, 90, 0, 1, 1, 1, 0, 1, 1, 1, 7]);
    }
    Ok(())
}
