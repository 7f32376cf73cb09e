// Runs of three and four letters in UTF-8.
use crate::numbers::{Case, hold};
use keys::{KeyError, NameRefusal, SortKeys};
use std::alloc::Global;
use std::test::Fail;
use table::{Letter, Long, LongRun, Run, TableBuf, Weights};

// What weighs so on the first level alone.
fn first(primary: u16) -> Weights {
    Weights::from([primary, 0, 0])
}

// d, s, z; 228 (C3 A4), 252 (C3 BC) and 382 (C5 BE); 8364 (E2 82 AC) and 65535 (EF BF BF).
const LETTERS: [(u32, u16); 8] = [
    (382, 27),
    (100, 4),
    (115, 19),
    (65535, 60),
    (122, 26),
    (252, 21),
    (8364, 50),
    (228, 31),
];

// What these letters and some runs of them weigh; one run is of the letters whose numbers the bytes of 252 have.
fn own(heap: Global) -> Result<TableBuf, Fail> {
    let mut letters = Vec::new(heap);
    for (letter, weight) in LETTERS {
        letters.push(Letter {
            letter,
            weights: first(weight),
        }
        .into())?;
    }
    Ok(TableBuf::of(
        &letters,
        &[
            Run {
                letters: &[100, 382, 252],
                weights: first(200),
            },
            Run {
                letters: &[100, 382],
                weights: first(100),
            },
            Run {
                letters: &[8364, 8364, 8364, 8364],
                weights: first(400),
            },
            Run {
                letters: &[252, 8364, 252],
                weights: first(300),
            },
            Run {
                letters: &[8364, 65535],
                weights: first(450),
            },
            Run {
                letters: &[65535, 252, 100, 8364],
                weights: first(500),
            },
            Run {
                letters: &[228, 115, 115],
                weights: first(600),
            },
            Run {
                letters: &[195, 188, 195],
                weights: first(700),
            },
        ],
        heap,
    )?)
}

// A run is of letters, and not of their bytes.
#[test]
fn runs(rt: HostRuntime) -> Result<(), Fail> {
    let own = own(rt.alloc())?;
    hold(
        &rt,
        rt.alloc(),
        &own.table(),
        &[
            Case(b"d\xc5\xbe", &[100, 0, 0]),
            Case(b"d\xc5\xbe\xc3\xbc", &[200, 0, 0]),
            Case(b"d\xc5\xbed", &[100, 4, 0, 0]),
            Case(b"d\xc5\xbe\xc3\xa4", &[100, 31, 0, 0]),
            Case(b"d\xc5\xbe\xc3\xbcz", &[200, 26, 0, 0]),
            Case(b"dd\xc5\xbe\xc3\xbc", &[4, 200, 0, 0]),
            Case(b"dz\xc3\xbc", &[4, 26, 21, 0, 0]),
            Case(b"\xc3\xbc\xe2\x82\xac\xc3\xbc", &[300, 0, 0]),
            Case(b"\xc3\xbc\xe2\x82\xac", &[21, 50, 0, 0]),
            Case(
                b"\xc3\xbc\xe2\x82\xac\xe2\x82\xac\xe2\x82\xac\xe2\x82\xac\xe2\x82\xac",
                &[21, 400, 50, 0, 0],
            ),
            Case(b"\xe2\x82\xac\xe2\x82\xac\xe2\x82\xac", &[50, 50, 50, 0, 0]),
            Case(
                b"\xe2\x82\xac\xe2\x82\xac\xe2\x82\xac\xe2\x82\xac",
                &[400, 0, 0],
            ),
            Case(b"\xef\xbf\xbf\xc3\xbcd\xe2\x82\xac", &[500, 0, 0]),
            Case(b"\xef\xbf\xbf\xc3\xbcd", &[60, 21, 4, 0, 0]),
            Case(
                b"\xe2\x82\xac\xef\xbf\xbf\xc3\xbcd\xe2\x82\xac",
                &[450, 21, 4, 50, 0, 0],
            ),
            Case(b"\xc3\xa4ss", &[600, 0, 0]),
            Case(b"\xc3\xa4sz", &[31, 19, 26, 0, 0]),
            Case(b"\xc3\xa4s", &[31, 19, 0, 0]),
            Case(b"\xc3\x83\xc2\xbc\xc3\x83", &[700, 0, 0]),
            Case(b"\xc3\xbc\xc3\xbc", &[21, 21, 0, 0]),
            // 356, which is 256 more than d.
            Case(b"\xc5\xa4\xc5\xbe\xc3\xbc", &[27, 21, 0, 0]),
        ],
    )?;
    Ok(())
}

// A name, the first byte at which no letter can be read, and the key of the letters that can.
#[derive(Clone, Copy)]
struct Damaged(&'static [u8], usize, &'static [u32]);

// Such a byte is of no run, also where a run has a letter of its number.
#[test]
fn damaged_runs(rt: HostRuntime) -> Result<(), Fail> {
    let own = own(rt.alloc())?;
    let table = own.table();
    for case in [
        Damaged(b"d\xff\xc5\xbe\xc3\xbc", 1, &[4, 27, 21, 0, 0]),
        Damaged(b"d\xc5\xbe\xff\xc3\xbc", 3, &[100, 21, 0, 0]),
        Damaged(b"d\xc5\xbe\xc3", 3, &[100, 0, 0]),
        Damaged(b"d\xc5\xbe\xbc", 3, &[100, 0, 0]),
        Damaged(b"d\xc5", 1, &[4, 0, 0]),
        Damaged(b"\xffd\xc5\xbe\xc3\xbc", 0, &[200, 0, 0]),
        Damaged(b"d\xc5\xbe\xc3\xbc\xff", 5, &[200, 0, 0]),
        Damaged(
            b"\xe2\x82\xac\xe2\x82\xac\xe2\x82\xac\xe2\x82",
            9,
            &[50, 50, 50, 0, 0],
        ),
        Damaged(
            b"\xe2\x82\xac\xe2\x82\xe2\x82\xac\xe2\x82\xac\xe2\x82\xac",
            3,
            &[50, 50, 50, 50, 0, 0],
        ),
        Damaged(b"\xe4ss", 0, &[19, 19, 0, 0]),
        Damaged(b"\xc3\xa4\xe4ss", 2, &[31, 19, 19, 0, 0]),
        Damaged(b"\xc3\xa4s\xff", 3, &[31, 19, 0, 0]),
        Damaged(b"\xc3\xbc\xc3", 2, &[21, 0, 0]),
    ] {
        let why = NameRefusal::NotUtf8(case.1);
        assert_eq!(rt; NameRefusal::of(true, case.0), Some(why));
        assert_eq!(rt;
            table.sort_key(rt.alloc(), case.0).err(),
            Some(KeyError::Refused(why))
        );
        assert_eq!(rt; table.key_len(case.0), case.2.len());
        let mut room = [7u32; 16];
        assert_eq!(rt; table.write_key(case.0, &mut room), Ok(case.2.len()));
        for (number, there) in room.iter().zip(case.2.iter().chain(&[7; 16])) {
            assert_eq!(rt; *number, *there);
        }
    }
    Ok(())
}

// Steps over runs that do not count use up no stack.
#[test]
fn any_bytes(rt: HostRuntime) -> Result<(), Fail> {
    let heap = rt.alloc();
    let mut own = TableBuf::in_utf8(heap)?;
    own.add_letter(Letter {
        letter: 127,
        weights: Weights::from([7, 8, 9]),
    }
    .into())?;
    for fourth in [None, Some(8364)] {
        own.add_long(Long {
            run: LongRun {
                first: 8364,
                second: 8364,
                third: 8364,
                fourth,
            },
            weights: first(0),
        })?;
    }
    let mut name = Vec::with_capacity(heap, 9000001)?;
    for _ in 0..3000000 {
        name.extend_from_slice(b"\xe2\x82\xac")?;
    }
    name.push(127)?;
    let mut room = [3u32; 6];
    assert_eq!(rt; own.table().write_key(&name, &mut room), Ok(5));
    assert!(rt; room == [7, 0, 8, 0, 9, 3]);
    Ok(())
}
