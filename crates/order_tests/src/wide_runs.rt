// Names in UTF-8 compared where up to four letters may be one.
use crate::compare::in_order;
use crate::entries::entry;
use keys::SortKeys;
use order::{Asked, Collate, Standing};
use std::alloc::Global;
use std::test::Fail;
use table::{Run, TableBuf, Weights};

// a, and on the first level alone 351 (C5 9F), 353 (C5 A1), 8364 (E2 82 AC) and 8365 (E2 82 AD), which have their first bytes in
// common. Three letters 353 are one, and a, 353, 8364 and 8365.
fn own(heap: Global) -> Result<TableBuf, Fail> {
    let mut letters = Vec::new(heap);
    for (letter, weights) in [
        (97, [10, 1, 1]),
        (351, [30, 0, 0]),
        (353, [40, 0, 0]),
        (8364, [60, 0, 0]),
        (8365, [70, 0, 0]),
    ] {
        letters.push(entry(letter, weights))?;
    }
    Ok(TableBuf::of(
        &letters,
        &[
            Run {
                letters: &[353, 353, 353],
                weights: Weights::from([90, 0, 0]),
            },
            Run {
                letters: &[97, 353, 8364, 8365],
                weights: Weights::from([95, 0, 0]),
            },
        ],
        heap,
    )?)
}

// Names that go on differently within a letter that a run may end with.
#[test]
fn letters(rt: HostRuntime) -> Result<(), Fail> {
    let own = own(rt.alloc())?;
    in_order(
        &rt,
        rt.alloc(),
        &own.table(),
        &[
            b"",
            b"a",
            b"a\xc5\x9f",
            b"a\xc5\xa1",
            b"a\xc5\xa1\xc5\x9f",
            b"a\xc5\xa1\xc5\xa1",
            b"a\xc5\xa1\xe2\x82\xac",
            b"a\xc5\xa1\xe2\x82\xaca",
            b"a\xc5\xa1\xe2\x82\xac\xe2\x82\xac",
            b"a\xc5\xa1\xc5\xa1\xc5\xa1",
            b"a\xc5\xa1\xc5\xa1\xc5\xa1\xc5\xa1",
            b"\xc5\x9f",
            b"\xc5\xa1",
            b"\xc5\xa1\xc5\xa1",
            b"\xc5\xa1\xc5\xa1\xe2\x82\xac",
            b"\xe2\x82\xac",
            b"\xe2\x82\xac\xe2\x82\xad",
            b"\xc5\xa1\xc5\xa1\xc5\xa1",
            b"a\xc5\xa1\xe2\x82\xac\xe2\x82\xad",
            b"a\xc5\xa1\xe2\x82\xac\xe2\x82\xada",
        ],
    )
}

// A byte at which no letter can be read is of no run, wherever the other name goes on behind what both begin with.
#[test]
fn damaged(rt: HostRuntime) -> Result<(), Fail> {
    let own = own(rt.alloc())?;
    let table = own.table();
    let names: [&[u8]; 18] = [
        b"a",
        b"a\xc5",
        b"a\xc5\xa1",
        b"a\xc5\xa1\xe2",
        b"a\xc5\xa1\xe2\x82",
        b"a\xc5\xa1\xe2\x82\xac",
        b"a\xc5\xa1\xe2\x82\xac\xe2",
        b"a\xc5\xa1\xe2\x82\xac\xe2\x82",
        b"a\xc5\xa1\xe2\x82\xac\xe2\x82\xad",
        b"a\xc5\xa1\xff\xe2\x82\xac\xe2\x82\xad",
        b"a\xc5\xa1\xe2\x82\xac\xac\xe2\x82\xad",
        b"a\xa1\xe2\x82\xac\xe2\x82\xad",
        b"\xc5\xa1\xc5\xa1\xc5\xa1",
        b"\xc5\xa1\xc5\xa1\xc5",
        b"\xc5\xa1\xc5\xc5\xa1\xc5\xa1",
        b"\xa1\xc5\xa1\xc5\xa1\xc5\xa1",
        b"\xc5\xa1\xc5\xa1\xa1",
        b"\xc5\xa1\xc5\xa1\x9f\xc5\xa1",
    ];
    for one in names {
        for two in names {
            let mut rooms = ([0u32; 16], [0u32; 16]);
            let first = table.write_key(one, &mut rooms.0).unwrap_or(0).min(16);
            let second = table.write_key(two, &mut rooms.1).unwrap_or(0).min(16);
            assert!(rt; first >= 3 && second >= 3);
            assert_eq!(rt;
                table.compare(one, two),
                rooms.0[..first].cmp(&rooms.1[..second])
            );
        }
    }
    Ok(())
}

// What is asked, a name, and where it stands to it.
#[derive(Clone, Copy)]
struct Case(&'static [u8], &'static [u8], Standing);

#[test]
fn standings(rt: HostRuntime) -> Result<(), Fail> {
    let own = own(rt.alloc())?;
    let table = own.table();
    for case in [
        Case(b"\xc5\xa1", b"\xc5\xa1\xc5\xa1", Standing::Begins),
        Case(b"\xc5\xa1", b"\xc5\xa1\xc5\xa1\xc5\xa1", Standing::After),
        Case(
            b"\xc5\xa1\xc5\xa1\xc5\xa1",
            b"\xc5\xa1\xc5\xa1\xc5\xa1\xc5\xa1",
            Standing::Begins,
        ),
        Case(
            b"\xc5\xa1\xc5\xa1\xc5\xa1",
            b"\xc5\xa1\xc5\xa1",
            Standing::Before,
        ),
        Case(b"a\xc5\xa1", b"a\xc5\xa1\xe2\x82\xac", Standing::Begins),
        Case(
            b"a\xc5\xa1",
            b"a\xc5\xa1\xe2\x82\xac\xe2\x82\xad",
            Standing::After,
        ),
        Case(
            b"a\xc5\xa1\xe2\x82\xac\xe2\x82",
            b"a\xc5\xa1\xe2\x82\xac",
            Standing::Begins,
        ),
        Case(
            b"a\xc5\xa1\xe2\x82\xac\xe2\x82",
            b"a\xc5\xa1\xe2\x82\xac\xe2\x82\xad",
            Standing::After,
        ),
    ] {
        assert_eq!(rt; table.standing(case.1, case.0), case.2);
        assert_eq!(rt; Asked::new(&table, case.0).standing(case.1), case.2);
    }
    Ok(())
}
