// Names in UTF-8 compared.
use crate::compare::in_order;
use crate::entries::entry;
use keys::SortKeys;
use order::{Asked, Collate, Standing};
use std::alloc::Global;
use std::cmp::Ordering;
use std::test::Fail;
use table::{Pair, Table, TableBuf, Weights};

// a, u, z; 252 (C3 BC), which weighs as u but on the second level; 351 (C5 9F) and 353 (C5 A1) between u and z; 8364 and 8365
// (E2 82 AC and AD) behind z. Two letters 353 are one together, and 8365 with a.
fn own(heap: Global) -> Result<TableBuf, Fail> {
    let mut own = TableBuf::in_utf8(heap)?;
    for (letter, weights) in [
        (97, [10, 1, 1]),
        (117, [20, 1, 1]),
        (252, [20, 2, 1]),
        (353, [40, 1, 1]),
        (351, [30, 1, 1]),
        (122, [50, 1, 1]),
        (8364, [60, 1, 1]),
        (8365, [70, 1, 1]),
    ] {
        own.add_letter(entry(letter, weights))?;
    }
    for (first, second, weights) in [(353, 353, [45, 1, 1]), (8365, 97, [5, 1, 1])] {
        own.add_pair(Pair {
            first,
            second,
            weights: Weights::from(weights),
        })?;
    }
    Ok(own)
}

// Letters that have their first bytes in common, and those that are one with the next.
#[test]
fn letters(rt: HostRuntime) -> Result<(), Fail> {
    let own = own(rt.alloc())?;
    in_order(
        &rt,
        rt.alloc(),
        &own.table(),
        &[
            b"",
            b"\xe2\x82\xada",
            b"\xe2\x82\xadaz",
            b"a",
            b"a\xe2\x82\xada",
            b"au",
            b"a\xc3\xbc",
            b"auz",
            b"a\xc3\xbcz",
            b"a\xc5\x9f",
            b"a\xc5\x9f\xc5\xa1",
            b"a\xc5\xa1",
            b"a\xc5\xa1\xc5\x9f",
            b"a\xc5\xa1z",
            b"a\xc5\xa1\xc5\xa1",
            b"a\xc5\xa1\xc5\xa1\xc5\x9f",
            b"a\xc5\xa1\xc5\xa1\xc5\xa1",
            b"az",
            b"a\xe2\x82\xac",
            b"a\xe2\x82\xac\xe2\x82\xac",
            b"a\xe2\x82\xac\xe2\x82\xad",
            b"a\xe2\x82\xad",
            b"u",
            b"\xc3\xbc",
            b"u\xe2\x82\xac",
            b"u\xe2\x82\xad",
            b"\xc5\x9f",
            b"\xc5\xa1",
            b"\xe2\x82\xac",
            b"\xe2\x82\xad",
        ],
    )
}

// A byte at which no letter can be read weighs nothing, wherever the other name goes on behind what both begin with.
#[test]
fn damaged(rt: HostRuntime) -> Result<(), Fail> {
    let own = own(rt.alloc())?;
    let table = own.table();
    let names: [&[u8]; 16] = [
        b"a",
        b"a\xc5",
        b"a\xc5\xa1",
        b"a\xc5\x9f",
        b"a\xc5\xc5\xa1",
        b"a\xc5\xa1\xc5",
        b"a\xc5\xa1\xa1\xc5\xa1",
        b"a\xc5\xa1\xc5\xa1",
        b"a\xe2\x82",
        b"a\xe2\x82\xad",
        b"a\xe2\x82\xada",
        b"a\xe2\x82a",
        b"a\xe2\xad",
        b"a\xed\xa0\x80",
        b"a\xff",
        b"\xbc\xc3\xbc",
    ];
    for one in names {
        for two in names {
            let mut rooms = ([0u32; 32], [0u32; 32]);
            let first = table.write_key(one, &mut rooms.0).unwrap_or(0).min(32);
            let second = table.write_key(two, &mut rooms.1).unwrap_or(0).min(32);
            assert!(rt; first >= 5 && second >= 5);
            assert_eq!(rt;
                table.compare(one, two),
                rooms.0[..first].cmp(&rooms.1[..second])
            );
        }
    }
    for other in [
        b"a\xc5".as_slice(),
        b"a\xe2\x82",
        b"a\xed\xa0\x80",
        b"a\xff",
    ] {
        assert_eq!(rt; table.compare(b"a", other), Ordering::Equal);
        assert_eq!(rt; table.compare(other, b"a"), Ordering::Equal);
    }
    assert_eq!(rt;
        table.compare(b"a\xc5\xa1", b"a\xc5\xc5\xa1"),
        Ordering::Equal
    );
    assert_eq!(rt; table.compare(b"a\xc5", b"a\xc5\x9f"), Ordering::Less);
    assert_eq!(rt;
        table.compare(b"a\xc5\xa1\xc5\xa1", b"a\xc5\xa1\xa1\xc5\xa1"),
        Ordering::Greater
    );
    Ok(())
}

// Names in letters below 128 stand to each other either way alike.
#[test]
fn as_in_bytes(rt: HostRuntime) -> Result<(), Fail> {
    let names: [&[u8]; 10] = [
        b"", b"\x00", b"'", b"a", b"a'", b"cab", b"Cab", b"cz", b"chad", b"da",
    ];
    in_order(&rt, rt.alloc(), &Table::valley(), &names[3..])?;
    in_order(&rt, rt.alloc(), &Table::valley().in_utf8(), &names)?;
    let [bytes, utf8] = [Table::valley(), Table::valley().in_utf8()];
    for one in names {
        for two in names {
            assert_eq!(rt; bytes.compare(one, two), utf8.compare(one, two));
            assert_eq!(rt; bytes.standing(one, two), utf8.standing(one, two));
        }
    }
    Ok(())
}

// What is asked, a name, and where it stands to it.
#[derive(Clone, Copy)]
struct Case(&'static [u8], &'static [u8], Standing);

// Questions begin with letters, and not with their bytes.
#[test]
fn standings(rt: HostRuntime) -> Result<(), Fail> {
    let own = own(rt.alloc())?;
    let table = own.table();
    let long =
        b"\xe2\x82\xac\xe2\x82\xac\xe2\x82\xac\xe2\x82\xac\xe2\x82\xac\xe2\x82\xac\xe2\x82\xac\xe2\x82\xac\xe2\x82\xac\xe2\x82\xac\xe2\x82\xac";
    for case in [
        Case(b"\xc3\xbc", b"uz", Standing::Begins),
        Case(b"u", b"\xc3\xbcz", Standing::Begins),
        Case(b"\xc5\x9f", b"\xc5\xa1", Standing::After),
        Case(b"\xc5\xa1", b"\xc5\x9f", Standing::Before),
        Case(b"\xc5\xa1", b"\xc5\xa1\xc5\x9f", Standing::Begins),
        Case(b"\xc5\xa1", b"\xc5\xa1\xc5\xa1", Standing::After),
        Case(
            b"\xc5\xa1\xc5\xa1",
            b"\xc5\xa1\xc5\xa1\xc5\xa1",
            Standing::Begins,
        ),
        Case(b"\xe2\x82\xad", b"\xe2\x82\xada", Standing::Before),
        Case(
            b"\xe2\x82\xad",
            b"\xe2\x82\xad\xe2\x82\xada",
            Standing::Begins,
        ),
        Case(b"\xc4\x80", b"\xc5\xa1", Standing::Begins),
        Case(b"\xc5", b"\xc5\xa1", Standing::Begins),
        Case(b"\xc5\xa1", b"\xc5", Standing::Before),
        Case(long, long, Standing::Begins),
        Case(long, &long[..30], Standing::Before),
        Case(&long[..30], long, Standing::Begins),
    ] {
        assert_eq!(rt; table.standing(case.1, case.0), case.2);
        assert_eq!(rt; Asked::new(&table, case.0).standing(case.1), case.2);
    }
    Ok(())
}
