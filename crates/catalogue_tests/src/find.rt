// What is found in a list.
use crate::book::{Book, fill, filtered};
use catalogue::{Catalogue, Names};
use std::alloc::Global;
use std::process::Abort;
use std::test::Fail;
use table::{Pair, Table, TableBuf, Weights};

// What is asked, and the places from which on and before which it is found.
#[derive(Clone, Copy)]
pub(crate) struct Case(pub(crate) &'static [u8], pub(crate) usize, pub(crate) usize);

// Of a list each part is found, counted and cut as said, and is what looking at each name gives.
pub(crate) fn all_found(
    rt: &impl Abort,
    heap: Global,
    table: &Table,
    catalogue: &Catalogue,
    cases: &[Case],
) -> Result<(), Fail> {
    let places = catalogue.places();
    for case in cases {
        let part = catalogue.find(case.0);
        assert_eq!(rt; places.get(case.1..case.2), Some(part));
        assert_eq!(rt; catalogue.range(case.0), case.1..case.2);
        assert_eq!(rt; catalogue.count(case.0), part.len());
        assert_eq!(rt; catalogue.first(case.0, part.len()), part);
        assert_eq!(rt; catalogue.first(case.0, 100), part);
        let found = catalogue.found(case.0);
        assert_eq!(rt; found.len(), part.len());
        assert_eq!(rt; found.count(), part.len());
        assert_eq!(rt; found.first(2).count(), part.len().min(2));
        for (number, name) in part.iter().zip(found) {
            assert_eq!(rt; catalogue.names().name(*number), Some(name));
        }
        let looked = filtered(heap, table, catalogue.names(), places, case.0)?;
        assert_eq!(rt; part, looked.as_slice());
    }
    Ok(())
}

#[test]
fn valley(rt: HostRuntime) -> Result<(), Fail> {
    let book = Book::new(
        rt.alloc(),
        &[b"cab", b"Cab", b"cab'", b"cad", b"cz", b"chad", b"da"],
    )?;
    let table = Table::valley();
    let places = [0, 1, 2, 3, 4, 5, 6];
    let catalogue = Catalogue::check(&table, &book.text, &book.starts, &places)?;
    all_found(
        &rt,
        rt.alloc(),
        &table,
        &catalogue,
        &[
            Case(b"c", 0, 5),
            Case(b"ch", 5, 6),
            Case(b"CAB", 0, 3),
            Case(b"'", 0, 7),
            Case(b"", 0, 7),
            Case(b"a", 0, 0),
            Case(b"cabc", 3, 3),
            Case(b"cad", 3, 4),
            Case(b"cb", 4, 4),
            Case(b"chads", 6, 6),
            Case(b"c'h", 4, 4),
            Case(b"da", 6, 7),
            Case(b"z", 7, 7),
        ],
    )?;
    assert_eq!(rt; catalogue.first(b"cab", 0), [].as_slice());
    assert_eq!(rt; catalogue.first(b"cab", 1), [0].as_slice());
    assert_eq!(rt; catalogue.first(b"cab", 2), [0, 1].as_slice());
    assert_eq!(rt; catalogue.first(b"cad", 2), [3].as_slice());
    assert_eq!(rt; catalogue.name(5), Some(b"chad".as_slice()));
    assert_eq!(rt; catalogue.name(7), None);
    assert_eq!(rt; catalogue.names().name(6), Some(b"da".as_slice()));
    assert_eq!(rt; catalogue.names().name(7), None);
    assert_eq!(rt; catalogue.names().count(), 7);
    Ok(())
}

// Some of the names only, and some twice.
#[test]
fn some_and_twice(rt: HostRuntime) -> Result<(), Fail> {
    let book = Book::new(rt.alloc(), &[b"da", b"cab", b"x", b"chad", b"cad", b"Cab"])?;
    let table = Table::valley();
    let places = [1, 1, 5, 4, 3, 3, 3, 0];
    let catalogue = Catalogue::check(&table, &book.text, &book.starts, &places)?;
    all_found(
        &rt,
        rt.alloc(),
        &table,
        &catalogue,
        &[
            Case(b"cab", 0, 3),
            Case(b"c", 0, 4),
            Case(b"ch", 4, 7),
            Case(b"d", 7, 8),
            Case(b"x", 8, 8),
            Case(b"-", 0, 8),
        ],
    )?;
    assert_eq!(rt; catalogue.name(3), Some(b"cad".as_slice()));
    assert_eq!(rt; catalogue.name(6), Some(b"chad".as_slice()));
    Ok(())
}

// No name, no name in the list, one name, the empty name.
#[test]
fn few(rt: HostRuntime) -> Result<(), Fail> {
    let table = Table::valley();
    let none = Catalogue::check(&table, b"", &[0], &[])?;
    all_found(
        &rt,
        rt.alloc(),
        &table,
        &none,
        &[Case(b"", 0, 0), Case(b"a", 0, 0)],
    )?;
    assert_eq!(rt; none.name(0), None);
    assert_eq!(rt; none.names().count(), 0);

    let unlisted = Catalogue::check(&table, b"cab", &[0, 3], &[])?;
    all_found(
        &rt,
        rt.alloc(),
        &table,
        &unlisted,
        &[Case(b"", 0, 0), Case(b"c", 0, 0)],
    )?;
    assert_eq!(rt; unlisted.names().name(0), Some(b"cab".as_slice()));

    let one = Catalogue::check(&table, b"cab", &[0, 3], &[0])?;
    all_found(
        &rt,
        rt.alloc(),
        &table,
        &one,
        &[
            Case(b"", 0, 1),
            Case(b"cab", 0, 1),
            Case(b"caba", 1, 1),
            Case(b"b", 0, 0),
            Case(b"d", 1, 1),
        ],
    )?;

    let empty = Catalogue::check(&table, b"", &[0, 0], &[0])?;
    all_found(
        &rt,
        rt.alloc(),
        &table,
        &empty,
        &[Case(b"", 0, 1), Case(b"a", 1, 1)],
    )?;
    assert_eq!(rt; empty.name(0), Some(b"".as_slice()));
    Ok(())
}

// All names have the same key: they stand either way, and each question finds all or none.
#[test]
fn same_key(rt: HostRuntime) -> Result<(), Fail> {
    let book = Book::new(rt.alloc(), &[b"a-b", b"a b", b"-ab", b"ab-"])?;
    let table = Table::valley();
    for places in [[0, 1, 2, 3], [3, 1, 0, 2], [2, 2, 2, 2]] {
        let catalogue = Catalogue::check(&table, &book.text, &book.starts, &places)?;
        all_found(
            &rt,
            rt.alloc(),
            &table,
            &catalogue,
            &[
                Case(b"", 0, 4),
                Case(b"a", 0, 4),
                Case(b"A!B", 0, 4),
                Case(b"abc", 4, 4),
                Case(b"aa", 0, 0),
            ],
        )?;
    }
    Ok(())
}

// A table under which letters count on the first level only or never there, and a pair stands between its letters.
#[test]
fn own_table(rt: HostRuntime) -> Result<(), Fail> {
    let mut own = TableBuf::new(rt.alloc())?;
    fill(
        &mut own,
        &[(97, [1, 0, 0]), (98, [3, 0, 0]), (109, [0, 1, 0])],
    )?;
    own.add_pair(Pair {
        first: 97,
        second: 98,
        weights: Weights::from([2, 0, 0]),
    })?;
    let table = own.table();
    let book = Book::new(
        rt.alloc(),
        &[b"", b"m", b"aa", b"am", b"amb", b"ab", b"aba", b"mab", b"b"],
    )?;
    let names = Names::check(&table, &book.text, &book.starts)?;
    let places = names.in_order(&table, rt.alloc())?;
    assert_eq!(rt; places.as_slice(), [0, 1, 3, 2, 4, 5, 7, 6, 8].as_slice());
    let catalogue = Catalogue::check(&table, &book.text, &book.starts, &places)?;
    all_found(
        &rt,
        rt.alloc(),
        &table,
        &catalogue,
        &[
            Case(b"m", 0, 9),
            Case(b"a", 2, 5),
            Case(b"amb", 4, 5),
            Case(b"ab", 5, 8),
            Case(b"aba", 7, 8),
            Case(b"b", 8, 9),
            Case(b"bb", 9, 9),
        ],
    )
}

// What is asked may have 1,000 letters; with one more nothing is found, though all letters are ignored.
#[test]
fn long_question(rt: HostRuntime) -> Result<(), Fail> {
    let table = Table::valley();
    let catalogue = Catalogue::check(&table, b"cabda", &[0, 3, 5], &[0, 1])?;
    let ask = [b'-'; 1001];
    assert_eq!(rt; catalogue.find(&ask[..1000]), [0, 1].as_slice());
    assert_eq!(rt; catalogue.find(&ask), [].as_slice());
    assert_eq!(rt; catalogue.count(&ask), 0);
    assert_eq!(rt; catalogue.first(&ask, 1), [].as_slice());
    assert_eq!(rt; catalogue.range(&ask), 0..0);
    Ok(())
}
