// Lists and questions in UTF-8.
use crate::book::{Book, fill};
use crate::find::{Case, all_found};
use catalogue::{Catalogue, ListFault, Names, find, find_under};
use keys::NameRefusal;
use std::alloc::Global;
use std::test::Fail;
use table::{Pair, Table, TableBuf, Weights, valley_letters, valley_pairs};

// a, m, s, t, u; 252 (C3 BC) weighs as u but on the second level, 353 (C5 A1) stands between s and t, 8364 (E2 82 AC) behind all.
// Two letters 353 are one together, and stand behind t.
pub(crate) fn own(heap: Global) -> Result<TableBuf, Fail> {
    let mut own = TableBuf::in_utf8(heap)?;
    fill(
        &mut own,
        &[
            (97, [1, 1, 0]),
            (109, [2, 1, 0]),
            (115, [3, 1, 0]),
            (116, [5, 1, 0]),
            (117, [7, 1, 0]),
            (252, [7, 2, 0]),
            (353, [4, 1, 0]),
            (8364, [8, 1, 0]),
        ],
    )?;
    own.add_pair(Pair {
        first: 353,
        second: 353,
        weights: Weights::from([6, 1, 0]),
    })?;
    Ok(own)
}

#[test]
fn finds(rt: HostRuntime) -> Result<(), Fail> {
    let own = own(rt.alloc())?;
    let table = own.table();
    let book = Book::new(
        rt.alloc(),
        &[
            b"\xe2\x82\xac",
            b"m\xc3\xbcs",
            b"mus",
            b"mu",
            b"m\xc3\xbc",
            b"\xc5\xa1\xc5\xa1a",
            b"\xc5\xa1a",
            b"ta",
            b"sa",
            b"\xc5\xa1",
            b"ua",
            b"",
        ],
    )?;
    let names = Names::check(&table, &book.text, &book.starts)?;
    let places = names.in_order(&table, rt.alloc())?;
    assert_eq!(rt;
        places.as_slice(),
        [11, 3, 4, 2, 1, 8, 9, 6, 7, 5, 10, 0].as_slice()
    );
    let catalogue = Catalogue::check(&table, &book.text, &book.starts, &places)?;
    all_found(
        &rt,
        rt.alloc(),
        &table,
        &catalogue,
        &[
            Case(b"", 0, 12),
            Case(b"m", 1, 5),
            Case(b"mu", 1, 5),
            Case(b"m\xc3\xbc", 1, 5),
            Case(b"M\xc3\xbc", 10, 11),
            Case(b"m\xc3\xbcs", 3, 5),
            Case(b"s", 5, 6),
            Case(b"\xc5\xa1", 6, 8),
            Case(b"\xc5\xa1a", 7, 8),
            Case(b"\xc5\xa1\xc5\xa1", 9, 10),
            Case(b"\xc5\x9f", 0, 12),
            Case(b"t", 8, 9),
            Case(b"\xc3\xbca", 10, 11),
            Case(b"\xe2\x82\xac", 11, 12),
            Case(b"\xe2\x82\xac\xc3\xbc", 12, 12),
        ],
    )
}

// A question that is no UTF-8, or has more than 1,000 letters, finds nothing.
#[test]
fn questions(rt: HostRuntime) -> Result<(), Fail> {
    let own = own(rt.alloc())?;
    let table = own.table();
    let places = [0, 1];
    let catalogue = Catalogue::check(&table, b"m\xc3\xbc\xc3\xbc", &[0, 3, 5], &places)?;
    for ask in [
        b"\xc3".as_slice(),
        b"\xbc",
        b"m\xc3",
        b"\xff",
        b"\xc0\x80",
        b"\xed\xa0\x80",
        b"\xf0\x9f\x98\x80",
        b"\xc3\xbc\xbc",
    ] {
        assert_eq!(rt; catalogue.find(ask), [].as_slice());
        assert_eq!(rt; catalogue.range(ask), 0..0);
        assert_eq!(rt; catalogue.count(ask), 0);
        assert_eq!(rt; catalogue.first(ask, 1), [].as_slice());
        assert_eq!(rt; catalogue.found(ask).count(), 0);
        let part = find_under(&table, b"m\xc3\xbc\xc3\xbc", &[0, 3, 5], &places, ask);
        assert_eq!(rt; part, [].as_slice());
    }
    let mut ask = Vec::new(rt.alloc());
    for _ in 0..1000 {
        ask.extend_from_slice(b"\xe2\x82\xad")?;
    }
    assert_eq!(rt; catalogue.find(&ask), [0, 1].as_slice());
    ask.push(b'-')?;
    assert_eq!(rt; catalogue.find(&ask), [].as_slice());
    assert_eq!(rt; catalogue.range(&ask), 0..0);
    Ok(())
}

// Starts in a text, and the name that is turned away there, and why.
#[derive(Clone, Copy)]
struct Starts(&'static [u32], Option<(usize, NameRefusal)>);

// The first such name is told. Its place is counted from where it begins; a name that begins within a letter is none.
#[test]
fn faults(rt: HostRuntime) -> Result<(), Fail> {
    let own = own(rt.alloc())?;
    let table = own.table();
    let text = b"m\xc3\xbcm\xc5\xa1\xe2\x82\xac";
    for case in [
        Starts(&[0, 3, 6, 9], None),
        Starts(&[0, 0, 1, 3, 4, 9, 9], None),
        Starts(&[3, 9], None),
        Starts(&[0, 2, 9], Some((0, NameRefusal::NotUtf8(1)))),
        Starts(&[0, 1, 2, 9], Some((1, NameRefusal::NotUtf8(0)))),
        Starts(&[2, 9], Some((0, NameRefusal::NotUtf8(0)))),
        Starts(&[0, 3, 5, 7, 9], Some((1, NameRefusal::NotUtf8(1)))),
        Starts(&[0, 3, 6, 8, 9], Some((2, NameRefusal::NotUtf8(0)))),
        Starts(&[0, 3, 8, 9], Some((1, NameRefusal::NotUtf8(3)))),
        Starts(&[0, 8, 9], Some((0, NameRefusal::NotUtf8(6)))),
        Starts(&[8, 9], Some((0, NameRefusal::NotUtf8(0)))),
    ] {
        let fault = case
            .1
            .map(|(number, why)| ListFault::NameRefused(number, why));
        assert_eq!(rt; Names::check(&table, text, case.0).err(), fault);
        assert_eq!(rt; Catalogue::check(&table, text, case.0, &[]).err(), fault);
        assert_eq!(rt; Names::check(&Table::valley(), text, case.0).err(), None);
        let all = if fault.is_none() { [0].as_slice() } else { &[] };
        assert_eq!(rt; find_under(&table, text, case.0, &[0], b""), all);
        let part = find(valley_letters(), valley_pairs(), 1, text, case.0, &[0], b"");
        assert_eq!(rt; part, [0].as_slice());
    }
    Ok(())
}

// A name at fault is told behind the starts and before the list.
#[test]
fn order_of_faults(rt: HostRuntime) -> Result<(), Fail> {
    let own = own(rt.alloc())?;
    let table = own.table();
    let text = b"m\xc3\xbc";
    let fault = Catalogue::check(&table, text, &[0, 2, 1, 3], &[7]).err();
    assert_eq!(rt; fault, Some(ListFault::StartFalls(2)));
    let fault = Catalogue::check(&table, text, &[0, 2], &[7]).err();
    assert_eq!(rt; fault, Some(ListFault::EndsElsewhere(1)));
    let fault = Catalogue::check(&table, text, &[0, 2, 3], &[7]).err();
    let refused = ListFault::NameRefused(0, NameRefusal::NotUtf8(1));
    assert_eq!(rt; fault, Some(refused));
    let fault = Catalogue::check(&table, text, &[0, 1, 3], &[7]).err();
    assert_eq!(rt; fault, Some(ListFault::NoSuchName(0)));
    let fault = Catalogue::check(&table, text, &[0, 1, 3], &[1, 0]).err();
    assert_eq!(rt; fault, Some(ListFault::OutOfOrder(1)));
    Ok(())
}

// Names of 1,000 letters of three bytes each are taken, and one of 1,001 is told with so many.
#[test]
fn long_names(rt: HostRuntime) -> Result<(), Fail> {
    let own = own(rt.alloc())?;
    let table = own.table();
    let mut text = Vec::new(rt.alloc());
    for _ in 0..2001 {
        text.extend_from_slice(b"\xe2\x82\xac")?;
    }
    text.push(0xe2)?;
    let starts = [0, 3000, 6003];
    let fault = ListFault::NameRefused(1, NameRefusal::TooLong(1001));
    let all = text.get(..6003).unwrap_or(&[]);
    assert_eq!(rt; Names::check(&table, all, &starts).err(), Some(fault));
    let part = text.get(..6000).unwrap_or(&[]);
    assert_eq!(rt; Names::check(&table, part, &[0, 3000, 6000]).err(), None);
    let fault = ListFault::NameRefused(1, NameRefusal::NotUtf8(3003));
    assert_eq!(rt;
        Names::check(&table, &text, &[0, 3000, 6004]).err(),
        Some(fault)
    );
    let fault = ListFault::NameRefused(0, NameRefusal::TooLong(3000));
    assert_eq!(rt;
        Names::check(&Table::valley(), all, &starts).err(),
        Some(fault)
    );
    Ok(())
}
