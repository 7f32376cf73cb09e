// Names in UTF-8 and tables of them that grow.
use crate::book::entry;
use crate::grown::found;
use crate::wide::own;
use catalogue::{CatalogueBuf, ListFault, NotTaken, PushError};
use keys::NameRefusal;
use std::test::Fail;
use table::{AddError, Pair, Refusal, Table, TableBuf, Weights};

// Names that are no UTF-8 are not taken, and the list is kept.
#[test]
fn names(rt: HostRuntime) -> Result<(), Fail> {
    let heap = rt.alloc();
    let mut book = CatalogueBuf::new(own(heap)?, heap)?;
    for name in [b"m\xc3\xbc".as_slice(), b"mu", b"", b"\xc5\xa1"] {
        book.push(name)?;
    }
    assert!(rt; book.table().utf8());
    book.put_in_order(heap)?;
    found(&rt, &book, b"", &[2, 1, 0, 3]);
    for (name, place) in [
        (b"m\xc3".as_slice(), 1),
        (b"\xbc", 0),
        (b"mu\xff", 2),
        (b"\xe2\x82\xac\xe2\x82", 3),
        (b"\xed\xa0\x80", 0),
    ] {
        let why = NotTaken::Name(NameRefusal::NotUtf8(place));
        assert_eq!(rt; book.push(name), Err(PushError::Refused(why)));
        found(&rt, &book, b"m\xc3\xbc", &[1, 0]);
        found(&rt, &book, name, &[]);
    }
    assert_eq!(rt; book.names().count(), 4);
    let mut name = Vec::new(heap);
    for _ in 0..1000 {
        name.extend_from_slice(b"\xe2\x82\xac")?;
    }
    book.push(&name)?;
    assert!(rt; book.catalogue().is_none());
    book.put_in_order(heap)?;
    name.push(b'-')?;
    let why = NotTaken::Name(NameRefusal::TooLong(1001));
    assert_eq!(rt; book.push(&name), Err(PushError::Refused(why)));
    found(&rt, &book, b"\xe2\x82\xac", &[4]);
    Ok(())
}

// Letters above 255 that come to weigh something, and pairs of them.
#[test]
fn letters(rt: HostRuntime) -> Result<(), Fail> {
    let heap = rt.alloc();
    let mut book = CatalogueBuf::new(own(heap)?, heap)?;
    for name in [b"u".as_slice(), b"\xc5\x9f", b"\xc5\x9f\xc5\xa1", b"a"] {
        book.push(name)?;
    }
    book.put_in_order(heap)?;
    found(&rt, &book, b"", &[1, 3, 2, 0]);
    book.add_letter(entry(351, [9, 1, 0]))?;
    assert!(rt; book.catalogue().is_none());
    book.put_in_order(heap)?;
    found(&rt, &book, b"", &[3, 0, 1, 2]);
    found(&rt, &book, b"\xc5\x9f", &[1, 2]);
    for (again, why) in [
        (entry(351, [1, 1, 0]), Refusal::LetterTwice(9)),
        (entry(55296, [1, 1, 0]), Refusal::NoLetter(9)),
        (entry(65536, [1, 1, 0]), Refusal::NoLetter(9)),
    ] {
        assert_eq!(rt; book.add_letter(again), Err(AddError::Refused(why)));
        found(&rt, &book, b"\xc5\x9f", &[1, 2]);
    }
    let pair = Pair {
        first: 351,
        second: 353,
        weights: Weights::from([1, 0, 0]),
    };
    book.add_pair(pair)?;
    book.put_in_order(heap)?;
    found(&rt, &book, b"", &[2, 3, 0, 1]);
    found(&rt, &book, b"a", &[2, 3]);
    assert_eq!(rt;
        book.add_pair(Pair {
            first: 351,
            second: 65536,
            weights: Weights::from([1, 0, 0]),
        }),
        Err(AddError::Refused(Refusal::Foreign(2)))
    );
    found(&rt, &book, b"a", &[2, 3]);
    Ok(())
}

// A table of names in UTF-8 in place of one of bytes, if all names are in UTF-8; else table, names and list are kept.
#[test]
fn from_bytes(rt: HostRuntime) -> Result<(), Fail> {
    let heap = rt.alloc();
    let mut book = CatalogueBuf::new(Table::valley().to_buf(heap)?, heap)?;
    for name in [b"z".as_slice(), b"a", b"m\xc3\xbc", b"mu\xfc", b"\xff"] {
        book.push(name)?;
    }
    book.put_in_order(heap)?;
    found(&rt, &book, b"", &[4, 1, 2, 3, 0]);
    let refused = ListFault::NameRefused(3, NameRefusal::NotUtf8(2));
    assert_eq!(rt; book.set_table(own(heap)?), Err(refused));
    assert!(rt; !book.table().utf8());
    assert_eq!(rt; book.table().pair_count(), 1);
    assert_eq!(rt; book.names().count(), 5);
    assert_eq!(rt; book.names().name(3), Some(b"mu\xfc".as_slice()));
    found(&rt, &book, b"", &[4, 1, 2, 3, 0]);
    found(&rt, &book, b"\xff", &[4, 1, 2, 3, 0]);
    book.push(b"\xfe")?;
    book.set_table(Table::valley().to_buf(heap)?)?;
    book.set_table(TableBuf::new(heap)?)?;
    assert_eq!(rt; book.names().count(), 6);

    let mut book = CatalogueBuf::new(Table::valley().to_buf(heap)?, heap)?;
    for name in [b"mu".as_slice(), b"m\xc3\xbc", b"\xc5\xa1", b"a"] {
        book.push(name)?;
    }
    book.put_in_order(heap)?;
    found(&rt, &book, b"", &[2, 3, 1, 0]);
    book.set_table(own(heap)?)?;
    assert!(rt; book.catalogue().is_none());
    assert!(rt; book.table().utf8());
    assert_eq!(rt; book.names().count(), 4);
    book.put_in_order(heap)?;
    found(&rt, &book, b"", &[3, 0, 1, 2]);
    found(&rt, &book, b"m\xc3\xbc", &[0, 1]);
    assert_eq!(rt;
        book.push(b"\xc3"),
        Err(PushError::Refused(NotTaken::Name(NameRefusal::NotUtf8(0))))
    );
    found(&rt, &book, b"\xc3", &[]);
    Ok(())
}

// The other way round each byte is a letter, and a name may then have more than 1,000.
#[test]
fn to_bytes(rt: HostRuntime) -> Result<(), Fail> {
    let heap = rt.alloc();
    let mut book = CatalogueBuf::new(own(heap)?, heap)?;
    book.push(b"\xc5\xa1")?;
    book.set_table(TableBuf::in_utf8(heap)?)?;
    book.set_table(Table::valley().to_buf(heap)?)?;
    assert!(rt; !book.table().utf8());
    book.push(b"\xc5")?;
    book.put_in_order(heap)?;
    found(&rt, &book, b"", &[1, 0]);

    let mut book = CatalogueBuf::new(own(heap)?, heap)?;
    let mut name = Vec::new(heap);
    for _ in 0..334 {
        name.extend_from_slice(b"\xe2\x82\xac")?;
    }
    book.push(b"a")?;
    book.push(&name)?;
    book.put_in_order(heap)?;
    let refused = ListFault::NameRefused(1, NameRefusal::TooLong(1002));
    assert_eq!(rt; book.set_table(Table::valley().to_buf(heap)?), Err(refused));
    assert!(rt; book.table().utf8());
    found(&rt, &book, b"\xe2\x82\xac", &[1]);
    Ok(())
}
