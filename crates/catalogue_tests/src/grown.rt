// Names and tables that grow.
use crate::book::entry;
use catalogue::{CatalogueBuf, NotTaken, PushError};
use keys::NameRefusal;
use std::process::Abort;
use std::test::Fail;
use table::{AddError, Pair, Refusal, Table, TableBuf, Weights};

// The names that are found are these, in this order.
pub(crate) fn found(rt: &impl Abort, book: &CatalogueBuf, ask: &[u8], numbers: &[u32]) {
    assert!(rt;
        book.catalogue()
            .is_some_and(|catalogue| catalogue.find(ask) == numbers)
    );
}

// Names that come after the list was made are in the next one.
#[test]
fn names(rt: HostRuntime) -> Result<(), Fail> {
    let heap = rt.alloc();
    let mut book = CatalogueBuf::new(Table::valley().to_buf(heap)?, heap)?;
    assert!(rt; book.catalogue().is_none());
    book.put_in_order(heap)?;
    found(&rt, &book, b"", &[]);
    for name in [b"cz".as_slice(), b"Cab", b"chad", b""] {
        book.push(name)?;
        assert!(rt; book.catalogue().is_none());
    }
    book.put_in_order(heap)?;
    found(&rt, &book, b"", &[3, 1, 0, 2]);
    found(&rt, &book, b"c", &[1, 0]);
    book.put_in_order(heap)?;
    found(&rt, &book, b"ca", &[1]);
    book.push(b"cab")?;
    assert!(rt; book.catalogue().is_none());
    book.put_in_order(heap)?;
    found(&rt, &book, b"ca", &[4, 1]);
    assert_eq!(rt; book.names().count(), 5);
    assert_eq!(rt; book.names().name(2), Some(b"chad".as_slice()));
    Ok(())
}

// Each change of the table puts the names in another order.
#[test]
fn tables(rt: HostRuntime) -> Result<(), Fail> {
    let heap = rt.alloc();
    let mut book = CatalogueBuf::new(TableBuf::new(heap)?, heap)?;
    for name in [b"b".as_slice(), b"a", b"ab"] {
        book.push(name)?;
    }
    book.put_in_order(heap)?;
    found(&rt, &book, b"a", &[0, 1, 2]);
    book.add_letter(entry(97, [2, 0, 0]))?;
    assert!(rt; book.catalogue().is_none());
    book.put_in_order(heap)?;
    found(&rt, &book, b"a", &[1, 2]);
    found(&rt, &book, b"", &[0, 1, 2]);
    book.add_letter(entry(98, [3, 0, 0]))?;
    book.put_in_order(heap)?;
    found(&rt, &book, b"", &[1, 2, 0]);
    assert_eq!(rt;
        book.add_letter(entry(98, [4, 0, 0])),
        Err(AddError::Refused(Refusal::LetterTwice(2)))
    );
    assert_eq!(rt;
        book.add_letter(entry(256, [4, 0, 0])),
        Err(AddError::Refused(Refusal::NoLetter(2)))
    );
    found(&rt, &book, b"", &[1, 2, 0]);
    book.add_letter(entry(256, [0, 0, 0]))?;
    assert!(rt; book.catalogue().is_none());
    book.put_in_order(heap)?;
    found(&rt, &book, b"", &[1, 2, 0]);
    let pair = Pair {
        first: 97,
        second: 98,
        weights: Weights::from([1, 0, 0]),
    };
    book.add_pair(pair)?;
    assert!(rt; book.catalogue().is_none());
    book.put_in_order(heap)?;
    found(&rt, &book, b"", &[2, 1, 0]);
    found(&rt, &book, b"a", &[1]);
    assert_eq!(rt;
        book.add_pair(pair),
        Err(AddError::Refused(Refusal::Twice(1)))
    );
    found(&rt, &book, b"", &[2, 1, 0]);
    assert_eq!(rt; book.table().pair_count(), 1);
    book.set_table(Table::valley().to_buf(heap)?)?;
    assert!(rt; book.catalogue().is_none());
    book.put_in_order(heap)?;
    found(&rt, &book, b"", &[1, 2, 0]);
    Ok(())
}

// A name of 1,000 letters is taken, and one of 1,001 is not and changes nothing.
#[test]
fn long(rt: HostRuntime) -> Result<(), Fail> {
    let heap = rt.alloc();
    let mut book = CatalogueBuf::new(Table::valley().to_buf(heap)?, heap)?;
    let mut name = vec![in heap; b'a'; 1000]?;
    book.push(&name)?;
    book.put_in_order(heap)?;
    name.push(b'a')?;
    let why = NotTaken::Name(NameRefusal::TooLong(1001));
    assert_eq!(rt; book.push(&name), Err(PushError::Refused(why)));
    found(&rt, &book, b"aa", &[0]);
    assert_eq!(rt; book.names().count(), 1);
    Ok(())
}

// A copy of a table says what the table says.
#[test]
fn copies(rt: HostRuntime) -> Result<(), Fail> {
    let valley = Table::valley();
    let copy = valley.to_buf(rt.alloc())?;
    let table = copy.table();
    for letter in 0..300u32 {
        assert_eq!(rt; table.letter(letter), valley.letter(letter));
    }
    assert_eq!(rt; table.pair_count(), 1);
    assert_eq!(rt; table.pair_at(0), valley.pair_at(0));
    Ok(())
}
