// Finding in lists that are lent, with all checks.
use crate::book::Book;
use catalogue::{Catalogue, find, find_under};
use std::test::Fail;
use table::{Table, valley_letters, valley_pairs};

#[test]
fn by_numbers(rt: HostRuntime) -> Result<(), Fail> {
    let book = Book::new(rt.alloc(), &[b"cab", b"chad", b"cz"])?;
    let places = [0, 2, 1];
    let letters = valley_letters();
    let joins = valley_pairs();
    for (ask, from, to) in [(b"c", 0, 2), (b"C", 0, 2), (b"d", 3, 3), (b"'", 0, 3)] {
        let part = find(letters, joins, 1, &book.text, &book.starts, &places, ask);
        assert_eq!(rt; places.get(from..to), Some(part));
    }
    let part = find(letters, joins, 1, &book.text, &book.starts, &places, b"ch");
    assert_eq!(rt; part, [1].as_slice());
    let long = [b'\''; 1001];
    let part = find(letters, joins, 1, &book.text, &book.starts, &places, &long);
    assert_eq!(rt; part, [].as_slice());
    let part = find(
        letters,
        joins,
        1,
        &book.text,
        &book.starts,
        &places,
        &long[..1000],
    );
    assert_eq!(rt; part, places.as_slice());
    Ok(())
}

// Under a table that is none nothing is found; under one without the pair the list is in another order.
#[test]
fn bad_table(rt: HostRuntime) -> Result<(), Fail> {
    let book = Book::new(rt.alloc(), &[b"cab", b"chad", b"cz"])?;
    let places = [0, 2, 1];
    let letters = valley_letters();
    let joins = valley_pairs();
    for how_many in [0, 2, 200] {
        let part = find(
            letters,
            joins,
            how_many,
            &book.text,
            &book.starts,
            &places,
            b"c",
        );
        assert_eq!(rt; part, [].as_slice());
    }
    let part = find(
        &letters[1..],
        joins,
        1,
        &book.text,
        &book.starts,
        &places,
        b"c",
    );
    assert_eq!(rt; part, [].as_slice());
    let twice = [99, 104, 1, 1, 1, 99, 104, 2, 1, 1];
    let part = find(letters, &twice, 2, &book.text, &book.starts, &places, b"c");
    assert_eq!(rt; part, [].as_slice());
    let part = find(letters, &[], 0, &book.text, &book.starts, &places, b"c");
    assert_eq!(rt; part, [].as_slice());
    let part = find(letters, &[], 0, &book.text, &book.starts, &[0, 1, 2], b"ch");
    assert_eq!(rt; part, [1].as_slice());
    Ok(())
}

// A part lives as long as the list, and not only as long as the table, the names or the question.
fn outlives<'a>(book: &Book, places: &'a [u32], ask: u8) -> (&'a [u32], &'a [u32]) {
    let table = Table::valley();
    let question = [ask];
    let lent = find_under(&table, &book.text, &book.starts, places, &question);
    match Catalogue::check(&table, &book.text, &book.starts, places) {
        Ok(catalogue) => {
            let range = catalogue.range(&question);
            (lent, places.get(range.start..range.end).unwrap_or(places))
        }
        Err(_) => (lent, places),
    }
}

#[test]
fn lifetimes(rt: HostRuntime) -> Result<(), Fail> {
    let places = [0, 2, 1];
    let parts = {
        let book = Book::new(rt.alloc(), &[b"cab", b"da", b"cz"])?;
        outlives(&book, &places, b'c')
    };
    assert_eq!(rt; parts.0, [0, 2].as_slice());
    assert_eq!(rt; parts.1, [0, 2].as_slice());
    Ok(())
}
