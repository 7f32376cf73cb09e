// Tables that grow by letters that weigh as two or three.
use crate::book::entry;
use crate::expansions::{own, parts};
use crate::grown::found;
use catalogue::CatalogueBuf;
use std::test::Fail;
use table::{AddError, Expanded, Expansion, LetterEntry, Refusal, Triples, Weights};

// A letter that comes to weigh as two or three lets go of the list, and puts the names in another order.
#[test]
fn grows(rt: HostRuntime) -> Result<(), Fail> {
    let heap = rt.alloc();
    let mut book = CatalogueBuf::new(own(heap)?, heap)?;
    for name in [
        b"\xc5\x93t".as_slice(),
        b"ohet",
        b"st",
        b"s\xc5\x93",
        b"het",
    ] {
        book.push(name)?;
    }
    book.put_in_order(heap)?;
    // 339 (C5 93) weighs nothing yet, nor does o.
    found(&rt, &book, b"", &[1, 4, 3, 2, 0]);
    found(&rt, &book, b"\xc5\x93", &[1, 4, 3, 2, 0]);
    book.add_letter(parts(339, 4, 3))?;
    assert!(rt; book.catalogue().is_none());
    book.put_in_order(heap)?;
    found(&rt, &book, b"", &[1, 4, 0, 3, 2]);
    found(&rt, &book, b"\xc5\x93", &[1, 4, 0]);
    found(&rt, &book, b"h", &[1, 4, 0]);
    found(&rt, &book, b"s\xc5\x93", &[3]);
    found(&rt, &book, b"sh", &[3]);
    assert_eq!(rt; book.table().expansion_count(), 3);
    // One that weighs nothing is as if it weren't there.
    let nothing = Weights::from([0; 3]);
    book.add_letter(LetterEntry::from(Expansion {
        letter: 55296,
        weights: Expanded {
            first: nothing,
            second: nothing,
            third: Some(nothing),
        },
    }))?;
    assert!(rt; book.catalogue().is_none());
    book.put_in_order(heap)?;
    found(&rt, &book, b"", &[1, 4, 0, 3, 2]);
    assert_eq!(rt; book.table().expansion_count(), 3);
    Ok(())
}

// What is turned away changes nothing, and the list is kept.
#[test]
fn refused(rt: HostRuntime) -> Result<(), Fail> {
    let heap = rt.alloc();
    let mut book = CatalogueBuf::new(own(heap)?, heap)?;
    for name in [b"\xc3\x9f".as_slice(), b"ss", b"st"] {
        book.push(name)?;
    }
    book.put_in_order(heap)?;
    found(&rt, &book, b"ss", &[1, 0]);
    let excess = |letter| LetterEntry {
        letter,
        weights: Triples::Excess,
    };
    assert_eq!(rt; Refusal::TooManyTriples(9).number(), 7);
    for (entry, why) in [
        (excess(339), Refusal::TooManyTriples(9)),
        (excess(120), Refusal::TooManyTriples(9)),
        (excess(223), Refusal::LetterTwice(9)),
        (excess(115), Refusal::LetterTwice(9)),
        (excess(55296), Refusal::NoLetter(9)),
        (parts(223, 1, 1), Refusal::LetterTwice(9)),
        (parts(115, 1, 1), Refusal::LetterTwice(9)),
        (parts(65536, 1, 1), Refusal::NoLetter(9)),
        (entry(223, [1, 0, 0]), Refusal::LetterTwice(9)),
    ] {
        assert_eq!(rt; book.add_letter(entry), Err(AddError::Refused(why)));
        found(&rt, &book, b"", &[1, 0, 2]);
        found(&rt, &book, b"\xc3\x9f", &[1, 0]);
        assert_eq!(rt; book.table().expansion_count(), 2);
        assert_eq!(rt; book.table().letter(120), Weights::from([0; 3]));
        assert_eq!(rt; book.names().count(), 3);
    }
    Ok(())
}
