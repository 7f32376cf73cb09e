// Lists that are no catalogue.
use catalogue::{Catalogue, ListFault, Names, find, find_under};
use keys::NameRefusal;
use std::test::Fail;
use table::{Table, valley_letters, valley_pairs};

// Starts and places in the text "cabda", and what is wrong with them.
#[derive(Clone, Copy)]
struct Case(&'static [u32], &'static [u32], Option<ListFault>);

const TEXT: &[u8] = b"cabda";

// Each fault alone, and where there are several the first is told. Nothing is found then, not even by the empty question.
#[test]
fn told(rt: HostRuntime) {
    let table = Table::valley();
    for case in [
        Case(&[0, 3, 5], &[0, 1], None),
        Case(&[3, 5], &[0], None),
        Case(&[], &[], Some(ListFault::NoStart)),
        Case(&[], &[9], Some(ListFault::NoStart)),
        Case(&[0, 3, 2, 5], &[], Some(ListFault::StartFalls(2))),
        Case(&[3, 2, 1, 0], &[7], Some(ListFault::StartFalls(1))),
        Case(&[5000, 4, 0], &[0], Some(ListFault::StartFalls(1))),
        Case(&[0, 1000, 2001], &[], Some(ListFault::EndsElsewhere(2))),
        Case(&[0, 3, 4], &[9], Some(ListFault::EndsElsewhere(2))),
        Case(&[0, 3, 6], &[], Some(ListFault::EndsElsewhere(2))),
        Case(&[0], &[], Some(ListFault::EndsElsewhere(0))),
        Case(&[0, 3, 5], &[0, 2], Some(ListFault::NoSuchName(1))),
        Case(&[0, 3, 5], &[0, 2, 9], Some(ListFault::NoSuchName(1))),
        Case(&[0, 3, 5], &[4294967295], Some(ListFault::NoSuchName(0))),
        Case(&[0, 3, 5], &[1, 0, 2], Some(ListFault::NoSuchName(2))),
        Case(&[0, 3, 5], &[1, 0], Some(ListFault::OutOfOrder(1))),
        Case(&[0, 3, 5], &[1, 0, 1, 0], Some(ListFault::OutOfOrder(1))),
        Case(&[0, 3, 5], &[0, 1, 1, 0], Some(ListFault::OutOfOrder(3))),
    ] {
        let fault = Catalogue::check(&table, TEXT, case.0, case.1).err();
        assert_eq!(rt; fault, case.2);
        let all = if fault.is_none() { case.1 } else { &[] };
        assert_eq!(rt; find_under(&table, TEXT, case.0, case.1, b""), all);
        let found = find(
            valley_letters(),
            valley_pairs(),
            1,
            TEXT,
            case.0,
            case.1,
            b"",
        );
        assert_eq!(rt; found, all);
    }
}

// Names with the same primaries are out of order by their tertiaries too.
#[test]
fn last_level(rt: HostRuntime) {
    let table = Table::valley();
    let fault = Catalogue::check(&table, b"CABcab", &[0, 3, 6], &[0, 1]).err();
    assert_eq!(rt; fault, Some(ListFault::OutOfOrder(1)));
    let fault = Catalogue::check(&table, b"CABcab", &[0, 3, 6], &[1, 0]).err();
    assert_eq!(rt; fault, None);
}

// A name may have 1,000 letters.
#[test]
fn longest_names(rt: HostRuntime) -> Result<(), Fail> {
    let table = Table::valley();
    let text = [b'a'; 2000];
    let catalogue = Catalogue::check(&table, &text, &[0, 1000, 2000], &[1, 0])?;
    assert_eq!(rt; catalogue.find(b"aaa"), [1, 0].as_slice());
    Ok(())
}

// The first with more is told, behind a start that falls and an end that is elsewhere.
#[test]
fn long_names(rt: HostRuntime) {
    let table = Table::valley();
    let text = [b'a'; 2002];
    let first = ListFault::NameRefused(0, NameRefusal::TooLong(2002));
    let second = ListFault::NameRefused(1, NameRefusal::TooLong(1001));
    let third = ListFault::NameRefused(2, NameRefusal::TooLong(1001));
    for (starts, fault) in [
        ([0, 1000, 2000, 2002], None),
        ([0, 2002, 2002, 2002], Some(first)),
        ([0, 1000, 2001, 2002], Some(second)),
        ([0, 1, 1001, 2002], Some(third)),
        ([0, 1000, 2001, 2001], Some(ListFault::EndsElsewhere(3))),
        ([0, 1000, 2001, 9000], Some(ListFault::EndsElsewhere(3))),
        ([0, 1000, 2001, 2000], Some(ListFault::StartFalls(3))),
    ] {
        assert_eq!(rt; Names::check(&table, &text, &starts).err(), fault);
        let all = if fault.is_none() { [0].as_slice() } else { &[] };
        assert_eq!(rt; find_under(&table, &text, &starts, &[0], b""), all);
    }
}

#[test]
fn places(rt: HostRuntime) {
    assert_eq!(rt; ListFault::NoStart.place(), 0);
    assert_eq!(rt; ListFault::StartFalls(3).place(), 3);
    assert_eq!(rt;
        ListFault::NameRefused(4, NameRefusal::TooLong(1001)).place(),
        4
    );
    assert_eq!(rt;
        ListFault::NameRefused(8, NameRefusal::NotUtf8(9)).place(),
        8
    );
    assert_eq!(rt; ListFault::EndsElsewhere(5).place(), 5);
    assert_eq!(rt; ListFault::NoSuchName(6).place(), 6);
    assert_eq!(rt; ListFault::OutOfOrder(7).place(), 7);
}
