// Lists put in order.
use crate::book::{Book, fill, filtered};
use catalogue::{Catalogue, Names};
use order::Collate;
use std::alloc::Global;
use std::test::Fail;
use table::{Pair, Table, TableBuf, Weights};

#[derive(Clone, Copy)]
struct Case(&'static [&'static [u8]], &'static [u32]);

// Names with the same key stay as they were read.
#[test]
fn valley(rt: HostRuntime) -> Result<(), Fail> {
    let table = Table::valley();
    for case in [
        Case(&[], &[]),
        Case(&[b""], &[0]),
        Case(&[b"b", b"a"], &[1, 0]),
        Case(&[b"a", b"a", b"a"], &[0, 1, 2]),
        Case(&[b"a-", b"b", b"-a", b"a!", b"b"], &[0, 2, 3, 1, 4]),
        Case(
            &[b"da", b"chad", b"cz", b"cad", b"cab'", b"Cab", b"cab"],
            &[6, 5, 4, 3, 2, 1, 0],
        ),
    ] {
        let book = Book::new(rt.alloc(), case.0)?;
        let names = Names::check(&table, &book.text, &book.starts)?;
        let places = names.in_order(&table, rt.alloc())?;
        assert_eq!(rt; places.as_slice(), case.1);
    }
    Ok(())
}

// Names of one to six of the letters a, b, c and d, from a fixed seed. Putting each where it belongs gives the same list, and
// asking with the first two letters of each gives what looking at each name gives.
#[test]
fn many(rt: HostRuntime) -> Result<(), Fail> {
    let mut own = TableBuf::new(rt.alloc())?;
    fill(
        &mut own,
        &[(97, [1, 1, 0]), (98, [2, 0, 0]), (99, [0, 2, 1])],
    )?;
    own.add_pair(Pair {
        first: 97,
        second: 97,
        weights: Weights::from([3, 1, 1]),
    })?;
    let table = own.table();
    let mut text = Vec::new(rt.alloc());
    let mut starts = Vec::new(rt.alloc());
    let mut seed = 1u32;
    for _ in 0..300 {
        starts.push(u32::try_from(text.len())?)?;
        seed = seed.wrapping_mul(1664525).wrapping_add(1013904223);
        for k in 0..1 + (seed >> 29) % 6 {
            text.push(b'a' + ((seed >> (8 + 2 * k)) % 4) as u8)?;
        }
    }
    starts.push(u32::try_from(text.len())?)?;
    let names = Names::check(&table, &text, &starts)?;
    let places = names.in_order(&table, rt.alloc())?;
    let inserted = inserted(rt.alloc(), &table, names, 300)?;
    assert_eq!(rt; places.as_slice(), inserted.as_slice());
    let catalogue = Catalogue::check(&table, &text, &starts, &places)?;
    for number in &places {
        let name = names.name(*number).unwrap_or(b"");
        let ask = name.get(..2).unwrap_or(name);
        let looked = filtered(rt.alloc(), &table, names, &places, ask)?;
        assert_eq!(rt; catalogue.find(ask), looked.as_slice());
    }
    Ok(())
}

// Each number is put behind the last name that is not after its own.
fn inserted(heap: Global, table: &Table, names: Names, count: u32) -> Result<Vec<u32>, Fail> {
    let mut list = Vec::new(heap);
    for number in 0..count {
        let name = names.name(number).unwrap_or(b"");
        let mut at = 0;
        for (k, other) in list.iter().enumerate() {
            if !table
                .compare(names.name(*other).unwrap_or(b""), name)
                .is_gt()
            {
                at = k + 1;
            }
        }
        list.insert(at.min(list.len()), number)?;
    }
    Ok(list)
}
