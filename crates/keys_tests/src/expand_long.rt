// Names of more triples than letters: short ones that are read in one go, and the longest.
use crate::expand::expansion;
use crate::numbers::hold_key;
use keys::{KeyError, NameRefusal, SortKeys};
use std::alloc::{AllocError, Global};
use std::process::Abort;
use std::test::Fail;
use table::{AddError, Letter, LetterEntry, Table, TableBuf, Weights};

// A part of a name, and what it weighs.
#[derive(Clone, Copy)]
struct Part(&'static [u8], &'static [[u32; 3]]);

const ONE: Part = Part(b"a", &[[10, 11, 12]]);

const TWO: Part = Part(b"\"", &[[1, 2, 3], [4, 5, 6]]);

const THREE: Part = Part(b"&", &[[1, 2, 3], [4, 5, 6], [7, 8, 9]]);
// The triple between weighs nothing.
const GAP: Part = Part(b"%", &[[1, 2, 3], [7, 8, 9]]);

const NOTHING: Part = Part(b"x", &[]);

const TWO_BYTES: Part = Part(b"\xc3\xbf", &[[1, 2, 3], [4, 5, 6], [7, 8, 9]]);

const THREE_BYTES: Part = Part(b"\xef\xac\x83", &[[1, 2, 3], [0, 5, 0], [7, 0, 9]]);

// Those of one byte in a table of bytes or of names in UTF-8.
fn add_letters(table: &mut TableBuf) -> Result<(), AddError> {
    for entry in [
        LetterEntry::from(Letter {
            letter: 97,
            weights: Weights::from([10, 11, 12]),
        }),
        expansion(34, [1, 2, 3], [4, 5, 6], None),
        expansion(38, [1, 2, 3], [4, 5, 6], Some([7, 8, 9])),
        expansion(37, [1, 2, 3], [0, 0, 0], Some([7, 8, 9])),
    ] {
        table.add_letter(entry)?;
    }
    Ok(())
}

fn own(heap: Global) -> Result<TableBuf, AddError> {
    let mut own = TableBuf::in_utf8(heap)?;
    add_letters(&mut own)?;
    own.add_letter(expansion(255, [1, 2, 3], [4, 5, 6], Some([7, 8, 9])))?;
    own.add_letter(expansion(64259, [1, 2, 3], [0, 5, 0], Some([7, 0, 9])))?;
    Ok(own)
}

// The first part so many times, and the others behind it.
fn parts_of(
    heap: Global,
    first: Part,
    times: usize,
    others: &[Part],
) -> Result<Vec<Part>, AllocError> {
    let mut parts = vec![in heap; first; times]?;
    parts.extend_from_slice(others)?;
    Ok(parts)
}

fn name_of(heap: Global, parts: &[Part]) -> Result<Vec<u8>, AllocError> {
    let mut name = Vec::new(heap);
    for part in parts {
        name.extend_from_slice(part.0)?;
    }
    Ok(name)
}

// What the parts weigh, level by level.
fn key_of(heap: Global, parts: &[Part]) -> Result<Vec<u32>, AllocError> {
    let mut key = Vec::new(heap);
    for level in 0..3usize {
        if level > 0 {
            key.push(0)?;
        }
        for part in parts {
            for triple in part.1 {
                if triple[level] != 0 {
                    key.push(triple[level])?;
                }
            }
        }
    }
    Ok(key)
}

fn hold_parts(rt: &impl Abort, heap: Global, table: &Table, parts: &[Part]) -> Result<(), Fail> {
    let name = name_of(heap, parts)?;
    let key = key_of(heap, parts)?;
    hold_key(rt, heap, table, &name, &key)
}

// Names of up to 32 bytes and more, of up to 32 triples and more: it is the same.
#[test]
fn short_names(rt: HostRuntime) -> Result<(), Fail> {
    let heap = rt.alloc();
    let mut bytes = TableBuf::new(heap)?;
    add_letters(&mut bytes)?;
    let ends: [&[Part]; 6] = [
        &[],
        &[ONE],
        &[ONE, ONE],
        &[NOTHING, NOTHING, TWO],
        &[THREE, NOTHING],
        &[GAP, ONE],
    ];
    for first in [ONE, TWO, THREE, GAP] {
        for times in 0..35 {
            for end in ends {
                let parts = parts_of(heap, first, times, end)?;
                hold_parts(&rt, heap, &bytes.table(), &parts)?;
                hold_parts(&rt, heap, &bytes.table().in_utf8(), &parts)?;
            }
        }
    }
    Ok(())
}

// The same of letters of several bytes.
#[test]
fn short_wide_names(rt: HostRuntime) -> Result<(), Fail> {
    let heap = rt.alloc();
    let own = own(heap)?;
    let ends: [&[Part]; 5] = [
        &[],
        &[ONE, ONE],
        &[ONE, ONE, ONE],
        &[TWO_BYTES],
        &[NOTHING, THREE_BYTES],
    ];
    for first in [TWO_BYTES, THREE_BYTES] {
        for times in 0..18 {
            for end in ends {
                let parts = parts_of(heap, first, times, end)?;
                hold_parts(&rt, heap, &own.table(), &parts)?;
            }
        }
    }
    Ok(())
}

// The parts of a name, how many bytes it has, and how many triples.
#[derive(Clone, Copy)]
struct Case(Part, usize, &'static [Part], usize, usize);

// Exactly as many triples as there is place for, and one more, each in a name of few bytes.
#[test]
fn most_triples(rt: HostRuntime) -> Result<(), Fail> {
    let heap = rt.alloc();
    let own = own(heap)?;
    for Case(first, times, end, bytes, triples) in [
        Case(THREE, 10, &[TWO], 11, 32),
        Case(THREE, 11, &[], 11, 33),
        Case(TWO, 16, &[], 16, 32),
        Case(GAP, 16, &[ONE], 17, 33),
        Case(TWO_BYTES, 10, &[TWO], 21, 32),
        Case(TWO_BYTES, 10, &[THREE], 21, 33),
    ] {
        let parts = parts_of(heap, first, times, end)?;
        assert_eq!(rt; name_of(heap, &parts)?.len(), bytes);
        assert_eq!(rt; key_of(heap, &parts)?.len(), 3 * triples + 2);
        hold_parts(&rt, heap, &own.table(), &parts)?;
    }
    Ok(())
}

// 1,000 letters that weigh as three have rows of 3,000 numbers; 1,001 are not taken.
#[test]
fn longest_name(rt: HostRuntime) -> Result<(), Fail> {
    let heap = rt.alloc();
    let own = own(heap)?;
    let table = own.table();
    for (part, numbers) in [
        (THREE, 9002),
        (TWO_BYTES, 9002),
        (TWO, 6002),
        (GAP, 6002),
        (THREE_BYTES, 6002),
        (ONE, 3002),
        (NOTHING, 2),
    ] {
        let mut parts = parts_of(heap, part, 1000, &[])?;
        assert_eq!(rt; key_of(heap, &parts)?.len(), numbers);
        hold_parts(&rt, heap, &table, &parts)?;
        parts.push(part)?;
        let name = name_of(heap, &parts)?;
        assert_eq!(rt;
            table.sort_key(heap, &name).err(),
            Some(KeyError::Refused(NameRefusal::TooLong(1001)))
        );
    }
    Ok(())
}

// More room than a key needs is left as it was behind it.
#[test]
fn more_room(rt: HostRuntime) -> Result<(), Fail> {
    let heap = rt.alloc();
    let own = own(heap)?;
    let parts = parts_of(heap, THREE, 1000, &[])?;
    let name = name_of(heap, &parts)?;
    let key = key_of(heap, &parts)?;
    for room in [9003usize, 9010] {
        let mut room = vec![in heap; 70000u32; room]?;
        assert_eq!(rt; own.table().write_key(&name, &mut room), Ok(9002));
        assert!(rt; room.starts_with(&key));
        assert!(rt; room.iter().skip(9002).all(|number| *number == 70000));
    }
    Ok(())
}
