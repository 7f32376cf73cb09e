// Names compared, and asked for, where letters weigh as two or three.
use crate::compare::in_order;
use crate::entries::several;
use keys::{Level, Row, SortKeys};
use order::{Asked, Collate, Standing};
use std::alloc::{AllocError, Global};
use std::cmp::Ordering;
use std::test::Fail;
use table::{AddError, TableBuf};

// a, e, s and t, and 223 (C3 9F), which weighs so.
fn own(heap: Global, triples: &[[u16; 3]]) -> Result<TableBuf, AddError> {
    let mut own = TableBuf::in_utf8(heap)?;
    for (letter, primary) in [(97, 1), (101, 2), (115, 4), (116, 5)] {
        own.add_letter(several(letter, &[[primary, 1, 1]]))?;
    }
    own.add_letter(several(223, triples))?;
    Ok(own)
}

// Those with the letter stand right behind the same names with ss, by the second level or by the third.
#[test]
fn told_apart(rt: HostRuntime) -> Result<(), Fail> {
    let heap = rt.alloc();
    for triples in [
        [[4, 1, 1], [4, 1, 2]].as_slice(),
        &[[4, 1, 1], [4, 2, 1]],
        &[[4, 1, 1], [0, 3, 0], [4, 1, 1]],
        &[[4, 1, 1], [4, 1, 1], [0, 0, 3]],
    ] {
        let own = own(heap, triples)?;
        in_order(
            &rt,
            heap,
            &own.table(),
            &[
                b"",
                b"a",
                b"as",
                b"ass",
                b"a\xc3\x9f",
                b"assa",
                b"a\xc3\x9fa",
                b"asse",
                b"a\xc3\x9fe",
                b"asss",
                b"as\xc3\x9f",
                b"a\xc3\x9fs",
                b"ast",
                b"at",
                b"s",
                b"ss",
                b"\xc3\x9f",
                b"st",
                b"t\xc3\x9f",
            ],
        )?;
    }
    Ok(())
}

// With no weight that tells them apart neither is before the other.
#[test]
fn same_keys(rt: HostRuntime) -> Result<(), Fail> {
    let own = own(rt.alloc(), &[[4, 1, 1], [0, 0, 0], [4, 1, 1]])?;
    let table = own.table();
    let names: [(&[u8], &[u8]); 5] = [
        (b"ss", b"\xc3\x9f"),
        (b"asse", b"a\xc3\x9fe"),
        (b"asss", b"as\xc3\x9f"),
        (b"as\xc3\x9f", b"a\xc3\x9fs"),
        (b"\xc3\x9f\xc3\x9f", b"s\xc3\x9fs"),
    ];
    for (one, other) in names {
        assert_eq!(rt; table.compare(one, other), Ordering::Equal);
        assert_eq!(rt; table.compare(other, one), Ordering::Equal);
    }
    assert_eq!(rt; table.compare(b"as", b"a\xc3\x9f"), Ordering::Less);
    assert_eq!(rt; table.compare(b"a\xc3\x9f", b"at"), Ordering::Less);
    Ok(())
}

// What is asked, a name, and where it stands to it.
#[derive(Clone, Copy)]
struct Case(&'static [u8], &'static [u8], Standing);

#[test]
fn standings(rt: HostRuntime) -> Result<(), Fail> {
    let own = own(rt.alloc(), &[[4, 1, 1], [4, 1, 2]])?;
    let table = own.table();
    for case in [
        Case(b"as", b"a\xc3\x9f", Standing::Begins),
        Case(b"ass", b"a\xc3\x9f", Standing::Begins),
        Case(b"a\xc3\x9f", b"ass", Standing::Begins),
        Case(b"a\xc3\x9f", b"asse", Standing::Begins),
        Case(b"a\xc3\x9f", b"as", Standing::Before),
        Case(b"a\xc3\x9fe", b"asse", Standing::Begins),
        Case(b"a\xc3\x9fe", b"assa", Standing::Before),
        Case(b"a\xc3\x9fa", b"asse", Standing::After),
        Case(b"as", b"at", Standing::After),
        Case(b"\xc3\x9f", b"s", Standing::Before),
        Case(b"s", b"\xc3\x9f", Standing::Begins),
        Case(b"s\xc3\x9f", b"\xc3\x9fs", Standing::Begins),
        Case(b"\xc3\x9f\xc3\x9f", b"s\xc3\x9fs", Standing::Begins),
        Case(b"\xc3\x9f\xc3\x9f", b"s\xc3\x9f", Standing::Before),
        Case(b"\xc3\x9ft", b"\xc3\x9fs", Standing::Before),
        Case(b"\xc3\x9fs", b"sst", Standing::After),
    ] {
        assert_eq!(rt; table.standing(case.1, case.0), case.2);
        assert_eq!(rt; Asked::new(&table, case.0).standing(case.1), case.2);
    }
    Ok(())
}

// A question: so many of each of these letters, one behind the other, and how many weights its row has.
#[derive(Clone, Copy)]
struct Long(&'static [(u8, usize)], usize);

// Questions of up to 32 bytes whose rows have more weights than bytes: 32, which are stored, and more, which are not.
#[test]
fn rows_longer_than_names(rt: HostRuntime) -> Result<(), Fail> {
    let heap = rt.alloc();
    let mut own = TableBuf::new(heap)?;
    let weights: [(u8, &[u16]); 6] = [
        (b'a', &[1]),
        (b'v', &[1, 2]),
        (b'w', &[1, 2, 3]),
        (b'x', &[1, 3]),
        (b'y', &[1, 2, 4]),
        (b'z', &[9]),
    ];
    for (letter, primaries) in weights {
        let mut triples = [[0, 1, 1]; 3];
        for (triple, primary) in triples.iter_mut().zip(primaries) {
            *triple = [*primary, 1, 1];
        }
        let triples = triples.get(..primaries.len()).unwrap_or(&[]);
        own.add_letter(several(letter as u32, triples))?;
    }
    for table in [own.table(), own.table().in_utf8()] {
        for case in [
            Long(&[(b'w', 10), (b'a', 1)], 31),
            Long(&[(b'w', 10), (b'v', 1)], 32),
            Long(&[(b'w', 11)], 33),
            Long(&[(b'a', 32)], 32),
            Long(&[(b'.', 16), (b'v', 16)], 32),
            Long(&[(b'a', 31), (b'v', 1)], 33),
            Long(&[(b'a', 31), (b'w', 1)], 34),
            Long(&[(b'w', 32)], 96),
            Long(&[(b'a', 33)], 33),
            Long(&[(b'w', 33)], 99),
        ] {
            let asked = spelled(heap, case.0)?;
            let mut many = 0usize;
            for _ in Row::new(&table, Level::Primary, &asked) {
                many = many.saturating_add(1);
            }
            assert_eq!(rt; many, case.1);
            let front = asked.get(..asked.len().saturating_sub(1)).unwrap_or(&[]);
            // Letters that weigh the same but for the last weight, which is missing, or larger.
            let ends: [&[u8]; 2] = match asked.last() {
                Some(b'w') => [b"v", b"y"],
                Some(b'v') => [b"a", b"x"],
                _ => [b".", b"z"],
            };
            let [less, more] = ends;
            let last = asked.get(front.len()..).unwrap_or(&[]);
            for (end, standing) in [
                (last, Standing::Begins),
                (less, Standing::Before),
                (more, Standing::After),
                (b"".as_slice(), Standing::Before),
            ] {
                let mut name = front.to_vec(heap)?;
                name.extend_from_slice(end)?;
                assert_eq!(rt; table.standing(&name, &asked), standing);
                assert_eq!(rt; Asked::new(&table, &asked).standing(&name), standing);
                if standing == Standing::Begins {
                    name.push(b'w')?;
                    assert_eq!(rt; Asked::new(&table, &asked).standing(&name), standing);
                }
            }
        }
    }
    Ok(())
}

// So many of each letter.
fn spelled(heap: Global, letters: &[(u8, usize)]) -> Result<Vec<u8>, AllocError> {
    let mut name = Vec::new(heap);
    for (letter, many) in letters {
        for _ in 0..*many {
            name.push(*letter)?;
        }
    }
    Ok(name)
}
