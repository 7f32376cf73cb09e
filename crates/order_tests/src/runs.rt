// Names compared where up to four letters may be one.
use crate::compare::in_order;
use crate::entries::entry;
use keys::SortKeys;
use order::{Asked, Collate, Standing};
use std::alloc::{AllocError, Global};
use std::cmp::Ordering;
use std::process::Abort;
use std::test::Fail;
use table::{AddError, Long, LongRun, Pair, Table, TableBuf, Weights};

// What weighs so on the first level alone.
fn first(primary: u16) -> Weights {
    Weights::from([primary, 0, 0])
}

pub(crate) fn three(letters: [u32; 3], weights: Weights) -> Long {
    let [first, second, third] = letters;
    let run = LongRun {
        first,
        second,
        third,
        fourth: None,
    };
    Long { run, weights }
}

pub(crate) fn four(letters: [u32; 4], weights: Weights) -> Long {
    let [first, second, third, fourth] = letters;
    let run = LongRun {
        first,
        second,
        third,
        fourth: Some(fourth),
    };
    Long { run, weights }
}

// A table of bytes: a to z weigh their place in the alphabet, on the first level alone.
fn alphabet(heap: Global) -> Result<TableBuf, AddError> {
    let mut own = TableBuf::new(heap)?;
    for (letter, place) in (97..123).zip(1..27) {
        own.add_letter(entry(letter, [place, 0, 0]))?;
    }
    Ok(own)
}

// abcd is one, behind z.
fn with_four(heap: Global) -> Result<TableBuf, AddError> {
    let mut own = alphabet(heap)?;
    own.add_long(four([97, 98, 99, 100], first(100)))?;
    Ok(own)
}

// abc is one behind z, and ab behind that; bcd weighs as a.
fn with_three(heap: Global) -> Result<TableBuf, AddError> {
    let mut own = alphabet(heap)?;
    own.add_long(three([98, 99, 100], first(1)))?;
    own.add_pair(Pair {
        first: 97,
        second: 98,
        weights: first(50),
    })?;
    own.add_long(three([97, 98, 99], first(30)))?;
    Ok(own)
}

// Names that go on differently within a run, in front of one or behind it.
#[test]
fn cut_within_four(rt: HostRuntime) -> Result<(), Fail> {
    let own = with_four(rt.alloc())?;
    let names: [&[u8]; 19] = [
        b"",
        b"a",
        b"ab",
        b"abc",
        b"abce",
        b"abcz",
        b"abcabcd",
        b"abd",
        b"xabc",
        b"xabcabce",
        b"xabce",
        b"xabcabcd",
        b"xabd",
        b"xabcd",
        b"xabcdd",
        b"abcd",
        b"abcdabc",
        b"abcdz",
        b"abcdabcd",
    ];
    in_order(&rt, rt.alloc(), &own.table(), &names)?;
    in_order(&rt, rt.alloc(), &own.table().in_utf8(), &names)
}

// Both begin with ab, which is one in one of them, and part of a longer run in the other.
#[test]
fn cut_within_three(rt: HostRuntime) -> Result<(), Fail> {
    let own = with_three(rt.alloc())?;
    let names: [&[u8]; 17] = [
        b"", b"bcd", b"bcda", b"ax", b"xac", b"xabc", b"xabcd", b"xab", b"xabd", b"z", b"abc",
        b"abcbcd", b"abcd", b"abcab", b"ab", b"abbcd", b"abd",
    ];
    in_order(&rt, rt.alloc(), &own.table(), &names)?;
    in_order(&rt, rt.alloc(), &own.table().in_utf8(), &names)?;
    assert_eq!(rt; own.table().compare(b"bcd", b"a"), Ordering::Equal);
    assert_eq!(rt; own.table().compare(b"abbcd", b"aba"), Ordering::Equal);
    Ok(())
}

// All names of up to five letters a, b and c, each beside each: they stand as their keys do.
#[test]
fn all_names(rt: HostRuntime) -> Result<(), Fail> {
    let heap = rt.alloc();
    let mut own = alphabet(heap)?;
    for (one, other, weight) in [(97, 98, 9), (99, 99, 0)] {
        own.add_pair(Pair {
            first: one,
            second: other,
            weights: first(weight),
        })?;
    }
    own.add_long(three([97, 98, 99], first(2)))?;
    own.add_long(three([98, 98, 97], Weights::from([0, 3, 0])))?;
    own.add_long(four([97, 98, 99, 97], first(1)))?;
    own.add_long(four([98, 99, 97, 98], first(4)))?;
    own.add_long(four([99, 99, 97, 97], first(7)))?;
    let mut names: Vec<Vec<u8>> = Vec::new(heap);
    names.push(Vec::new(heap))?;
    // Each of up to four letters with one more.
    for place in 0..121usize {
        for letter in b"abc" {
            let mut name = Vec::new(heap);
            name.extend_from_slice(names.get(place).map_or(b"", |front| front.as_slice()))?;
            name.push(*letter)?;
            names.push(name)?;
        }
    }
    assert_eq!(rt; names.len(), 364);
    for table in [own.table(), own.table().in_utf8()] {
        let mut keys = Vec::new(heap);
        for name in &names {
            keys.push(table.sort_key(heap, name)?)?;
        }
        for (one, key) in names.iter().zip(&keys) {
            for (other, next) in names.iter().zip(&keys) {
                assert_eq!(rt; table.compare(one, other), key.cmp(next));
            }
        }
    }
    Ok(())
}

// What is asked, a name, and where it stands to it.
#[derive(Clone, Copy)]
struct Case(&'static [u8], &'static [u8], Standing);

fn hold(rt: &impl Abort, table: &Table, cases: &[Case]) {
    for case in cases {
        assert_eq!(rt; table.standing(case.1, case.0), case.2);
        assert_eq!(rt; Asked::new(table, case.0).standing(case.1), case.2);
    }
}

// A name that goes on within a run does not begin with the letters of its front.
#[test]
fn standings(rt: HostRuntime) -> Result<(), Fail> {
    let own = with_four(rt.alloc())?;
    for table in [own.table(), own.table().in_utf8()] {
        hold(
            &rt,
            &table,
            &[
                Case(b"abc", b"abc", Standing::Begins),
                Case(b"abc", b"abce", Standing::Begins),
                Case(b"abc", b"abcd", Standing::After),
                Case(b"a", b"abcd", Standing::After),
                Case(b"abcd", b"abcd", Standing::Begins),
                Case(b"abcd", b"abcda", Standing::Begins),
                Case(b"abcd", b"abc", Standing::Before),
                Case(b"abcd", b"abcabcd", Standing::Before),
                Case(b"abcabc", b"abcabc", Standing::Begins),
                Case(b"abcabc", b"abcabcd", Standing::After),
                Case(b"abcda", b"abcdabc", Standing::Begins),
                Case(b"abcda", b"abcdabcd", Standing::After),
                Case(b"bcd", b"abcd", Standing::After),
                Case(b"bcd", b"bcd", Standing::Begins),
            ],
        );
    }
    let own = with_three(rt.alloc())?;
    for table in [own.table(), own.table().in_utf8()] {
        hold(
            &rt,
            &table,
            &[
                Case(b"a", b"ab", Standing::After),
                Case(b"ab", b"abc", Standing::Before),
                Case(b"ab", b"abd", Standing::Begins),
                Case(b"ab", b"abbcd", Standing::Begins),
                Case(b"abc", b"abcd", Standing::Begins),
                Case(b"abc", b"ab", Standing::After),
                Case(b"abcd", b"abc", Standing::Before),
                Case(b"bc", b"bcd", Standing::Before),
                Case(b"a", b"bcd", Standing::Begins),
                Case(b"bcd", b"ax", Standing::Begins),
                Case(b"aba", b"abbcdz", Standing::Begins),
            ],
        );
    }
    Ok(())
}

// So many letters a, and an end.
fn with_end(heap: Global, many: usize, end: &[u8]) -> Result<Vec<u8>, AllocError> {
    let mut name = vec![in heap; b'a'; many]?;
    name.extend_from_slice(end)?;
    Ok(name)
}

// The row of a question of more than 32 letters is not stored: it is the same.
#[test]
fn long_questions(rt: HostRuntime) -> Result<(), Fail> {
    let heap = rt.alloc();
    let own = with_three(heap)?;
    for table in [own.table(), own.table().in_utf8()] {
        for many in 29..34 {
            for case in [
                Case(b"", b"z", Standing::Begins),
                Case(b"", b"b", Standing::After),
                Case(b"", b"bc", Standing::After),
                Case(b"b", b"bd", Standing::Begins),
                Case(b"b", b"bc", Standing::Before),
                Case(b"bc", b"bcd", Standing::Begins),
                Case(b"bc", b"b", Standing::After),
                Case(b"bcd", b"bc", Standing::Before),
            ] {
                let asked = with_end(heap, many, case.0)?;
                let name = with_end(heap, many, case.1)?;
                assert_eq!(rt; table.standing(&name, &asked), case.2);
                assert_eq!(rt; Asked::new(&table, &asked).standing(&name), case.2);
            }
        }
    }
    Ok(())
}
