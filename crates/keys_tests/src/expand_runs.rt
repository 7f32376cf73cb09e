// Letters that weigh as two or three, in runs and beside them.
use crate::expand::expansion;
use crate::numbers::{Case, hold};
use keys::{Level, Row, SortKeys};
use std::alloc::{AllocError, Global};
use std::process::Abort;
use std::test::Fail;
use table::{Letter, LetterEntry, Run, TableBuf, Weights};

// A run, and what it weighs on the first level.
#[derive(Clone, Copy)]
struct Joined(&'static [u32], u16);

// All weigh on the first level alone: a to z their place in the alphabet, 223 (C3 9F) as ss, 230 (C3 A6) as ae, 64259 (EF AC 83)
// as ffi, and runs what is said.
fn own(heap: Global, joined: &[Joined]) -> Result<TableBuf, Fail> {
    let mut letters = Vec::new(heap);
    for entry in [
        expansion(230, [1, 0, 0], [5, 0, 0], None),
        expansion(223, [19, 0, 0], [19, 0, 0], None),
        expansion(64259, [6, 0, 0], [6, 0, 0], Some([9, 0, 0])),
    ] {
        letters.push(entry)?;
    }
    for (letter, place) in (97..123).zip(1..27u16) {
        letters.push(LetterEntry::from(Letter {
            letter,
            weights: Weights::from([place, 0, 0]),
        }))?;
    }
    let mut runs = Vec::new(heap);
    for one in joined {
        runs.push(Run {
            letters: one.0,
            weights: Weights::from([one.1, 0, 0]),
        })?;
    }
    Ok(TableBuf::of(&letters, &runs, heap)?)
}

fn hold_runs(rt: &impl Abort, heap: Global, joined: &[Joined], cases: &[Case]) -> Result<(), Fail> {
    hold(rt, heap, &own(heap, joined)?.table(), cases)?;
    Ok(())
}

// A run with such a letter in it is taken as the run, wherever the letter stands in it.
#[test]
fn within(rt: HostRuntime) -> Result<(), Fail> {
    hold_runs(
        &rt,
        rt.alloc(),
        &[
            Joined(&[230, 104], 500),
            Joined(&[115, 223, 116], 600),
            Joined(&[230, 230, 230, 230], 700),
            Joined(&[223, 101], 800),
            Joined(&[97, 223, 101], 900),
            Joined(&[102, 64259], 1000),
        ],
        &[
            Case(b"\xc3\xa6h", &[500, 0, 0]),
            Case(b"s\xc3\x9ft", &[600, 0, 0]),
            Case(b"\xc3\xa6\xc3\xa6\xc3\xa6\xc3\xa6", &[700, 0, 0]),
            Case(b"\xc3\x9fe", &[800, 0, 0]),
            Case(b"a\xc3\x9fe", &[900, 0, 0]),
            Case(b"f\xef\xac\x83", &[1000, 0, 0]),
            // The front of a run, its end alone, and what it weighs as.
            Case(b"\xc3\xa6", &[1, 5, 0, 0]),
            Case(b"s\xc3\x9f", &[19, 19, 19, 0, 0]),
            Case(b"\xc3\x9ft", &[19, 19, 20, 0, 0]),
            Case(b"ssst", &[19, 19, 19, 20, 0, 0]),
            Case(b"\xc3\xa6\xc3\xa6\xc3\xa6", &[1, 5, 1, 5, 1, 5, 0, 0]),
            Case(b"a\xc3\x9f", &[1, 19, 19, 0, 0]),
            Case(b"\xef\xac\x83", &[6, 6, 9, 0, 0]),
            Case(b"fffi", &[6, 6, 6, 9, 0, 0]),
            Case(b"aeh", &[1, 5, 8, 0, 0]),
        ],
    )
}

// In front of a run, behind it, and between runs.
#[test]
fn beside(rt: HostRuntime) -> Result<(), Fail> {
    hold_runs(
        &rt,
        rt.alloc(),
        &[
            Joined(&[230, 104], 500),
            Joined(&[115, 116], 600),
            Joined(&[115, 116, 223], 700),
            Joined(&[230, 230, 230, 230], 800),
            Joined(&[105, 110], 900),
        ],
        &[
            Case(b"\xc3\xa6\xc3\xa6h", &[1, 5, 500, 0, 0]),
            Case(b"\xc3\xa6h\xc3\xa6", &[500, 1, 5, 0, 0]),
            Case(b"h\xc3\xa6h", &[8, 500, 0, 0]),
            Case(b"\xc3\x9fst", &[19, 19, 600, 0, 0]),
            Case(b"st\xc3\xa6", &[600, 1, 5, 0, 0]),
            Case(b"st\xef\xac\x83st", &[600, 6, 6, 9, 600, 0, 0]),
            Case(b"st\xc3\x9f", &[700, 0, 0]),
            Case(b"st\xc3\x9f\xc3\x9f", &[700, 19, 19, 0, 0]),
            Case(b"\xc3\x9fst\xc3\x9f", &[19, 19, 700, 0, 0]),
            Case(
                b"\xc3\xa6\xc3\xa6\xc3\xa6\xc3\xa6\xc3\xa6",
                &[800, 1, 5, 0, 0],
            ),
            Case(b"\xc3\xa6\xc3\xa6\xc3\xa6h", &[1, 5, 1, 5, 500, 0, 0]),
            Case(
                b"\xc3\xa6\xef\xac\x83\xc3\x9f",
                &[1, 5, 6, 6, 9, 19, 19, 0, 0],
            ),
            // The last s or i that a letter weighs as begins no run.
            Case(b"\xc3\x9ft", &[19, 19, 20, 0, 0]),
            Case(b"\xef\xac\x83n", &[6, 6, 9, 14, 0, 0]),
            Case(b"in\xef\xac\x83n", &[900, 6, 6, 9, 14, 0, 0]),
        ],
    )
}

// Runs that weigh nothing are passed over, the letters that expand in them too.
#[test]
fn weighs_nothing(rt: HostRuntime) -> Result<(), Fail> {
    hold_runs(
        &rt,
        rt.alloc(),
        &[Joined(&[223, 223], 0), Joined(&[230, 104, 230], 0)],
        &[
            Case(b"\xc3\x9f\xc3\x9f", &[0, 0]),
            Case(b"\xc3\x9f\xc3\x9f\xc3\x9f", &[19, 19, 0, 0]),
            Case(b"a\xc3\x9f\xc3\x9fa", &[1, 1, 0, 0]),
            Case(b"s\xc3\x9f\xc3\x9ft", &[19, 20, 0, 0]),
            Case(b"\xc3\xa6h\xc3\xa6\xc3\xa6h", &[1, 5, 8, 0, 0]),
            Case(b"\xc3\xa6\xc3\x9f\xc3\x9f\xc3\xa6", &[1, 5, 1, 5, 0, 0]),
        ],
    )
}

// Runs, a name, the same written out, and whether both have the same first row.
#[derive(Clone, Copy)]
struct Written(&'static [Joined], &'static [u8], &'static [u8], bool);

// So it is unless a run has the letter, or some of what is written for it.
#[test]
fn written_out(rt: HostRuntime) -> Result<(), Fail> {
    let heap = rt.alloc();
    for case in [
        Written(&[], b"\xc3\xa6", b"ae", true),
        Written(&[], b"c\xc3\xa6h", b"caeh", true),
        Written(&[Joined(&[101, 104], 500)], b"\xc3\xa6h", b"aeh", false),
        Written(&[Joined(&[230, 104], 500)], b"\xc3\xa6h", b"aeh", false),
        Written(&[Joined(&[99, 97], 500)], b"c\xc3\xa6", b"cae", false),
        Written(&[Joined(&[97, 101], 500)], b"\xc3\xa6", b"ae", false),
        Written(
            &[Joined(&[101, 104, 104], 500)],
            b"\xc3\xa6hh",
            b"aehh",
            false,
        ),
        Written(
            &[Joined(&[99, 97, 101, 104], 500)],
            b"c\xc3\xa6h",
            b"caeh",
            false,
        ),
        Written(
            &[Joined(&[101, 97], 500)],
            b"\xc3\xa6\xc3\xa6",
            b"aeae",
            false,
        ),
        // The runs are not met in these names.
        Written(&[Joined(&[101, 104], 500)], b"c\xc3\xa6", b"cae", true),
        Written(&[Joined(&[230, 104], 500)], b"c\xc3\xa6", b"cae", true),
        Written(&[Joined(&[99, 97], 500)], b"\xc3\xa6h", b"aeh", true),
        Written(&[Joined(&[101, 104, 104], 500)], b"\xc3\xa6h", b"aeh", true),
        Written(&[Joined(&[99, 104], 500)], b"c\xc3\xa6h", b"caeh", true),
        // They are met beside the letter.
        Written(&[Joined(&[99, 104], 500)], b"ch\xc3\xa6ch", b"chaech", true),
        Written(
            &[Joined(&[104, 104, 104], 500)],
            b"\xc3\xa6hhh",
            b"aehhh",
            true,
        ),
        // One is met beside it and one in what is written; and letters that weigh as ffi or ss.
        Written(
            &[Joined(&[99, 104], 500), Joined(&[101, 99], 600)],
            b"ch\xc3\xa6ch",
            b"chaech",
            false,
        ),
        Written(
            &[Joined(&[105, 110], 500)],
            b"\xef\xac\x83n",
            b"ffin",
            false,
        ),
        Written(&[Joined(&[102, 102], 500)], b"\xef\xac\x83", b"ffi", false),
        Written(
            &[Joined(&[110, 105], 500)],
            b"ni\xef\xac\x83",
            b"niffi",
            true,
        ),
        Written(&[Joined(&[115, 115], 500)], b"a\xc3\x9f", b"ass", false),
        Written(
            &[Joined(&[97, 115, 116], 500)],
            b"a\xc3\x9ft",
            b"asst",
            true,
        ),
    ] {
        hold_written(&rt, heap, case)?;
    }
    Ok(())
}

// The same with another run elsewhere in the name, in front of it or behind.
fn hold_written(rt: &impl Abort, heap: Global, case: Written) -> Result<(), Fail> {
    let Written(some, name, written, same) = case;
    let mut joined = Vec::new(heap);
    joined.extend_from_slice(some)?;
    joined.push(Joined(&[122, 122, 122], 900))?;
    let own = own(heap, &joined)?;
    let table = own.table();
    let beside: [&[u8]; 2] = [b"", b"zzz"];
    for front in beside {
        for behind in beside {
            let short = whole(heap, front, name, behind)?;
            let long = whole(heap, front, written, behind)?;
            let row = Row::new(&table, Level::Primary, &short);
            assert_eq!(rt; row.eq(Row::new(&table, Level::Primary, &long)), same);
            let key = table.sort_key(heap, &short)?;
            let other = table.sort_key(heap, &long)?;
            assert_eq!(rt; key.as_slice() == other.as_slice(), same);
        }
    }
    Ok(())
}

// A name with something in front of it and behind.
fn whole(heap: Global, front: &[u8], name: &[u8], behind: &[u8]) -> Result<Vec<u8>, AllocError> {
    let mut all = Vec::new(heap);
    for part in [front, name, behind] {
        all.extend_from_slice(part)?;
    }
    Ok(all)
}
