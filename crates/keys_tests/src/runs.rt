// Runs of two, three and four letters: the longest that is met counts.
use crate::numbers::{Case, hold, hold_key};
use std::alloc::Global;
use std::process::Abort;
use std::test::Fail;
use table::{AddError, Letter, Long, LongRun, Pair, TableBuf, Weights};

// A run, and what it weighs on the first level.
#[derive(Clone, Copy)]
struct Joined(&'static [u8], u16);

// A table of bytes: a to z weigh their place in the alphabet, on the first level alone, and runs what is said.
fn own(heap: Global, runs: &[Joined]) -> Result<TableBuf, AddError> {
    let mut own = TableBuf::new(heap)?;
    for (letter, place) in (97..123).zip(1..27) {
        own.add_letter(Letter {
            letter,
            weights: Weights::from([place, 0, 0]),
        }
        .into())?;
    }
    for run in runs {
        add_run(&mut own, run.0, [run.1, 0, 0])?;
    }
    Ok(own)
}

// A run more.
fn add_run(own: &mut TableBuf, letters: &[u8], weights: [u16; 3]) -> Result<(), AddError> {
    let weights = Weights::from(weights);
    match letters {
        [first, second] => own.add_pair(Pair {
            first: u32::from(*first),
            second: u32::from(*second),
            weights,
        }),
        [first, second, third, rest @ ..] => own.add_long(Long {
            run: LongRun {
                first: u32::from(*first),
                second: u32::from(*second),
                third: u32::from(*third),
                fourth: rest.first().map(|fourth| u32::from(*fourth)),
            },
            weights,
        }),
        _ => Ok(()),
    }
}

// The same of names that are bytes and of those in UTF-8, in whatever order the runs came.
fn hold_both(rt: &impl Abort, heap: Global, runs: &[Joined], cases: &[Case]) -> Result<(), Fail> {
    hold_table(rt, heap, &own(heap, runs)?, cases)?;
    let mut turned = Vec::new(heap);
    for run in runs.iter().rev() {
        turned.push(*run)?;
    }
    hold_table(rt, heap, &own(heap, &turned)?, cases)
}

fn hold_table(rt: &impl Abort, heap: Global, own: &TableBuf, cases: &[Case]) -> Result<(), Fail> {
    hold(rt, heap, &own.table(), cases)?;
    hold(rt, heap, &own.table().in_utf8(), cases)?;
    Ok(())
}

// As in Hungarian: dz, and dzs.
#[test]
fn front_of_another(rt: HostRuntime) -> Result<(), Fail> {
    hold_both(
        &rt,
        rt.alloc(),
        &[Joined(b"dz", 100), Joined(b"dzs", 200)],
        &[
            Case(b"", &[0, 0]),
            Case(b"d", &[4, 0, 0]),
            Case(b"dz", &[100, 0, 0]),
            Case(b"dzs", &[200, 0, 0]),
            Case(b"ddzs", &[4, 200, 0, 0]),
            Case(b"dzz", &[100, 26, 0, 0]),
            Case(b"dzsz", &[200, 26, 0, 0]),
            Case(b"ds", &[4, 19, 0, 0]),
            Case(b"zs", &[26, 19, 0, 0]),
            Case(b"dds", &[4, 4, 19, 0, 0]),
            Case(b"dzd", &[100, 4, 0, 0]),
            Case(b"dzdz", &[100, 100, 0, 0]),
            Case(b"dzdzs", &[100, 200, 0, 0]),
            Case(b"dzsdz", &[200, 100, 0, 0]),
            Case(b"dzss", &[200, 19, 0, 0]),
            Case(b"dZs", &[4, 19, 0, 0]),
        ],
    )
}

// What a run took is not there for another.
#[test]
fn runs_that_lap_over(rt: HostRuntime) -> Result<(), Fail> {
    hold_both(
        &rt,
        rt.alloc(),
        &[Joined(b"ab", 100), Joined(b"bcd", 200), Joined(b"abc", 300)],
        &[
            Case(b"abcd", &[300, 4, 0, 0]),
            Case(b"bcd", &[200, 0, 0]),
            Case(b"abbcd", &[100, 200, 0, 0]),
            Case(b"aabcd", &[1, 300, 4, 0, 0]),
            Case(b"abcbcd", &[300, 200, 0, 0]),
            Case(b"bbcd", &[2, 200, 0, 0]),
            Case(b"bcbcd", &[2, 3, 200, 0, 0]),
            Case(b"abab", &[100, 100, 0, 0]),
            Case(b"abd", &[100, 4, 0, 0]),
            Case(b"bcabcd", &[2, 3, 300, 4, 0, 0]),
        ],
    )
}

// A shorter run is taken where the longer one is not met.
#[test]
fn pair_and_four(rt: HostRuntime) -> Result<(), Fail> {
    hold_both(
        &rt,
        rt.alloc(),
        &[Joined(b"ab", 100), Joined(b"abcd", 200)],
        &[
            Case(b"abcabcd", &[100, 3, 200, 0, 0]),
            Case(b"abcd", &[200, 0, 0]),
            Case(b"abc", &[100, 3, 0, 0]),
            Case(b"abce", &[100, 3, 5, 0, 0]),
            Case(b"abcdd", &[200, 4, 0, 0]),
            Case(b"ababcd", &[100, 200, 0, 0]),
            Case(b"abdc", &[100, 4, 3, 0, 0]),
            Case(b"bcd", &[2, 3, 4, 0, 0]),
            Case(b"abcdabcd", &[200, 200, 0, 0]),
        ],
    )
}

// All lengths, each run the front of the next.
#[test]
fn all_lengths(rt: HostRuntime) -> Result<(), Fail> {
    hold_both(
        &rt,
        rt.alloc(),
        &[
            Joined(b"ab", 100),
            Joined(b"abc", 200),
            Joined(b"abcd", 300),
        ],
        &[
            Case(b"a", &[1, 0, 0]),
            Case(b"ab", &[100, 0, 0]),
            Case(b"abc", &[200, 0, 0]),
            Case(b"abcd", &[300, 0, 0]),
            Case(b"abd", &[100, 4, 0, 0]),
            Case(b"acd", &[1, 3, 4, 0, 0]),
            Case(b"abcc", &[200, 3, 0, 0]),
            Case(b"abcabcdab", &[200, 300, 100, 0, 0]),
            Case(b"abcdcd", &[300, 3, 4, 0, 0]),
            Case(b"aabaabcaabcd", &[1, 100, 1, 200, 1, 300, 0, 0]),
        ],
    )
}

// A name may end within a run; no shorter one is there then.
#[test]
fn name_ends_within(rt: HostRuntime) -> Result<(), Fail> {
    hold_both(
        &rt,
        rt.alloc(),
        &[Joined(b"dzs", 100), Joined(b"abcd", 200)],
        &[
            Case(b"dz", &[4, 26, 0, 0]),
            Case(b"d", &[4, 0, 0]),
            Case(b"dzd", &[4, 26, 4, 0, 0]),
            Case(b"dzdzs", &[4, 26, 100, 0, 0]),
            Case(b"abc", &[1, 2, 3, 0, 0]),
            Case(b"ab", &[1, 2, 0, 0]),
            Case(b"abcabcd", &[1, 2, 3, 200, 0, 0]),
            Case(b"abcdabc", &[200, 1, 2, 3, 0, 0]),
            Case(b"abcdz", &[200, 26, 0, 0]),
        ],
    )
}

// Runs of one letter, and such as begin alike.
#[test]
fn same_letters(rt: HostRuntime) -> Result<(), Fail> {
    hold_both(
        &rt,
        rt.alloc(),
        &[Joined(b"aa", 100), Joined(b"aaa", 200)],
        &[
            Case(b"aa", &[100, 0, 0]),
            Case(b"aaa", &[200, 0, 0]),
            Case(b"aaaa", &[200, 1, 0, 0]),
            Case(b"aaaaa", &[200, 100, 0, 0]),
            Case(b"aaaaaa", &[200, 200, 0, 0]),
            Case(b"aabaaa", &[100, 2, 200, 0, 0]),
        ],
    )?;
    hold_both(
        &rt,
        rt.alloc(),
        &[
            Joined(b"abca", 100),
            Joined(b"abcb", 200),
            Joined(b"abd", 300),
            Joined(b"acb", 400),
            Joined(b"acbb", 500),
            Joined(b"ad", 600),
            Joined(b"bca", 700),
        ],
        &[
            Case(b"abca", &[100, 0, 0]),
            Case(b"abcb", &[200, 0, 0]),
            Case(b"abcc", &[1, 2, 3, 3, 0, 0]),
            Case(b"abd", &[300, 0, 0]),
            Case(b"abdd", &[300, 4, 0, 0]),
            Case(b"acbb", &[500, 0, 0]),
            Case(b"acba", &[400, 1, 0, 0]),
            Case(b"acab", &[1, 3, 1, 2, 0, 0]),
            Case(b"adbca", &[600, 700, 0, 0]),
            Case(b"abcbca", &[200, 3, 1, 0, 0]),
            Case(b"bcab", &[700, 2, 0, 0]),
        ],
    )
}

// A run that weighs nothing is passed over, its letters too; one may count on a single level.
#[test]
fn weighs_nothing(rt: HostRuntime) -> Result<(), Fail> {
    let heap = rt.alloc();
    let mut own = own(
        heap,
        &[Joined(b"ab", 100), Joined(b"abc", 0), Joined(b"bcd", 200)],
    )?;
    add_run(&mut own, b"zzz", [0, 0, 7])?;
    add_run(&mut own, b"zzzz", [0, 8, 0])?;
    let cases = [
        Case(b"abc", &[0, 0]),
        Case(b"ab", &[100, 0, 0]),
        Case(b"abcabcabc", &[0, 0]),
        Case(b"abcd", &[4, 0, 0]),
        Case(b"abcbcd", &[200, 0, 0]),
        Case(b"dabcab", &[4, 100, 0, 0]),
        Case(b"abcabd", &[100, 4, 0, 0]),
        Case(b"zz", &[26, 26, 0, 0]),
        Case(b"zzz", &[0, 0, 7]),
        Case(b"zzzz", &[0, 8, 0]),
        Case(b"zzzzz", &[26, 0, 8, 0]),
        Case(b"zzzzzzz", &[0, 8, 0, 7]),
        Case(b"abczzzabc", &[0, 0, 7]),
    ];
    hold_table(&rt, heap, &own, &cases)
}

// A name of a part so many times and an end: its key is of what these weigh.
fn hold_times(
    rt: &impl Abort,
    heap: Global,
    own: &TableBuf,
    part: (&[u8], &[u32]),
    times: usize,
    end: (&[u8], &[u32]),
) -> Result<(), Fail> {
    let mut name = Vec::new(heap);
    let mut key = Vec::new(heap);
    for _ in 0..times {
        name.extend_from_slice(part.0)?;
        key.extend_from_slice(part.1)?;
    }
    name.extend_from_slice(end.0)?;
    key.extend_from_slice(end.1)?;
    key.extend_from_slice(&[0, 0])?;
    for table in [own.table(), own.table().in_utf8()] {
        hold_key(rt, heap, &table, &name, &key)?;
    }
    Ok(())
}

// Names of up to 32 letters are read in one go, and longer ones row by row: it is the same.
#[test]
fn long_names(rt: HostRuntime) -> Result<(), Fail> {
    let heap = rt.alloc();
    let own = own(
        heap,
        &[
            Joined(b"dz", 100),
            Joined(b"dzs", 200),
            Joined(b"abcd", 300),
        ],
    )?;
    for times in 24..40 {
        for end in [
            (b"".as_slice(), [].as_slice()),
            (b"d", &[4]),
            (b"dz", &[100]),
            (b"dzs", &[200]),
            (b"dzsd", &[200, 4]),
            (b"abc", &[1, 2, 3]),
            (b"abcd", &[300]),
            (b"abcabcd", &[1, 2, 3, 300]),
        ] {
            hold_times(&rt, heap, &own, (b"a", &[1]), times, end)?;
        }
    }
    for times in [7, 8, 9, 250] {
        hold_times(&rt, heap, &own, (b"ddzs", &[4, 200]), times, (b"", &[]))?;
        hold_times(&rt, heap, &own, (b"abcd", &[300]), times, (b"", &[]))?;
        hold_times(&rt, heap, &own, (b"dz", &[100]), times, (b"dzs", &[200]))?;
    }
    Ok(())
}
