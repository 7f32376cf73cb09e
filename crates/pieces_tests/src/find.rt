// Runs that are found, and that are not.
use crate::list::add;
use pieces::{Long, LongRun, Ranked, Weights, find_long, place_for};
use std::alloc::{AllocError, Global};
use std::process::Abort;
use std::test::Fail;

fn three(first: u32, second: u32, third: u32) -> LongRun {
    LongRun {
        first,
        second,
        third,
        fourth: None,
    }
}

fn four(first: u32, second: u32, third: u32, fourth: u32) -> LongRun {
    LongRun {
        first,
        second,
        third,
        fourth: Some(fourth),
    }
}

// What the first of them weighs that is of these letters.
fn plain(longs: &[Long], run: LongRun) -> Option<Weights> {
    for long in longs {
        if long.run == run {
            return Some(long.weights);
        }
    }
    None
}

// How many have a lower rank.
fn plain_below(longs: &[Long], rank: u64) -> usize {
    longs.iter().filter(|long| long.rank() < rank).count()
}

// So many runs of three and of four letters, most of which begin like others, in no order; some are there twice.
fn many_longs(heap: Global, many: u32) -> Result<Vec<Long>, AllocError> {
    let mut longs = Vec::new(heap);
    for k in 0..many.min(1000) {
        let (a, b, c, d) = (k * 7 % 5, k % 3, k / 3 % 4, k / 5 % 3);
        let run = if k % 2 == 0 {
            three(a, b, c)
        } else {
            four(a, b, c, d)
        };
        let weights = Weights::from([k as u16, 1, 2]);
        add(&mut longs, Long { run, weights })?;
    }
    Ok(longs)
}

// Each run of letters below 6 is found, or is not, just as by a plain look.
fn hold(rt: &impl Abort, longs: &[Long]) {
    for k in 0..1296u32 {
        let (a, b, c, d) = (k % 6, k / 6 % 6, k / 36 % 6, k / 216);
        for run in [three(a, b, c), four(a, b, c, d)] {
            assert_eq!(rt; find_long(longs, run), plain(longs, run));
        }
    }
    for rank in 0..16u64 {
        assert_eq!(rt; place_for(longs, rank), plain_below(longs, rank));
    }
}

#[test]
fn beside_plain(rt: HostRuntime) -> Result<(), Fail> {
    for many in [0, 1, 2, 3, 10, 200] {
        let longs = many_longs(rt.alloc(), many)?;
        assert_eq!(rt; longs.len(), many as usize);
        hold(&rt, &longs);
    }
    Ok(())
}

// The front of a run, a run with one letter more, the greatest letters, and the first of two that are of the same letters.
#[test]
fn borders(rt: HostRuntime) -> Result<(), Fail> {
    let mut longs = Vec::new(rt.alloc());
    let runs = [
        four(7, 8, 9, 10),
        three(7, 8, 10),
        three(0, 0, 0),
        four(4294967295, 4294967295, 4294967295, 4294967295),
        three(4294967294, 1, 2),
        three(7, 8, 10),
    ];
    for (place, run) in runs.iter().enumerate() {
        let weights = Weights::from([place as u16, 0, 0]);
        add(&mut longs, Long { run: *run, weights })?;
    }
    let cases = [
        (four(7, 8, 9, 10), Some(0u16)),
        (three(7, 8, 10), Some(5)),
        (three(0, 0, 0), Some(2)),
        (
            four(4294967295, 4294967295, 4294967295, 4294967295),
            Some(3),
        ),
        (three(4294967294, 1, 2), Some(4)),
        (three(7, 8, 9), None),
        (four(7, 8, 10, 0), None),
        (four(7, 8, 9, 11), None),
        (four(7, 8, 8, 10), None),
        (four(7, 9, 9, 10), None),
        (four(6, 8, 9, 10), None),
        (four(0, 0, 0, 0), None),
        (three(4294967295, 4294967295, 4294967295), None),
        (four(4294967294, 1, 2, 0), None),
    ];
    for (run, primary) in cases {
        let weights = primary.map(|primary| Weights::from([primary, 0, 0]));
        assert_eq!(rt; find_long(&longs, run), weights);
    }
    Ok(())
}

// By the first letter, and of those that begin alike four letters before three.
#[test]
fn ranks(rt: HostRuntime) {
    let cases = [
        (four(0, 9, 9, 9), 0u64),
        (three(0, 0, 0), 1),
        (four(1, 0, 0, 0), 2),
        (three(1, 0, 0), 3),
        (four(7, 8, 9, 10), 14),
        (three(7, 9, 8), 15),
        (four(4294967295, 0, 0, 0), 8589934590),
        (three(4294967295, 0, 0), 8589934591),
    ];
    for (run, rank) in cases {
        let weights = Weights::from([1, 2, 3]);
        assert_eq!(rt; run.rank(), rank);
        assert_eq!(rt; Long { run, weights }.rank(), rank);
    }
}

// Whether two runs are the same letters.
#[test]
fn same(rt: HostRuntime) {
    let cases = [
        (three(1, 2, 3), three(1, 2, 3), true),
        (four(1, 2, 3, 4), four(1, 2, 3, 4), true),
        (three(1, 2, 3), four(1, 2, 3, 4), false),
        (three(1, 2, 3), four(1, 2, 3, 0), false),
        (four(1, 2, 3, 4), three(1, 2, 3), false),
        (four(1, 2, 3, 4), four(1, 2, 3, 5), false),
        (three(1, 2, 3), three(1, 2, 4), false),
        (three(1, 2, 3), three(1, 3, 3), false),
        (three(1, 2, 3), three(2, 2, 3), false),
        (three(1, 2, 3), three(3, 2, 1), false),
    ];
    for (one, other, same) in cases {
        assert_eq!(rt; one.is(other), same);
    }
}
