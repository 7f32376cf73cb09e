// Runs of letters that are one together.
use std::alloc::{AllocError, Global};
use std::fmt;
use table::{Long, LongRun, Pair, Run, Weights};

// Some letters, five at the most, and what they weigh together; as a run of a table they are two to four.
#[derive(Clone, Copy)]
pub(crate) struct Joined {
    all: [u32; 5],
    many: usize,
    pub(crate) weights: [u16; 3],
}

impl Joined {
    pub(crate) fn new(letters: &[u32], weights: [u16; 3]) -> Joined {
        let mut all = [0; 5];
        for (one, letter) in all.iter_mut().zip(letters) {
            *one = *letter;
        }
        Joined {
            all,
            many: letters.len().min(5),
            weights,
        }
    }

    pub(crate) fn letters(&self) -> &[u32] {
        self.all.get(..self.many).unwrap_or(&[])
    }

    // As it is lent.
    pub(crate) fn lent(&self) -> Run<'_> {
        Run {
            letters: self.letters(),
            weights: Weights::from(self.weights),
        }
    }

    // As a pair, if it is one.
    pub(crate) fn pair(&self) -> Option<Pair> {
        match self.letters() {
            [first, second] => Some(Pair {
                first: *first,
                second: *second,
                weights: Weights::from(self.weights),
            }),
            _ => None,
        }
    }

    // As three or four letters, if it is so many.
    pub(crate) fn long(&self) -> Option<Long> {
        let run = match self.letters() {
            [first, second, third] => LongRun {
                first: *first,
                second: *second,
                third: *third,
                fourth: None,
            },
            [first, second, third, fourth] => LongRun {
                first: *first,
                second: *second,
                third: *third,
                fourth: Some(*fourth),
            },
            _ => return None,
        };
        Some(Long {
            run,
            weights: Weights::from(self.weights),
        })
    }

    // Whether one is not in front of another in a list of longer runs: by its first letter, and then four letters before three.
    pub(crate) fn is_behind(&self, other: &Joined) -> bool {
        match (self.letters(), other.letters()) {
            ([one, ..], [two, ..]) if one != two => one > two,
            _ => self.many <= other.many,
        }
    }
}

// The letters of a longer run, and what they weigh.
impl From<Long> for Joined {
    fn from(long: Long) -> Joined {
        let Long { run, weights } = long;
        let weights = [weights.primary, weights.secondary, weights.tertiary];
        match run.fourth {
            Some(fourth) => Joined::new(&[run.first, run.second, run.third, fourth], weights),
            None => Joined::new(&[run.first, run.second, run.third], weights),
        }
    }
}

// Runs as they are lent.
pub(crate) fn lent(heap: Global, runs: &[Joined]) -> Result<Vec<Run<'_>>, AllocError> {
    let mut lent = Vec::new(heap);
    for run in runs {
        lent.push(run.lent())?;
    }
    Ok(lent)
}

impl fmt::Display for Joined {
    fn fmt<W: fmt::Write>(&self, f: &mut fmt::Formatter<W>) -> fmt::Result {
        let letters = self.letters();
        let weights = self.weights;
        write!(f, "{letters:?} {weights:?}")
    }
}
