// What a letter weighs, and letters that are one together.
ghost use Rattle.std.specs.Prelude.{◌≡◌};
ghost use Rattle.std.specs.List.{list_any};
ghost use Rattle.pieces.specs.declared.piece.Triples.TheVariants.{One, Several};
ghost use Rattle.pieces.specs.Runs.{counts, counts_some, expanded, expansion_rank, letter_rank, long_letters, long_rank, rank_of, same_run, weights_at};

use crate::ranks::Ranked;

// A weight for each level; 0 is a level on which it doesn't count.
#[derive(Clone, Copy, PartialEq, Eq, Debug)]
pub struct Weights {
    pub primary: u16,
    pub secondary: u16,
    pub tertiary: u16,
}

impl Weights {
    // Whether it is not 0 on every level.
    pub fn counts(self) -> bool
        ensures { result ≡ counts self }
    {
        self.primary != 0 || self.secondary != 0 || self.tertiary != 0
    }
}

// A weight for each level, in their order.
impl From<[u16; 3]> for Weights {
    ghost from_gives = { λ numbers r. r ≡ weights_at numbers 0 };

    fn from(numbers: [u16; 3]) -> Weights {
        let [primary, secondary, tertiary] = numbers;
        Weights {
            primary,
            secondary,
            tertiary,
        }
    }
}

// A letter and what it weighs.
#[derive(Clone, Copy, PartialEq, Eq, Debug)]
pub struct Letter {
    pub letter: u32,
    pub weights: Weights,
}

impl Ranked for Letter {
    ghost rank = { letter_rank };

    fn rank(self) -> u64 {
        self.letter as u64
    }
}

// What a letter weighs that weighs as two or three, one behind the other.
#[derive(Clone, Copy, PartialEq, Eq, Debug)]
pub struct Expanded {
    pub first: Weights,
    pub second: Weights,
    pub third: Option<Weights>,
}

impl Expanded {
    // Whether one of them counts.
    pub fn counts(self) -> bool
        ensures { result ≡ list_any counts (expanded self) }
    {
        self.first.counts() || self.second.counts() || self.third.is_some_and(Weights::counts)
    }
}

// A letter that weighs as two or three, as ligatures do (an expansion).
#[derive(Clone, Copy, PartialEq, Eq, Debug)]
pub struct Expansion {
    pub letter: u32,
    pub weights: Expanded,
}

impl Ranked for Expansion {
    ghost rank = { expansion_rank };

    fn rank(self) -> u64 {
        u64::from(self.letter)
    }
}

// Triples of weights, one behind the other.
#[derive(Clone, Copy, PartialEq, Eq, Debug)]
pub enum Triples {
    One(Weights),
    Several(Expanded),
    // More than three: no letter weighs so.
    Excess,
}

impl Triples {
    // Whether one of them counts; more than three are taken to.
    pub fn counts(self) -> bool
        ensures { result ≡ counts_some self }
    {
        match self {
            Triples::One(weights) => weights.counts(),
            Triples::Several(expanded) => expanded.counts(),
            Triples::Excess => true,
        }
    }
}

// A letter that is entered in a table, and what it weighs there.
#[derive(Clone, Copy, PartialEq, Eq, Debug)]
pub struct LetterEntry {
    pub letter: u32,
    pub weights: Triples,
}

// A letter that weighs as one.
impl From<Letter> for LetterEntry {
    ghost from_gives = { λ e r. r ≡ record { letter = e.letter; weights = One e.weights } };

    fn from(letter: Letter) -> LetterEntry {
        LetterEntry {
            letter: letter.letter,
            weights: Triples::One(letter.weights),
        }
    }
}

// One that weighs as two or three.
impl From<Expansion> for LetterEntry {
    ghost from_gives = { λ e r. r ≡ record { letter = e.letter; weights = Several e.weights } };

    fn from(expansion: Expansion) -> LetterEntry {
        LetterEntry {
            letter: expansion.letter,
            weights: Triples::Several(expansion.weights),
        }
    }
}

// Two letters that are one together, and what they weigh then.
#[derive(Clone, Copy, PartialEq, Eq, Debug)]
pub struct Pair {
    pub first: u32,
    pub second: u32,
    pub weights: Weights,
}

// A run of three letters, or of four.
#[derive(Clone, Copy, PartialEq, Eq, Debug)]
pub struct LongRun {
    pub first: u32,
    pub second: u32,
    pub third: u32,
    pub fourth: Option<u32>,
}

impl LongRun {
    // Whether these are the same letters.
    pub fn is(self, other: LongRun) -> bool
        ensures { result ≡ same_run (long_letters self) (long_letters other) }
    {
        self.first == other.first
            && self.second == other.second
            && self.third == other.third
            && self.fourth == other.fourth
    }

    // Its place in the order of a list: by its first letter, and of those that begin alike four letters before three.
    pub fn rank(self) -> u64
        ensures { result ≡ rank_of (long_letters self) }
    {
        let rest = if self.fourth.is_some() { 0 } else { 1 };
        2 * self.first as u64 + rest
    }
}

// Letters that are lent as a run, two, three or four of them, and what they weigh together.
#[derive(Clone, Copy)]
pub struct Run<'a> {
    pub letters: &'a [u32],
    pub weights: Weights,
}

// Three or four letters that are one together, and what they weigh then.
#[derive(Clone, Copy, PartialEq, Eq, Debug)]
pub struct Long {
    pub run: LongRun,
    pub weights: Weights,
}

impl Ranked for Long {
    ghost rank = { long_rank };

    fn rank(self) -> u64 {
        self.run.rank()
    }
}
