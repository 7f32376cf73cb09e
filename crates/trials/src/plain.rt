// Tables in plain numbers. Nothing here asks the library.
ghost use Rattle.std.specs.Prelude.{◌≡◌, ◌/◌, length};

use crate::joined::Joined;
use crate::spread::{Entry, Spread};
use std::alloc::{AllocError, Global};
use std::fmt;
use table::{Letter, Pair, Weights};

mod refusals;

// The numbers of a table, as they are lent; they need not be those of one.
#[derive(Drop)]
pub(crate) struct Plain {
    // Whether names are in UTF-8; else each byte is a letter.
    pub(crate) utf8: bool,
    // Three weights for each letter, of 256 or of 65,536; 0 for those that weigh as two or three.
    pub(crate) letters: Vec<u16>,
    // These, in the order in which they came.
    pub(crate) spreads: Vec<Entry>,
    pub(crate) pairs: Vec<u16>,
    pub(crate) how_many: u64,
    // Runs of three and four letters, in the order in which they came.
    pub(crate) longs: Vec<Joined>,
}

impl Plain {
    // A table in which nothing weighs anything.
    pub(crate) fn new(heap: Global, utf8: bool) -> Result<Plain, AllocError> {
        let numbers = if utf8 { 196608 } else { 768 };
        Ok(Plain {
            utf8,
            letters: vec![in heap; 0; numbers]?,
            spreads: Vec::new(heap),
            pairs: Vec::new(heap),
            how_many: 0,
            longs: Vec::new(heap),
        })
    }

    pub(crate) fn copy(&self, heap: Global) -> Result<Plain, AllocError> {
        Ok(Plain {
            utf8: self.utf8,
            letters: self.letters.to_vec(heap)?,
            spreads: self.spreads.to_vec(heap)?,
            pairs: self.pairs.to_vec(heap)?,
            how_many: self.how_many,
            longs: self.longs.to_vec(heap)?,
        })
    }

    // A letter weighs so, whatever it weighed; nothing where none of its triples counts.
    pub(crate) fn set_letter(&mut self, letter: u32, spread: Spread) -> Result<(), AllocError> {
        if let Some(place) = self.spreads.iter().position(|entry| entry.letter == letter) {
            if place < self.spreads.len() {
                self.spreads.remove(place);
            }
        }
        let itself = match spread.triples() {
            [itself] => *itself,
            _ => [0; 3],
        };
        for (level, weight) in itself.iter().enumerate() {
            if let Some(number) = self.letters.get_mut(3 * letter as usize + level) {
                *number = *weight;
            }
        }
        if spread.triples().len() > 1 && spread.counts() {
            self.spreads.push(Entry { letter, spread })?;
        }
        Ok(())
    }

    // A run more, of two letters or of more.
    pub(crate) fn push_run(&mut self, run: Joined) -> Result<(), AllocError> {
        if run.pair().is_none() {
            self.longs.push(run)?;
            return Ok(());
        }
        for letter in run.letters() {
            self.pairs.push(u16::try_from(*letter).unwrap_or(u16::MAX))?;
        }
        self.pairs.extend_from_slice(&run.weights)?;
        self.how_many = self.how_many.saturating_add(1);
        Ok(())
    }

    // A pair less.
    pub(crate) fn drop_pair(&mut self, heap: Global, place: usize) -> Result<(), AllocError> {
        let mut pairs = Vec::new(heap);
        for (k, pair) in self.pairs.chunks(5).enumerate() {
            if k != place {
                pairs.extend_from_slice(pair)?;
            }
        }
        self.pairs = pairs;
        self.how_many = self.pair_count() as u64;
        Ok(())
    }

    // A run less; pairs are counted before longer ones.
    pub(crate) fn drop_run(&mut self, heap: Global, place: usize) -> Result<(), AllocError> {
        let pairs = self.pair_count();
        let mut longs = Vec::new(heap);
        for (k, long) in self.longs.iter().enumerate() {
            if pairs.saturating_add(k) != place {
                longs.push(*long)?;
            }
        }
        self.longs = longs;
        self.drop_pair(heap, place)
    }

    // How many letters weigh something.
    pub(crate) fn letter_count(&self) -> usize {
        let mut many = self.spreads.len();
        for weights in self.letters.chunks(3) {
            if weights.iter().any(|weight| *weight != 0) {
                many = many.saturating_add(1);
            }
        }
        many
    }

    pub(crate) fn pair_count(&self) -> usize
        ensures { result ≡ length self.now.pairs.items / 5 }
    {
        self.pairs.len() / 5
    }

    pub(crate) fn run_count(&self) -> usize {
        self.pair_count().saturating_add(self.longs.len())
    }

    // Whether it may be lent as numbers: letters are bytes that weigh as one, and there are no longer runs.
    pub(crate) fn is_numbers(&self) -> bool {
        !self.utf8 && self.longs.is_empty() && self.spreads.is_empty()
    }

    // All that a letter weighs.
    pub(crate) fn spread(&self, letter: u32) -> Spread {
        for entry in &self.spreads {
            if entry.letter == letter {
                return entry.spread;
            }
        }
        Spread::new(&[self.letter(letter)])
    }

    // What a letter weighs itself; nothing where it weighs as two or three.
    pub(crate) fn letter(&self, letter: u32) -> [u16; 3] {
        let at = 3 * letter as usize;
        match self.letters.get(at..at + 3) {
            Some([primary, secondary, tertiary]) => [*primary, *secondary, *tertiary],
            _ => [0; 3],
        }
    }

    // What two letters weigh together, where they are one.
    pub(crate) fn pair(&self, first: u32, second: u32) -> Option<[u16; 3]> {
        for pair in self.pairs.chunks_exact(5) {
            if let [one, other, primary, secondary, tertiary] = pair {
                if *one as u32 == first && *other as u32 == second {
                    return Some([*primary, *secondary, *tertiary]);
                }
            }
        }
        None
    }

    // What letters weigh together, where they are one.
    pub(crate) fn run(&self, letters: &[u32]) -> Option<[u16; 3]> {
        if let [first, second] = letters {
            return self.pair(*first, *second);
        }
        for long in &self.longs {
            if long.letters() == letters {
                return Some(long.weights);
            }
        }
        None
    }

    // The pair at a place.
    pub(crate) fn pair_at(&self, place: usize) -> Option<Pair> {
        match self.pairs.chunks_exact(5).nth(place) {
            Some([first, second, primary, secondary, tertiary]) => Some(Pair {
                first: u32::from(*first),
                second: u32::from(*second),
                weights: Weights::from([*primary, *secondary, *tertiary]),
            }),
            _ => None,
        }
    }

    // The letters that a table lists: those below 256, and others that weigh something themselves.
    pub(crate) fn listed(&self, heap: Global) -> Result<Vec<Letter>, AllocError> {
        let mut letters = Vec::new(heap);
        for (letter, numbers) in (0..u32::MAX).zip(self.letters.chunks_exact(3)) {
            if let [primary, secondary, tertiary] = numbers {
                let weights = [*primary, *secondary, *tertiary];
                if letter < 256 || weights != [0; 3] {
                    letters.push(Letter {
                        letter,
                        weights: Weights::from(weights),
                    })?;
                }
            }
        }
        Ok(letters)
    }

    // Entries of which a table is made: those of the letters that it lists, and of those that weigh as two or three.
    pub(crate) fn entries(&self, heap: Global) -> Result<Vec<Entry>, AllocError> {
        let mut entries = Vec::new(heap);
        for listed in &self.listed(heap)? {
            entries.push(Entry {
                letter: listed.letter,
                spread: Spread::new(&[self.letter(listed.letter)]),
            })?;
        }
        entries.extend_from_slice(&self.spreads)?;
        Ok(entries)
    }

    // The runs: the pairs, as they lie, and behind them the longer ones.
    pub(crate) fn listed_runs(&self, heap: Global) -> Result<Vec<Joined>, AllocError> {
        let mut runs = Vec::new(heap);
        for pair in self.pairs.chunks_exact(5) {
            if let [first, second, primary, secondary, tertiary] = pair {
                let letters = [u32::from(*first), u32::from(*second)];
                runs.push(Joined::new(&letters, [*primary, *secondary, *tertiary]))?;
            }
        }
        runs.extend_from_slice(&self.longs)?;
        Ok(runs)
    }
}

// Enough to make the table again: of letters that weigh the same, one behind the other, only the first is told.
impl fmt::Display for Plain {
    fn fmt<W: fmt::Write>(&self, f: &mut fmt::Formatter<W>) -> fmt::Result {
        let numbers = self.letters.len();
        write!(f, "{numbers} numbers of letters")?;
        let mut last: &[u16] = &[];
        for (letter, weights) in self.letters.chunks(3).enumerate() {
            if weights != last {
                write!(f, ", from {letter} {weights:?}")?;
                last = weights;
            }
        }
        let pairs = &self.pairs;
        let how_many = self.how_many;
        write!(f, "; {how_many} pairs {pairs:?}")?;
        for long in &self.longs {
            write!(f, ", {long}")?;
        }
        for entry in &self.spreads {
            write!(f, ", {entry}")?;
        }
        Ok(())
    }
}
