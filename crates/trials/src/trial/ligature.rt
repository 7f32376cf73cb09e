// Letters that weigh on level one as others do, one behind the other, and names in which they are written out.
use crate::alphabet::Alphabet;
use crate::dice::Dice;
use crate::drawn::Scale;
use crate::joined::Joined;
use crate::plain::Plain;
use crate::spread::Spread;
use std::alloc::{AllocError, Global};

// A letter, and those that it is written out as.
#[derive(Drop)]
pub(crate) struct Ligature {
    pub(crate) letter: u32,
    pub(crate) parts: Vec<u32>,
}

// The letters of a name with each such letter written out, and where each of these begins.
#[derive(Drop)]
pub(crate) struct Written {
    pub(crate) letters: Vec<u32>,
    pub(crate) starts: Vec<usize>,
}

impl Ligature {
    // One of the letters and two or three others, as which it weighs on level one from now on; none where they weigh too much.
    pub(crate) fn drawn(
        heap: Global,
        dice: &mut Dice,
        alphabet: &Alphabet,
        plain: &mut Plain,
    ) -> Result<Option<Ligature>, AllocError> {
        let letter = alphabet.one(dice);
        let many = 2 + dice.below(2);
        let mut parts = Vec::new(heap);
        for _ in 0..12 {
            let part = if dice.once_in(4) {
                alphabet.any(dice)
            } else {
                alphabet.one(dice)
            };
            if part != letter && parts.len() < many {
                parts.push(part)?;
            }
        }
        let mut weights = primaries(heap, plain, &parts)?;
        if parts.len() < 2 || weights.len() > 3 {
            return Ok(None);
        }
        for _ in 0..dice.below(4usize.saturating_sub(weights.len())) {
            let place = dice.below(weights.len().saturating_add(1));
            weights.insert(place.min(weights.len()), 0)?;
        }
        let scale = Scale::new(dice);
        let mut triples = [[0; 3]; 3];
        for (triple, weight) in triples.iter_mut().zip(&weights) {
            let [_, secondary, tertiary] = scale.weights(dice);
            *triple = [*weight, secondary, tertiary];
        }
        let end = weights.len();
        plain.set_letter(letter, Spread::new(triples.get(..end).unwrap_or(&[])))?;
        Ok(Some(Ligature { letter, parts }))
    }

    // Letters with those in place of each that is such a letter.
    pub(crate) fn write_out(&self, heap: Global, letters: &[u32]) -> Result<Written, AllocError> {
        let mut written = Written {
            letters: Vec::new(heap),
            starts: Vec::new(heap),
        };
        for letter in letters {
            if *letter == self.letter {
                written.starts.push(written.letters.len())?;
                written.letters.extend_from_slice(&self.parts)?;
            } else {
                written.letters.push(*letter)?;
            }
        }
        Ok(written)
    }

    // Whether a run is in the way: one with the letter is met in the letters, or one is met in them written out that has some of
    // the letters that were written in somewhere.
    pub(crate) fn is_hindered(&self, runs: &[Joined], letters: &[u32], written: &Written) -> bool {
        for run in runs {
            let run = run.letters();
            if run.contains(&self.letter) && (0..letters.len()).any(|at| is_met(run, letters, at)) {
                return true;
            }
            for at in 0..written.letters.len() {
                if is_met(run, &written.letters, at) && self.is_covered(written, at, run.len()) {
                    return true;
                }
            }
        }
        false
    }

    // Whether so many letters from a place on are not all in front of what is written in somewhere, or all behind it.
    fn is_covered(&self, written: &Written, at: usize, many: usize) -> bool {
        let end = at.saturating_add(many);
        written.starts.iter().any(|start| end > *start
            && at < start.saturating_add(self.parts.len()))
    }
}

// Whether a run stands at a place of letters.
fn is_met(run: &[u32], letters: &[u32], at: usize) -> bool {
    letters.get(at..at.saturating_add(run.len())) == Some(run)
}

// What letters weigh on level one, each alone, without zeros.
fn primaries(heap: Global, plain: &Plain, letters: &[u32]) -> Result<Vec<u16>, AllocError> {
    let mut weights = Vec::new(heap);
    for letter in letters {
        for [primary, _, _] in plain.spread(*letter).triples() {
            if *primary != 0 {
                weights.push(*primary)?;
            }
        }
    }
    Ok(weights)
}
