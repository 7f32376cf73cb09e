// Records of tables of names in UTF-8, drawn at random.
use crate::alphabet::{Alphabet, any_letter};
use crate::dice::Dice;
use crate::drawn::Scale;
use crate::joined::Joined;
use crate::plain::Plain;
use crate::reading;
use crate::spread::{Entry, Spread};
use std::alloc::{AllocError, Global};
use table::Refusal;

// Letters and runs, as they are handed over; they need not be those of a table.
#[derive(Drop)]
pub(crate) struct Records {
    pub(crate) letters: Vec<Entry>,
    pub(crate) runs: Vec<Joined>,
}

impl Records {
    // Another order.
    pub(crate) fn shuffle(&mut self, dice: &mut Dice) {
        for place in 0..self.letters.len() {
            let other = dice.below(self.letters.len());
            if other < self.letters.len() {
                self.letters.swap(place, other);
            }
        }
        for place in 0..self.runs.len() {
            let other = dice.below(self.runs.len());
            if other < self.runs.len() {
                self.runs.swap(place, other);
            }
        }
    }

    // More records, which a table may have or not.
    pub(crate) fn damage(
        &mut self,
        dice: &mut Dice,
        plain: &Plain,
        alphabet: &Alphabet,
    ) -> Result<(), AllocError> {
        let spread = Scale::new(dice).any(dice, plain, alphabet);
        let (one, other) = (alphabet.one(dice), alphabet.one(dice));
        let any = any_letter(dice, true);
        match dice.below(13) {
            0 => {
                let surrogate = 0xd800 + dice.below(0x800) as u32;
                self.push(dice, surrogate, spread)
            }
            1 => {
                let large = 0x10000 + dice.below(0x10000) as u32;
                self.push(dice, large, spread)
            }
            2 => {
                let zeros = [[0; 3]; 3];
                let end = 1 + dice.below(3);
                self.push(dice, any, Spread::new(zeros.get(..end).unwrap_or(&[])))
            }
            3 => self.push(dice, one, spread),
            4 => self.push(dice, any, spread),
            12 => self.push(dice, any, Spread::excess()),
            5 => self.fill(dice),
            6 | 9 => {
                let more = dice.below(3);
                self.push_run(dice, alphabet, &[one, other], more)
            }
            7 => {
                let letters = match dice.below(4) {
                    0 => [65536, one],
                    1 => [one, u32::MAX],
                    2 => [0xd800, 65535],
                    _ => [one, 0xdfff],
                };
                let more = dice.below(3);
                self.push_run(dice, alphabet, &letters, more)
            }
            8 => {
                for _ in 0..195 + dice.below(10) {
                    let letters = [any_letter(dice, true), any_letter(dice, true)];
                    let more = dice.below(3);
                    self.push_run(dice, alphabet, &letters, more)?;
                }
                Ok(())
            }
            10 => {
                let place = dice.below(self.runs.len());
                match self.runs.get(place).copied() {
                    Some(run) => self.push_run(dice, alphabet, run.letters(), 0),
                    None => Ok(()),
                }
            }
            _ => match dice.below(3) {
                0 => self.push_run(dice, alphabet, &[], 0),
                1 => self.push_run(dice, alphabet, &[one], 0),
                _ => self.push_run(dice, alphabet, &[one, other, one, other, one], 0),
            },
        }
    }

    // A letter more, somewhere between the others.
    fn push(&mut self, dice: &mut Dice, letter: u32, spread: Spread) -> Result<(), AllocError> {
        let place = dice.below(self.letters.len());
        let entry = Entry { letter, spread };
        self.letters.insert(place.min(self.letters.len()), entry)?;
        Ok(())
    }

    // A run more, somewhere between the others: these letters and so many more, in either direction.
    fn push_run(
        &mut self,
        dice: &mut Dice,
        alphabet: &Alphabet,
        letters: &[u32],
        more: usize,
    ) -> Result<(), AllocError> {
        let behind = [alphabet.one(dice), alphabet.one(dice)];
        let mut all = [0; 5];
        let mut many = 0usize;
        for (one, letter) in all
            .iter_mut()
            .zip(letters.iter().chain(behind.iter().take(more)))
        {
            *one = *letter;
            many = many.saturating_add(1);
        }
        let run = all.get_mut(..many).unwrap_or(&mut []);
        if dice.once_in(2) {
            run.reverse();
        }
        let run = Joined::new(run, Scale::new(dice).weights(dice));
        let place = dice.below(self.runs.len());
        self.runs.insert(place.min(self.runs.len()), run)?;
        Ok(())
    }

    // As many letters as there may be, or one more or less; now and then there are some that were there already.
    fn fill(&mut self, dice: &mut Dice) -> Result<(), AllocError> {
        let most = 1999 + dice.below(3);
        let mut many = 0usize;
        for entry in &self.letters {
            if entry.spread.counts() {
                many = many.saturating_add(1);
            }
        }
        let first = dice.below(40000) as u32;
        for letter in first..first + 2001 {
            if many < most {
                let triples = [[1, 2, 3], [0, 0, 1]];
                let end = if letter % 50 == 0 { 2 } else { 1 };
                self.letters.push(Entry {
                    letter,
                    spread: Spread::new(triples.get(..end).unwrap_or(&[])),
                })?;
                many = many.saturating_add(1);
            }
        }
        Ok(())
    }

    // Why they are not those of a table: runs come first, then how many letters weigh something, then which, then how many letters
    // a run has, and last that a letter weighs as too many.
    pub(crate) fn refusal(&self, heap: Global) -> Result<Option<Refusal>, AllocError> {
        if let Some(why) = runs_refusal(&self.runs) {
            return Ok(Some(why));
        }
        let mut many = 0usize;
        let mut fault = None;
        let mut seen = vec![in heap; false; 65536]?;
        for (place, entry) in self.letters.iter().enumerate() {
            if !entry.spread.counts() {
                continue;
            }
            many = many.saturating_add(1);
            let why = match seen.get_mut(entry.letter as usize) {
                Some(mark) if reading::is_letter(true, entry.letter) => {
                    let again = *mark;
                    *mark = true;
                    again.then_some(Refusal::LetterTwice(place))
                }
                _ => Some(Refusal::NoLetter(place)),
            };
            if fault.is_none() {
                fault = why;
            }
        }
        if many > 2000 {
            return Ok(Some(Refusal::TooManyLetters));
        }
        if fault.is_some() {
            return Ok(fault);
        }
        let odd = |run: &Joined| run.pair().is_none() && run.long().is_none();
        if let Some(place) = self.runs.iter().position(odd) {
            return Ok(Some(Refusal::RunLength(place)));
        }
        let excess = |entry: &Entry| entry.spread.is_excess();
        Ok(
            self.letters
                .iter()
                .position(excess)
                .map(|place| Refusal::TooManyTriples(place)),
        )
    }
}

// Why runs are not those of a table, but for how many letters each has.
fn runs_refusal(runs: &[Joined]) -> Option<Refusal> {
    if runs.len() > 200 {
        return Some(Refusal::TooMany);
    }
    for (place, run) in runs.iter().enumerate() {
        if run.letters().iter().any(|letter| *letter > 65535) {
            return Some(Refusal::Foreign(place));
        }
    }
    for (place, run) in runs.iter().enumerate() {
        for earlier in runs.iter().take(place) {
            if earlier.letters() == run.letters() {
                return Some(Refusal::Twice(place));
            }
        }
    }
    None
}
