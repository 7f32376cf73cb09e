// Why plain numbers are none of a table, and why a letter or a run can't be one more.
use crate::plain::Plain;
use crate::reading;
use crate::spread::Spread;
use table::Refusal;

impl Plain {
    // Why a letter can't be one more, where so many weigh something.
    pub(crate) fn letter_refusal(
        &self,
        many: usize,
        letter: u32,
        spread: Spread,
    ) -> Option<Refusal> {
        if !spread.counts() {
            None
        } else if many >= 2000 {
            Some(Refusal::TooManyLetters)
        } else if !reading::is_letter(self.utf8, letter) {
            Some(Refusal::NoLetter(many))
        } else if self.spread(letter).counts() {
            Some(Refusal::LetterTwice(many))
        } else if spread.is_excess() {
            Some(Refusal::TooManyTriples(many))
        } else {
            None
        }
    }

    // Why a run can't be one more.
    pub(crate) fn run_refusal(&self, letters: &[u32]) -> Option<Refusal> {
        let place = self.run_count();
        let last = if self.utf8 { 65535 } else { 255 };
        if place >= 200 {
            Some(Refusal::TooMany)
        } else if letters.iter().any(|letter| *letter > last) {
            Some(Refusal::Foreign(place))
        } else if self.run(letters).is_some() {
            Some(Refusal::Twice(place))
        } else {
            None
        }
    }

    // What is wrong with the numbers as those of a table.
    pub(crate) fn refusal(&self) -> Option<Refusal> {
        if self.letters.len() != 768 {
            return Some(Refusal::Letters);
        }
        if self.how_many.checked_mul(5) != Some(self.pairs.len() as u64) {
            return Some(Refusal::Shape);
        }
        if self.how_many > 200 {
            return Some(Refusal::TooMany);
        }
        for (place, pair) in self.pairs.chunks_exact(5).enumerate() {
            if pair.iter().take(2).any(|letter| *letter > 255) {
                return Some(Refusal::Foreign(place));
            }
        }
        for (place, pair) in self.pairs.chunks_exact(5).enumerate() {
            for earlier in self.pairs.chunks_exact(5).take(place) {
                if earlier.get(..2) == pair.get(..2) {
                    return Some(Refusal::Twice(place));
                }
            }
        }
        None
    }
}
