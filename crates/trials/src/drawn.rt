// Tables, names and questions drawn at random.
use crate::alphabet::{Alphabet, any_letter};
use crate::dice::Dice;
use crate::joined::Joined;
use crate::plain::Plain;
use crate::spread::Spread;
use std::alloc::{AllocError, Global};

mod names;

pub(crate) use names::{damage, damaged, letters_drawn, name, names, question};

// A table, and the letters that names are mostly made of.
#[derive(Drop)]
pub(crate) struct Drawn {
    pub(crate) plain: Plain,
    pub(crate) alphabet: Alphabet,
}

impl Drawn {
    // A table of bytes.
    pub(crate) fn new(heap: Global, dice: &mut Dice) -> Result<Drawn, AllocError> {
        let mut alphabet = alphabet(heap, dice, false)?;
        let mut plain = Plain::new(heap, false)?;
        if dice.once_in(3) {
            for letter in 0..=255 {
                plain.set_letter(letter, Spread::new(&[[0, 0, 1]]))?;
            }
        }
        let scale = Scale::new(dice);
        for letter in &alphabet.letters {
            plain.set_letter(*letter, scale.one(dice))?;
        }
        add_spreads(dice, &mut plain, &alphabet, scale)?;
        add_longs(dice, &mut plain, &alphabet, scale)?;
        add_pairs(dice, &mut plain, &alphabet, scale)?;
        alphabet.longs = plain.longs.to_vec(heap)?;
        Ok(Drawn { plain, alphabet })
    }

    // A table of names in UTF-8, now and then with 2,000 letters.
    pub(crate) fn in_utf8(heap: Global, dice: &mut Dice) -> Result<Drawn, AllocError> {
        let mut alphabet = alphabet(heap, dice, true)?;
        let mut plain = Plain::new(heap, true)?;
        let scale = Scale::new(dice);
        for letter in &alphabet.letters {
            plain.set_letter(*letter, scale.one(dice))?;
        }
        add_spreads(dice, &mut plain, &alphabet, scale)?;
        if dice.once_in(10) {
            fill_letters(dice, &mut plain)?;
        }
        add_longs(dice, &mut plain, &alphabet, scale)?;
        add_pairs(dice, &mut plain, &alphabet, scale)?;
        alphabet.longs = plain.longs.to_vec(heap)?;
        Ok(Drawn { plain, alphabet })
    }
}

// So many letters one behind the other weigh something that 2,000 do in all, a few of them as two.
fn fill_letters(dice: &mut Dice, plain: &mut Plain) -> Result<(), AllocError> {
    let mut many = plain.letter_count();
    let first = dice.below(40000) as u32;
    for letter in first..first + 4000 {
        if many < 2000 && !plain.spread(letter).counts() {
            let triples = [[1 + dice.below(3) as u16, 0, 1], [0, 1, 0]];
            let end = if dice.once_in(80) { 2 } else { 1 };
            plain.set_letter(letter, Spread::new(triples.get(..end).unwrap_or(&[])))?;
            many += 1;
        }
    }
    Ok(())
}

// A few letters, so that names meet, some dozens, or all bytes.
fn alphabet(heap: Global, dice: &mut Dice, utf8: bool) -> Result<Alphabet, AllocError> {
    let mut letters = Vec::new(heap);
    match dice.below(8) {
        0 => {
            for letter in 0..=255 {
                letters.push(letter)?;
            }
        }
        1 => {
            for _ in 0..30 {
                letters.push(any_letter(dice, utf8))?;
            }
        }
        _ => {
            for _ in 0..2 + dice.below(5) {
                letters.push(any_letter(dice, utf8))?;
            }
        }
    }
    Ok(Alphabet {
        utf8,
        letters,
        longs: Vec::new(heap),
    })
}

// How weights are drawn.
#[derive(Clone, Copy)]
pub(crate) struct Scale {
    // The largest weight.
    most: u16,
    // One in so many is 0 on a level.
    zeros: usize,
}

impl Scale {
    pub(crate) fn new(dice: &mut Dice) -> Scale {
        let most = match dice.below(5) {
            0 => 1,
            1 => 2,
            2 => 5,
            3 => 300,
            _ => 65535,
        };
        let zeros = match dice.below(4) {
            0 => 2,
            1 => 3,
            2 => 6,
            _ => 1000,
        };
        Scale { most, zeros }
    }

    // A weight for each level; now and then none on all.
    pub(crate) fn weights(self, dice: &mut Dice) -> [u16; 3] {
        if dice.once_in(20) {
            return [0; 3];
        }
        [self.weight(dice), self.weight(dice), self.weight(dice)]
    }

    // These alone.
    pub(crate) fn one(self, dice: &mut Dice) -> Spread {
        Spread::new(&[self.weights(dice)])
    }

    // Two or three triples, half of them those of a letter.
    pub(crate) fn several(self, dice: &mut Dice, plain: &Plain, alphabet: &Alphabet) -> Spread {
        let mut triples = [[0; 3]; 3];
        for triple in triples.iter_mut() {
            *triple = if dice.once_in(2) {
                plain.letter(alphabet.one(dice))
            } else {
                self.weights(dice)
            };
        }
        Spread::new(triples.get(dice.below(2)..).unwrap_or(&[]))
    }

    // One triple, or several, and now and then too many.
    pub(crate) fn any(self, dice: &mut Dice, plain: &Plain, alphabet: &Alphabet) -> Spread {
        match dice.below(8) {
            0 => Spread::excess(),
            1..4 => self.several(dice, plain, alphabet),
            _ => self.one(dice),
        }
    }

    fn weight(self, dice: &mut Dice) -> u16 {
        if dice.once_in(self.zeros) {
            return 0;
        }
        if dice.once_in(10) {
            return self.most;
        }
        (dice.below(self.most as usize) as u16).saturating_add(1)
    }
}

// Half of the tables have no letters that weigh as two or three, most others one or a few.
fn add_spreads(
    dice: &mut Dice,
    plain: &mut Plain,
    alphabet: &Alphabet,
    scale: Scale,
) -> Result<(), AllocError> {
    let tries = match dice.below(8) {
        0..4 => return Ok(()),
        4..7 => 1 + dice.below(3),
        _ => 1 + dice.below(40),
    };
    for _ in 0..tries {
        let spread = scale.several(dice, plain, alphabet);
        plain.set_letter(alphabet.one(dice), spread)?;
    }
    Ok(())
}

// Mostly a few runs of two to four letters, and now and then many, half of them with the run that is one letter shorter: of any
// letters, or such as begin as the last one does, or lap over its end.
fn add_longs(
    dice: &mut Dice,
    plain: &mut Plain,
    alphabet: &Alphabet,
    scale: Scale,
) -> Result<(), AllocError> {
    let tries = match dice.below(8) {
        0..4 => return Ok(()),
        4..7 => 1 + dice.below(8),
        _ => 1 + dice.below(80),
    };
    let mut last = [0; 4];
    for _ in 0..tries {
        let (from, kept) = match dice.below(3) {
            0 => (0, 0),
            1 => (0, 1 + dice.below(3)),
            _ => (1 + dice.below(3), 4),
        };
        let mut letters = [0; 4];
        for letter in letters.iter_mut() {
            *letter = alphabet.one(dice);
        }
        let front = last.get(from..).unwrap_or(&[]);
        for (letter, there) in letters.iter_mut().zip(front).take(kept) {
            *letter = *there;
        }
        last = letters;
        let many = 2 + dice.below(3);
        add_run(dice, plain, letters.get(..many).unwrap_or(&[]), scale)?;
        if many > 2 && dice.once_in(2) {
            add_run(dice, plain, letters.get(..many - 1).unwrap_or(&[]), scale)?;
        }
    }
    Ok(())
}

// A run more, if it is none of the table and there is room.
pub(crate) fn add_run(
    dice: &mut Dice,
    plain: &mut Plain,
    letters: &[u32],
    scale: Scale,
) -> Result<(), AllocError> {
    if plain.run_count() < 200 && plain.run(letters).is_none() {
        plain.push_run(Joined::new(letters, scale.weights(dice)))?;
    }
    Ok(())
}

// None to 200 pairs: of any letters, all with the same first letter, each with the next, or of a letter with itself.
fn add_pairs(
    dice: &mut Dice,
    plain: &mut Plain,
    alphabet: &Alphabet,
    scale: Scale,
) -> Result<(), AllocError> {
    let first = alphabet.one(dice);
    let (kind, tries) = match dice.below(8) {
        0 => return Ok(()),
        1 | 2 => (Pairs::Any, 1 + dice.below(4)),
        3 | 4 => (Pairs::Any, 1 + dice.below(400)),
        5 => (Pairs::SameFirst, 1 + dice.below(900)),
        6 => (Pairs::Chain, 1 + dice.below(40)),
        _ => (Pairs::AllLetters, 210),
    };
    let mut last = first;
    for _ in 0..tries {
        let (one, other) = match kind {
            Pairs::Any => (alphabet.one(dice), alphabet.one(dice)),
            Pairs::SameFirst => (first, alphabet.one(dice)),
            Pairs::Chain if dice.once_in(4) => (last, last),
            Pairs::Chain => (last, alphabet.one(dice)),
            Pairs::AllLetters => (alphabet.any(dice), alphabet.any(dice)),
        };
        last = other;
        add_run(dice, plain, &[one, other], scale)?;
    }
    Ok(())
}

#[derive(Clone, Copy)]
enum Pairs {
    Any,
    SameFirst,
    Chain,
    AllLetters,
}
