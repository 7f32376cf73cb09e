// Newer tables made of older ones.
use crate::alphabet::Alphabet;
use crate::dice::Dice;
use crate::drawn::{Drawn, Scale, add_run};
use crate::plain::Plain;
use crate::spread::{Entry, Spread};
use crate::trial::Both;
use crate::trial::changed::is_old;
use std::alloc::{AllocError, Global};

// A table made of another: on another scale, with new letters and runs, with what one letter weighs or one run changed, or drawn
// anew.
pub(crate) fn renewed(
    heap: Global,
    dice: &mut Dice,
    both: &Both,
    old: &[bool],
) -> Result<Plain, AllocError> {
    let mut newer = both.plain.copy(heap)?;
    let is_full = newer.letter_count() > 1990;
    match if is_full { 0 } else { dice.below(10) } {
        0..3 => rescale(dice, &mut newer),
        3..5 => add_new(dice, &mut newer, old, both.alphabet)?,
        5 => {
            rescale(dice, &mut newer);
            add_new(dice, &mut newer, old, both.alphabet)?;
        }
        6 => {
            let spread = Scale::new(dice).one(dice);
            newer.set_letter(both.alphabet.one(dice), spread)?;
        }
        7 => change_spread(dice, &mut newer, both.alphabet)?,
        8 => change_runs(heap, dice, &mut newer, both.alphabet)?,
        _ if both.plain.utf8 && dice.once_in(2) => newer = Drawn::in_utf8(heap, dice)?.plain,
        _ => newer = Drawn::new(heap, dice)?.plain,
    }
    Ok(newer)
}

// Each weight that counts grows, and a larger one is the larger still, unless it comes to the largest of all.
fn rescale(dice: &mut Dice, newer: &mut Plain) {
    let grown = Growth {
        factor: 1 + dice.below(3) as u16,
        more: dice.below(9) as u16,
    };
    for number in newer.letters.iter_mut() {
        grown.grow(number);
    }
    for (place, number) in newer.pairs.iter_mut().enumerate() {
        if place % 5 >= 2 {
            grown.grow(number);
        }
    }
    for run in newer.longs.iter_mut() {
        for number in run.weights.iter_mut() {
            grown.grow(number);
        }
    }
    for entry in newer.spreads.iter_mut() {
        for triple in entry.spread.triples_mut().iter_mut() {
            for number in triple.iter_mut() {
                grown.grow(number);
            }
        }
    }
}

// How much weights grow.
#[derive(Clone, Copy)]
struct Growth {
    factor: u16,
    more: u16,
}

impl Growth {
    fn grow(self, number: &mut u16) {
        if *number != 0 {
            *number = number.saturating_mul(self.factor).saturating_add(self.more);
        }
    }
}

// A letter comes to weigh as two or three; or of one that does two triples are turned, one has another weight, or there is one more
// or one less.
fn change_spread(
    dice: &mut Dice,
    newer: &mut Plain,
    alphabet: &Alphabet,
) -> Result<(), AllocError> {
    let place = dice.below(newer.spreads.len());
    let Some(Entry { letter, mut spread }) = newer.spreads.get(place).copied() else {
        let spread = Scale::new(dice).several(dice, newer, alphabet);
        return newer.set_letter(alphabet.one(dice), spread);
    };
    match dice.below(4) {
        0 => spread.triples_mut().reverse(),
        1 => {
            let weight = dice.below(3) as u16;
            let at = dice.below(3);
            let level = dice.below(3);
            if let Some(triple) = spread.triples_mut().get_mut(at) {
                if let Some(number) = triple.get_mut(level) {
                    *number = weight;
                }
            }
        }
        2 => {
            let end = spread.triples().len().saturating_sub(1);
            spread = Spread::new(spread.triples().get(..end).unwrap_or(&[]));
        }
        _ => {
            let mut more = [[0; 3]; 3];
            for (one, triple) in more.iter_mut().zip(spread.triples()) {
                *one = *triple;
            }
            spread = Spread::new(&more);
        }
    }
    newer.set_letter(letter, spread)
}

// New letters weigh something else, and are one with others.
fn add_new(
    dice: &mut Dice,
    newer: &mut Plain,
    old: &[bool],
    alphabet: &Alphabet,
) -> Result<(), AllocError> {
    for _ in 0..6 {
        let scale = Scale::new(dice);
        let letter = alphabet.any(dice);
        if !is_old(old, letter) {
            let spread = if dice.once_in(2) {
                scale.several(dice, newer, alphabet)
            } else {
                scale.one(dice)
            };
            newer.set_letter(letter, spread)?;
            let mut letters = [
                alphabet.any(dice),
                alphabet.one(dice),
                alphabet.one(dice),
                letter,
            ];
            let at = dice.below(4);
            letters.swap(at, 3);
            let many = 2 + dice.below(3);
            let run = letters.get(..many).unwrap_or(&[]);
            if run.contains(&letter) {
                add_run(dice, newer, run, scale)?;
            }
        }
    }
    Ok(())
}

// One run less, or one more, or one less and one more.
fn change_runs(
    heap: Global,
    dice: &mut Dice,
    newer: &mut Plain,
    alphabet: &Alphabet,
) -> Result<(), AllocError> {
    if dice.once_in(2) {
        let place = dice.below(newer.run_count());
        newer.drop_run(heap, place)?;
    }
    if dice.once_in(2) {
        let letters = [
            alphabet.one(dice),
            alphabet.one(dice),
            alphabet.one(dice),
            alphabet.one(dice),
        ];
        let many = 2 + dice.below(3);
        let scale = Scale::new(dice);
        add_run(dice, newer, letters.get(..many).unwrap_or(&[]), scale)?;
    }
    Ok(())
}
