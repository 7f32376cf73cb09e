// Lent numbers that are none of a table.
use crate::alphabet::Alphabet;
use crate::dice::Dice;
use crate::drawn::{self, Scale};
use crate::joined::Joined;
use crate::lists::{Lists, in_order};
use crate::plain::Plain;
use crate::report::{Kind, Report};
use crate::trial::Both;
use crate::trial::finding::ask_entry;
use crate::trial::keying::try_entry;
use std::alloc::{AllocError, Global};
use table::{Refusal, Table};

pub(crate) fn run(
    heap: Global,
    dice: &mut Dice,
    both: &Both,
    report: &mut Report,
) -> Result<(), AllocError> {
    let letters = drawn::names(heap, dice, both.alphabet, 8)?;
    for _ in 0..12 {
        let mut plain = both.plain.copy(heap)?;
        plain.longs.clear();
        plain.spreads.clear();
        for _ in 0..1 + dice.below(2) {
            damage(heap, dice, &mut plain)?;
        }
        try_table(heap, &plain, report)?;
        try_entries(heap, dice, both.alphabet, &letters, &plain, report)?;
    }
    Ok(())
}

// The numbers are changed in some way; now and then they still are those of a table.
fn damage(heap: Global, dice: &mut Dice, plain: &mut Plain) -> Result<(), AllocError> {
    match dice.below(10) {
        0 => {
            let left = 768usize.saturating_sub(1 + dice.below(3));
            plain.letters.truncate(left);
        }
        1 => plain.letters.push(1)?,
        2 => {
            let left = plain.pairs.len().saturating_sub(1 + dice.below(5));
            plain.pairs.truncate(left);
        }
        3 => plain.pairs.push(97)?,
        4 => plain.how_many = plain.how_many.wrapping_add(1),
        5 => plain.how_many = plain.how_many.wrapping_sub(1),
        6 => foreign(dice, plain),
        7 | 8 => repeat(heap, dice, plain)?,
        _ => fill_up(dice, plain)?,
    }
    Ok(())
}

// A letter of a pair is above 255.
fn foreign(dice: &mut Dice, plain: &mut Plain) {
    let place = dice
        .below(plain.pair_count())
        .saturating_mul(5)
        .saturating_add(dice.below(2));
    if let Some(letter) = plain.pairs.get_mut(place) {
        *letter = if dice.once_in(2) { 256 } else { 65535 };
    }
}

// A pair comes once more: behind the others, or in place of another.
fn repeat(heap: Global, dice: &mut Dice, plain: &mut Plain) -> Result<(), AllocError> {
    let place = dice.below(plain.pair_count());
    if let Some(pair) = plain.pair_at(place) {
        let weights = Scale::new(dice).weights(dice);
        plain.push_run(Joined::new(&[pair.first, pair.second], weights))?;
        if dice.once_in(2) {
            let other = dice.below(plain.pair_count());
            plain.drop_pair(heap, other)?;
        }
    }
    Ok(())
}

// Two hundred pairs, or one more.
fn fill_up(dice: &mut Dice, plain: &mut Plain) -> Result<(), AllocError> {
    let most = 200 + dice.below(3);
    let mut letter = dice.below(256) as u8;
    for _ in 0..600 {
        letter = letter.wrapping_add(1);
        let letters = [letter as u32, dice.below(256) as u32];
        if plain.pair_count() < most && plain.run(&letters).is_none() {
            plain.push_run(Joined::new(&letters, [1, 2, 3]))?;
        }
    }
    Ok(())
}

// The check tells the fault that it is.
fn try_table(heap: Global, plain: &Plain, report: &mut Report) -> Result<(), AllocError> {
    let refusal = plain.refusal();
    report.count(match refusal {
        Some(Refusal::Letters) => Kind::NoTableLetters,
        Some(Refusal::Shape) => Kind::NoTableShape,
        Some(Refusal::TooMany) => Kind::NoTableTooMany,
        Some(Refusal::Foreign(_)) => Kind::NoTableForeign,
        Some(_) => Kind::NoTableTwice,
        None => Kind::TablesUnharmed,
    });
    let told = Table::check(&plain.letters, &plain.pairs, plain.how_many).err();
    if told != refusal {
        report.differ(
            plain,
            format!(in heap; "a table: {told:?}, plainly {refusal:?}")?,
        )?;
    }
    Ok(())
}

// The entries answer that it is no table, or what they should under it.
fn try_entries(
    heap: Global,
    dice: &mut Dice,
    alphabet: &Alphabet,
    letters: &[Vec<u8>],
    plain: &Plain,
    report: &mut Report,
) -> Result<(), AllocError> {
    let is_table = plain.refusal().is_none();
    let many = 1000 + dice.below(2);
    for name in [
        drawn::name(heap, dice, alphabet)?,
        drawn::letters_drawn(heap, dice, alphabet, many)?,
    ] {
        let name = plain.name(heap, &name)?;
        let size = name
            .key
            .len()
            .saturating_add(2)
            .saturating_sub(dice.below(5));
        try_entry(heap, plain, is_table, &name, size, report)?;
    }
    let mut lists = Lists::new(heap, letters)?;
    lists.places = in_order(heap, &lists.names(heap, plain)?)?;
    let question = drawn::question(heap, dice, alphabet, letters)?;
    let numbers = lists.answer(heap, plain, is_table, &question)?;
    ask_entry(heap, plain, &lists, &question, &numbers, report)
}
