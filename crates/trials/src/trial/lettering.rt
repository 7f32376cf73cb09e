// Letters looked up: those that a table lists, those that weigh as two or three, and others.
use crate::alphabet::any_letter;
use crate::dice::Dice;
use crate::plain::Plain;
use crate::report::{Kind, Report};
use std::alloc::{AllocError, Global};
use table::{Table, Weights};

// The letters that are listed, and none behind.
pub(crate) fn look_at_letters(
    heap: Global,
    plain: &Plain,
    table: &Table,
    report: &mut Report,
) -> Result<(), AllocError> {
    let listed = plain.listed(heap)?;
    for (place, entry) in listed.iter().enumerate() {
        look_at(heap, plain, table, entry.letter, report)?;
        let told = table.letter_at(place);
        if told != Some(*entry) {
            let what = format!(in heap; "letter_at {place}: {told:?}, plainly {entry:?}")?;
            report.differ(plain, what)?;
        }
    }
    let count = listed.len();
    let told = table.letter_count();
    if told != count || table.letter_at(count).is_some() || table.letter_at(usize::MAX).is_some() {
        report.differ(
            plain,
            format!(in heap; "letter_count: {told}, plainly {count}")?,
        )?;
    }
    Ok(())
}

// The letters that weigh as two or three: each is there once, in the order of their numbers, and no other.
pub(crate) fn look_at_spreads(
    heap: Global,
    plain: &Plain,
    table: &Table,
    report: &mut Report,
) -> Result<(), AllocError> {
    let count = plain.spreads.len();
    if table.expansion_count() != count || !has_spreads(heap, plain, table)? {
        let told = table.expansion_count();
        report.differ(
            plain,
            format!(in heap; "expansion_count: {told}, plainly {count}")?,
        )?;
    }
    for entry in &plain.spreads {
        look_at(heap, plain, table, entry.letter, report)?;
    }
    Ok(())
}

// Whether the letters that weigh as two or three lie in a table as they should.
pub(crate) fn has_spreads(heap: Global, plain: &Plain, table: &Table) -> Result<bool, AllocError> {
    let mut listed = Vec::new(heap);
    for place in 0..plain.spreads.len().saturating_add(2) {
        if let Some(expansion) = table.expansion_at(place) {
            listed.push(expansion)?;
        }
    }
    let all_there = plain.spreads.iter().all(|entry| {
        listed
            .iter()
            .filter(|other| Some(**other) == entry.expansion())
            .count()
            == 1
    });
    let in_order = listed
        .iter()
        .zip(listed.iter().skip(1))
        .all(|(one, next)| one.letter < next.letter);
    Ok(listed.len() == plain.spreads.len() && all_there && in_order)
}

// What a letter weighs: itself, as two or three, and all of it.
pub(crate) fn look_at(
    heap: Global,
    plain: &Plain,
    table: &Table,
    letter: u32,
    report: &mut Report,
) -> Result<(), AllocError> {
    report.count(Kind::Letters);
    let spread = plain.spread(letter);
    let expanded = spread.expanded();
    if expanded.is_some() {
        report.count(Kind::LettersOfSeveral);
    }
    let weights = table.letter(letter);
    if weights != Weights::from(plain.letter(letter)) || table.expansion(letter) != expanded {
        let told = table.expansion(letter);
        report.differ(
            plain,
            format!(in heap; "letter {letter}: {weights:?}, {told:?}")?,
        )?;
    }
    let told = table.triples(letter);
    if told != spread.lent() {
        report.differ(plain, format!(in heap; "triples of {letter}: {told:?}")?)?;
    }
    Ok(())
}

// Any number, letter or not.
pub(crate) fn any_number(dice: &mut Dice) -> u32 {
    match dice.below(4) {
        0 => 0xd800 + dice.below(0x800) as u32,
        1 => 0x10000 + dice.below(0x10000) as u32,
        2 => u32::MAX,
        _ => any_letter(dice, true),
    }
}
