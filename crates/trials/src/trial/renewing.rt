// Newer tables, and what they keep of older ones.
use crate::alphabet::{Alphabet, Spelling};
use crate::dice::Dice;
use crate::joined::Joined;
use crate::named::compare;
use crate::plain::Plain;
use crate::reading;
use crate::report::{Kind, Report};
use crate::trial::changed::{are_old, has_changed, keeps};
use crate::trial::renewed::renewed;
use crate::trial::{Both, made};
use order::{Change, Collate, keeps_order};
use std::alloc::{AllocError, Global};
use table::Table;

pub(crate) fn run(
    heap: Global,
    dice: &mut Dice,
    both: &Both,
    report: &mut Report,
) -> Result<(), AllocError> {
    let marks = if !both.plain.utf8 {
        256
    } else if dice.once_in(4) {
        300
    } else {
        65536
    };
    let mut old = vec![in heap; false; marks]?;
    let mut letters = Vec::new(heap);
    let left_out = match dice.below(3) {
        0 => 2,
        1 => 4,
        _ => 100,
    };
    for letter in &both.alphabet.letters {
        if !dice.once_in(left_out) {
            if let Some(mark) = old.get_mut(*letter as usize) {
                *mark = true;
                letters.push(*letter)?;
            }
        }
    }
    let letters = Alphabet {
        utf8: both.plain.utf8,
        letters,
        longs: old_longs(heap, both.plain, &old)?,
    };
    for _ in 0..5 {
        let newer = renewed(heap, dice, both, &old)?;
        match made(heap, &newer) {
            Ok(own) => {
                let table = own.table();
                let told = keeps_order(&both.table, &table, &old);
                try_change(heap, both.plain, &newer, &old, told, report)?;
                if told.is_ok() {
                    try_names(heap, dice, both, &newer, &table, &letters, report)?;
                }
            }
            Err(why) => report.differ(
                &newer,
                format!(in heap; "a table is turned away: {why:?}")?,
            )?,
        }
    }
    Ok(())
}

// The longer runs of a table whose letters are all old.
fn old_longs(heap: Global, plain: &Plain, old: &[bool]) -> Result<Vec<Joined>, AllocError> {
    let mut longs = Vec::new(heap);
    for run in &plain.longs {
        if are_old(old, run.letters()) {
            longs.push(*run)?;
        }
    }
    Ok(longs)
}

// What is said of a newer table is so.
fn try_change(
    heap: Global,
    older: &Plain,
    newer: &Plain,
    old: &[bool],
    told: Result<(), Change>,
    report: &mut Report,
) -> Result<(), AllocError> {
    let keeps = keeps(heap, older, newer, old)?;
    report.count(match told {
        Ok(()) => Kind::NewerKeeps,
        Err(Change::Utf8) => Kind::NewerReads,
        Err(Change::Joins(_)) => Kind::NewerJoins,
        Err(Change::Expands(_)) => Kind::NewerExpands,
        Err(Change::Counts(_, _)) => Kind::NewerCounts,
        Err(Change::Order(_, _, _)) => Kind::NewerOrders,
    });
    let right = match told {
        Ok(()) => keeps,
        Err(change) => !keeps && has_changed(older, newer, old, change),
    };
    if !right {
        let what = format!(in heap; "keeps_order: {told:?}, plainly {keeps}, of {newer}")?;
        report.differ(older, what)?;
    }
    Ok(())
}

// Under a newer table that keeps, names in old letters stand as before.
fn try_names(
    heap: Global,
    dice: &mut Dice,
    both: &Both,
    newer: &Plain,
    table: &Table,
    letters: &Alphabet,
    report: &mut Report,
) -> Result<(), AllocError> {
    let mut names = Vec::new(heap);
    for _ in 0..12 {
        let name = old_name(heap, dice, letters)?;
        names.push((both.plain.name(heap, &name)?, newer.name(heap, &name)?))?;
    }
    for (one, one_now) in &names {
        for (other, other_now) in &names {
            report.count(Kind::Kept);
            let before = compare(&one.key, &other.key);
            let now = compare(&one_now.key, &other_now.key);
            let (one, other) = (&one.bytes, &other.bytes);
            let told = table.compare(one, other);
            if before != now || told != now {
                let what = format!(in heap;
                    "{one:?} {other:?} stood {before:?} and stand {told:?}, plainly {now:?}, under {newer}"
                )?;
                report.differ(both.plain, what)?;
            }
        }
    }
    Ok(())
}

// A name of none to seven letters, all of them old.
fn old_name(heap: Global, dice: &mut Dice, old: &Alphabet) -> Result<Vec<u8>, AllocError> {
    let mut name = Vec::new(heap);
    if !old.letters.is_empty() {
        let mut spelling = Spelling::new();
        for _ in 0..dice.below(8) {
            reading::write(&mut name, old.utf8, spelling.next(dice, old))?;
        }
    }
    Ok(name)
}
