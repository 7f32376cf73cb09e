// Tables of names in UTF-8 made of records: all at once, and step by step.
use crate::dice::Dice;
use crate::joined::{Joined, lent};
use crate::plain::Plain;
use crate::report::{Kind, Report};
use crate::spread::entered;
use crate::trial::Both;
use crate::trial::lettering::has_spreads;
use crate::trial::records::Records;
use std::alloc::{AllocError, Global};
use table::{AddError, Refusal, Table, TableBuf};

pub(crate) fn run(
    heap: Global,
    dice: &mut Dice,
    both: &Both,
    report: &mut Report,
) -> Result<(), AllocError> {
    for _ in 0..4 {
        let mut records = Records {
            letters: both.plain.entries(heap)?,
            runs: both.plain.listed_runs(heap)?,
        };
        records.shuffle(dice);
        for _ in 0..dice.below(4) {
            records.damage(dice, both.plain, both.alphabet)?;
        }
        try_at_once(heap, both.plain, &records, report)?;
        try_steps(heap, both.plain, &records, report)?;
    }
    Ok(())
}

// All at once: the table, or why there is none.
fn try_at_once(
    heap: Global,
    plain: &Plain,
    records: &Records,
    report: &mut Report,
) -> Result<(), AllocError> {
    let refusal = records.refusal(heap)?;
    report.count(match refusal {
        Some(Refusal::TooMany) => Kind::NoTableTooMany,
        Some(Refusal::Foreign(_)) => Kind::NoTableForeign,
        Some(Refusal::Twice(_)) => Kind::NoTableTwice,
        Some(Refusal::TooManyLetters) => Kind::NoTableTooManyLetters,
        Some(Refusal::LetterTwice(_)) => Kind::NoTableLetterTwice,
        Some(Refusal::RunLength(_)) => Kind::NoTableRunLength,
        Some(Refusal::TooManyTriples(_)) => Kind::NoTableExcess,
        Some(_) => Kind::NoTableNoLetter,
        None => Kind::TablesUnharmed,
    });
    let letters = entered(heap, &records.letters)?;
    match TableBuf::of(&letters, &lent(heap, &records.runs)?, heap) {
        Ok(own) if refusal.is_none() => {
            let mut wanted = Plain::new(heap, true)?;
            for run in &records.runs {
                wanted.push_run(*run)?;
            }
            for entry in &records.letters {
                if entry.spread.counts() {
                    wanted.set_letter(entry.letter, entry.spread)?;
                }
            }
            try_same(heap, &wanted, &own.table(), report)
        }
        Err(AddError::Refused(why)) if refusal == Some(why) => Ok(()),
        told => {
            let told = told.err();
            let what = format!(in heap; "records: {told:?}, plainly {refusal:?}")?;
            report.differ(plain, what)
        }
    }
}

// One by one: each is taken or turned away, and those that are taken make the table.
fn try_steps(
    heap: Global,
    plain: &Plain,
    records: &Records,
    report: &mut Report,
) -> Result<(), AllocError> {
    let mut wanted = Plain::new(heap, true)?;
    match TableBuf::in_utf8(heap) {
        Ok(mut own) => {
            for run in &records.runs {
                let refusal = wanted.run_refusal(run.letters());
                let Some(told) = add_run(&mut own, run) else {
                    continue;
                };
                report.count(match refusal {
                    Some(Refusal::TooMany) => Kind::RunsTooMany,
                    Some(Refusal::Foreign(_)) => Kind::RunsForeign,
                    Some(_) => Kind::RunsTwice,
                    None => Kind::RunsAdded,
                });
                try_answer(heap, plain, told, refusal, report)?;
                if refusal.is_none() {
                    wanted.push_run(*run)?;
                }
            }
            let mut many = 0usize;
            for entry in &records.letters {
                let refusal = wanted.letter_refusal(many, entry.letter, entry.spread);
                let told = own.add_letter(entry.lent());
                report.count(match refusal {
                    Some(Refusal::NoLetter(_)) => Kind::LettersForeign,
                    Some(Refusal::TooManyLetters) => Kind::LettersTooMany,
                    Some(Refusal::TooManyTriples(_)) => Kind::LettersExcess,
                    Some(_) => Kind::LettersTwice,
                    None => Kind::LettersAdded,
                });
                try_answer(heap, plain, told, refusal, report)?;
                if refusal.is_none() && entry.spread.counts() {
                    if entry.spread.expanded().is_some() {
                        report.count(Kind::LettersSpread);
                    }
                    many = many.saturating_add(1);
                    wanted.set_letter(entry.letter, entry.spread)?;
                }
            }
            try_same(heap, &wanted, &own.table(), report)
        }
        Err(_) => report.differ(plain, format!(in heap; "no memory for a table")?),
    }
}

// What is answered where a run is added; nothing where it is too short or too long.
fn add_run(own: &mut TableBuf, run: &Joined) -> Option<Result<(), AddError>> {
    match (run.pair(), run.long()) {
        (Some(pair), _) => Some(own.add_pair(pair)),
        (None, Some(long)) => Some(own.add_long(long)),
        (None, None) => None,
    }
}

fn try_answer(
    heap: Global,
    plain: &Plain,
    told: Result<(), AddError>,
    refusal: Option<Refusal>,
    report: &mut Report,
) -> Result<(), AllocError> {
    let wanted = match refusal {
        Some(why) => Err(AddError::Refused(why)),
        None => Ok(()),
    };
    if told != wanted {
        let what = format!(in heap; "a record more: {told:?}, plainly {wanted:?}")?;
        report.differ(plain, what)?;
    }
    Ok(())
}

// A table lists what the plain numbers do.
fn try_same(
    heap: Global,
    wanted: &Plain,
    table: &Table,
    report: &mut Report,
) -> Result<(), AllocError> {
    let letters = wanted.listed(heap)?;
    let same = table.utf8()
        && table.letter_count() == letters.len()
        && table.pair_count() == wanted.pair_count()
        && table.long_count() == wanted.longs.len()
        && has_spreads(heap, wanted, table)?
        && letters
            .iter()
            .enumerate()
            .all(|(place, entry)| table.letter_at(place) == Some(*entry))
        && (0..wanted.pair_count()).all(|place| table.pair_at(place) == wanted.pair_at(place))
        && wanted
            .longs
            .iter()
            .filter_map(|run| run.long())
            .all(|long| table.long(long.run) == Some(long.weights));
    if !same {
        report.differ(wanted, format!(in heap; "a table of records")?)?;
    }
    Ok(())
}
