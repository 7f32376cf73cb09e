// Names beside the same names with a letter written out that weighs on level one as others do, one behind the other.
use crate::alphabet::Alphabet;
use crate::dice::Dice;
use crate::lists::{Lists, in_order, number};
use crate::plain::Plain;
use crate::report::{Kind, Report};
use crate::trial::finding::{Listed, ask};
use crate::trial::ligature::Ligature;
use crate::trial::{Both, made};
use crate::{drawn, reading};
use catalogue::Catalogue;
use keys::{Level, Row};
use std::alloc::{AllocError, Global};
use table::Table;

// Under the table with all its runs, and with few or none.
pub(crate) fn run(
    heap: Global,
    dice: &mut Dice,
    both: &Both,
    report: &mut Report,
) -> Result<(), AllocError> {
    let mut plain = both.plain.copy(heap)?;
    try_table(heap, dice, both.alphabet, &mut plain, report)?;
    let runs = plain.listed_runs(heap)?;
    plain.pairs.clear();
    plain.how_many = 0;
    plain.longs.clear();
    for _ in 0..dice.below(4) {
        let place = dice.below(runs.len());
        if let Some(run) = runs.get(place) {
            if plain.run(run.letters()).is_none() {
                plain.push_run(*run)?;
            }
        }
    }
    try_table(heap, dice, both.alphabet, &mut plain, report)
}

// A letter comes to weigh as others do, and names in which it is written out are tried.
fn try_table(
    heap: Global,
    dice: &mut Dice,
    alphabet: &Alphabet,
    plain: &mut Plain,
    report: &mut Report,
) -> Result<(), AllocError> {
    let Some(ligature) = Ligature::drawn(heap, dice, alphabet, plain)? else {
        return Ok(());
    };
    if plain.letter_count() > 2000 {
        return Ok(());
    }
    let mut letters = alphabet.letters.to_vec(heap)?;
    for _ in 0..1 + letters.len() / 2 {
        letters.push(ligature.letter)?;
        letters.extend_from_slice(&ligature.parts)?;
    }
    let alphabet = Alphabet {
        utf8: plain.utf8,
        letters,
        longs: plain.listed_runs(heap)?,
    };
    match made(heap, plain) {
        Ok(own) => {
            let both = Both {
                plain,
                table: own.table(),
                alphabet: &alphabet,
            };
            try_names(heap, dice, &both, &ligature, report)
        }
        Err(why) => report.differ(plain, format!(in heap; "a table is turned away: {why:?}")?),
    }
}

// Names with the letter in them, and the same names with it written out.
fn try_names(
    heap: Global,
    dice: &mut Dice,
    both: &Both,
    ligature: &Ligature,
    report: &mut Report,
) -> Result<(), AllocError> {
    let runs = both.plain.listed_runs(heap)?;
    let mut names = Vec::new(heap);
    // The places of two names of which the second is the first written out, no run being in the way.
    let mut alike = Vec::new(heap);
    for _ in 0..20 {
        let name = drawn::name(heap, dice, both.alphabet)?;
        let letters = reading::letters(heap, both.plain.utf8, &name)?;
        let written = ligature.write_out(heap, &letters)?;
        if written.starts.is_empty() {
            continue;
        }
        let mut other = Vec::new(heap);
        for letter in &written.letters {
            reading::write(&mut other, both.plain.utf8, *letter)?;
        }
        let is_free = !ligature.is_hindered(&runs, &letters, &written);
        try_rows(heap, both, is_free, &name, &other, report)?;
        if reading::refusal(both.plain.utf8, &other).is_none() {
            if is_free {
                alike.push(names.len())?;
            }
            names.push(name)?;
            names.push(other)?;
        }
    }
    try_finding(heap, dice, both, &names, &alike, report)
}

// Where no run is in the way, both have the same first row.
fn try_rows(
    heap: Global,
    both: &Both,
    is_free: bool,
    name: &[u8],
    other: &[u8],
    report: &mut Report,
) -> Result<(), AllocError> {
    let (one, two) = (both.plain.name(heap, name)?, both.plain.name(heap, other)?);
    let is_same = one.row.as_slice() == two.row.as_slice();
    if is_free {
        report.count(Kind::WrittenOut);
        if both.plain.run_count() > 0 {
            report.count(Kind::WrittenBesideRuns);
        }
        if one.longest > 1 || two.longest > 1 {
            report.count(Kind::WrittenMeetingRuns);
        }
    } else {
        report.count(Kind::RunsInTheWay);
        if !is_same {
            report.count(Kind::OtherFirstRow);
        }
    }
    let right = has_row(&both.table, name, &one.row) && has_row(&both.table, other, &two.row);
    if !right || is_free && !is_same {
        let (one, two) = (&one.row, &two.row);
        let what = format!(in heap; "{name:?} written out {other:?}: plainly {one:?} and {two:?}")?;
        report.differ(both.plain, what)?;
    }
    Ok(())
}

// Whether the library gives this row of level one.
fn has_row(table: &Table, name: &[u8], row: &[u32]) -> bool {
    Row::new(table, Level::Primary, name).eq(row.iter().copied())
}

// The names in order, and questions to them.
fn try_finding(
    heap: Global,
    dice: &mut Dice,
    both: &Both,
    names: &[Vec<u8>],
    alike: &[usize],
    report: &mut Report,
) -> Result<(), AllocError> {
    let mut lists = Lists::new(heap, names)?;
    let read = lists.names(heap, both.plain)?;
    lists.places = in_order(heap, &read)?;
    let listed = Listed {
        both,
        lists: &lists,
        names: &read,
    };
    for _ in 0..4 {
        let question = drawn::question(heap, dice, both.alphabet, names)?;
        try_question(heap, &listed, &question, alike, report)?;
    }
    Ok(())
}

// Of two such names a question finds both or neither.
fn try_question(
    heap: Global,
    listed: &Listed,
    question: &[u8],
    alike: &[usize],
    report: &mut Report,
) -> Result<(), AllocError> {
    let lists = listed.lists;
    let plain = listed.both.plain;
    let table = &listed.both.table;
    match Catalogue::check(table, &lists.text, &lists.starts, &lists.places) {
        Ok(catalogue) => {
            ask(heap, listed, &catalogue, question, report)?;
            let found = catalogue.find(question);
            for place in alike {
                let one = found.contains(&number(*place));
                let other = found.contains(&number(place.saturating_add(1)));
                if one != other {
                    let what = format!(in heap;
                        "asked {question:?}: one of the names at {place} alone, of {lists}"
                    )?;
                    report.differ(plain, what)?;
                } else if one {
                    report.count(Kind::WrittenFound);
                }
            }
            Ok(())
        }
        Err(why) => report.differ(
            plain,
            format!(in heap; "a list in order: {why:?} in {lists}")?,
        ),
    }
}
