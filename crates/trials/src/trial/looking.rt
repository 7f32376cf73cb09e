// Tables looked into: what letters and runs weigh, and the runs as they lie.
use crate::dice::Dice;
use crate::joined::Joined;
use crate::plain::Plain;
use crate::report::{Kind, Report};
use crate::trial::Both;
use crate::trial::lettering::{any_number, look_at, look_at_letters, look_at_spreads};
use std::alloc::{AllocError, Global};
use table::{AddError, Long, LongRun, Table, TableBuf, Weights};

pub(crate) fn run(
    heap: Global,
    dice: &mut Dice,
    both: &Both,
    report: &mut Report,
) -> Result<(), AllocError> {
    report.count(Kind::Tables);
    match both.plain.run_count() {
        0 => report.count(Kind::TablesWithoutRuns),
        200 => report.count(Kind::TablesFull),
        _ => {}
    }
    if !both.plain.longs.is_empty() {
        report.count(Kind::TablesOfLonger);
    }
    if !both.plain.spreads.is_empty() {
        report.count(Kind::TablesOfSeveral);
    }
    look(heap, dice, both, &both.table, report)?;
    let copy = both.table.to_buf(heap)?;
    look(heap, dice, both, &copy.table(), report)?;
    match filled(heap, both.plain) {
        Ok(own) => look(heap, dice, both, &own.table(), report),
        Err(why) => report.differ(
            both.plain,
            format!(in heap; "a table is not filled: {why:?}")?,
        ),
    }
}

// The table, filled run by run, the last one first of the longer ones, and letter by letter, the last one first.
fn filled(heap: Global, plain: &Plain) -> Result<TableBuf, AddError> {
    let mut own = if plain.utf8 {
        TableBuf::in_utf8(heap)?
    } else {
        TableBuf::new(heap)?
    };
    for long in plain.longs.iter().rev().filter_map(|run| run.long()) {
        own.add_long(long)?;
    }
    for pair in plain.listed_runs(heap)?.iter().filter_map(|run| run.pair()) {
        own.add_pair(pair)?;
    }
    for entry in plain.entries(heap)?.iter().rev() {
        own.add_letter(entry.lent())?;
    }
    Ok(own)
}

// A table says what the plain numbers say: of all letters, of the runs as they lie, and of any two letters, three and four.
fn look(
    heap: Global,
    dice: &mut Dice,
    both: &Both,
    table: &Table,
    report: &mut Report,
) -> Result<(), AllocError> {
    let plain = both.plain;
    look_at_letters(heap, plain, table, report)?;
    look_at_spreads(heap, plain, table, report)?;
    if plain.utf8 {
        for _ in 0..100 {
            look_at(heap, plain, table, any_number(dice), report)?;
        }
    }
    let count = plain.pair_count();
    if table.pair_count() != count {
        let told = table.pair_count();
        report.differ(
            plain,
            format!(in heap; "pair_count: {told}, plainly {count}")?,
        )?;
    }
    for place in 0..count.saturating_add(2) {
        let pair = table.pair_at(place);
        if pair != plain.pair_at(place) {
            report.differ(plain, format!(in heap; "pair_at {place}: {pair:?}")?)?;
        }
        if let Some(pair) = pair {
            let second = both.alphabet.one(dice);
            look_up(heap, plain, table, pair.first, second, report)?;
        }
    }
    look_at_longs(heap, plain, table, report)?;
    for place in 0..100usize {
        let (first, second) = (both.alphabet.one(dice), both.alphabet.one(dice));
        look_up(heap, plain, table, first, second, report)?;
        let first = both.alphabet.any(dice);
        look_up(heap, plain, table, first, second, report)?;
        let run = LongRun {
            first: both.alphabet.one(dice),
            second,
            third: both.alphabet.one(dice),
            fourth: (place % 2 == 0).then_some(both.alphabet.one(dice)),
        };
        look_up_long(heap, plain, table, run, report)?;
    }
    Ok(())
}

// The longer runs: each is there once, in their order, and no other.
fn look_at_longs(
    heap: Global,
    plain: &Plain,
    table: &Table,
    report: &mut Report,
) -> Result<(), AllocError> {
    let count = plain.longs.len();
    let mut listed = Vec::new(heap);
    for place in 0..count.saturating_add(2) {
        if let Some(long) = table.long_at(place) {
            listed.push(Joined::from(long))?;
        }
    }
    let all_there = plain.longs.iter().all(|run| {
        listed.iter().filter(|other| is_same(run, *other)).count() == 1
    });
    let in_order = listed
        .iter()
        .zip(listed.iter().skip(1))
        .all(|(one, next)| next.is_behind(one));
    let told = table.long_count();
    if told != count || listed.len() != count || !all_there || !in_order {
        report.differ(
            plain,
            format!(in heap; "long_count: {told}, plainly {count}")?,
        )?;
    }
    for long in plain.longs.iter().filter_map(|run| run.long()) {
        let Long { run, .. } = long;
        look_up_long(heap, plain, table, run, report)?;
        let turned = LongRun {
            first: run.third,
            third: run.first,
            ..run
        };
        look_up_long(heap, plain, table, turned, report)?;
        let shorter = LongRun {
            fourth: None,
            ..run
        };
        look_up_long(heap, plain, table, shorter, report)?;
    }
    Ok(())
}

fn is_same(one: &Joined, other: &Joined) -> bool {
    one.letters() == other.letters() && one.weights == other.weights
}

// What two letters weigh together.
fn look_up(
    heap: Global,
    plain: &Plain,
    table: &Table,
    first: u32,
    second: u32,
    report: &mut Report,
) -> Result<(), AllocError> {
    let together = plain
        .pair(first, second)
        .map(|weights| Weights::from(weights));
    report.count(if together.is_some() {
        Kind::Together
    } else {
        Kind::Apart
    });
    let told = table.pair(first, second);
    if told != together {
        let what = format!(in heap; "pair {first} {second}: {told:?}, plainly {together:?}")?;
        report.differ(plain, what)?;
    }
    Ok(())
}

// What three or four letters weigh together.
fn look_up_long(
    heap: Global,
    plain: &Plain,
    table: &Table,
    run: LongRun,
    report: &mut Report,
) -> Result<(), AllocError> {
    let weights = Weights::from([0; 3]);
    let letters = Joined::from(Long { run, weights });
    let together = plain
        .run(letters.letters())
        .map(|weights| Weights::from(weights));
    report.count(if together.is_some() {
        Kind::LongerTogether
    } else {
        Kind::LongerApart
    });
    let told = table.long(run);
    if told != together {
        let what = format!(in heap; "long {run:?}: {told:?}, plainly {together:?}")?;
        report.differ(plain, what)?;
    }
    Ok(())
}
