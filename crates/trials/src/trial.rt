// One trial: a table, and all that is tried under it.
use crate::alphabet::Alphabet;
use crate::dice::Dice;
use crate::drawn::Drawn;
use crate::joined::lent;
use crate::plain::Plain;
use crate::report::Report;
use crate::spread::entered;
use std::alloc::{AllocError, Global};
use table::{AddError, Table, TableBuf};

mod changed;
mod comparing;
mod damaging;
mod finding;
mod growing;
mod keying;
mod lettering;
mod ligature;
mod listing;
mod looking;
mod recording;
mod records;
mod renewed;
mod renewing;
mod spoiling;
mod widening;
mod written;

// A table in plain numbers and as the library has it, and the letters that names are mostly made of.
#[derive(Clone, Copy)]
pub(crate) struct Both<'a> {
    pub(crate) plain: &'a Plain,
    pub(crate) table: Table<'a>,
    pub(crate) alphabet: &'a Alphabet,
}

// A trial of names that are bytes.
pub(crate) fn run(heap: Global, number: u64, report: &mut Report) -> Result<(), AllocError> {
    let mut dice = Dice::new(number);
    let drawn = Drawn::new(heap, &mut dice)?;
    let plain = &drawn.plain;
    if plain.is_numbers() {
        return match Table::check(&plain.letters, &plain.pairs, plain.how_many) {
            Ok(table) => run_bytes(heap, &mut dice, &drawn, table, report),
            Err(why) => report.differ(plain, format!(in heap; "a table is turned away: {why:?}")?),
        };
    }
    match made(heap, plain) {
        Ok(own) => run_bytes(heap, &mut dice, &drawn, own.table(), report),
        Err(why) => report.differ(plain, format!(in heap; "a table is not made: {why:?}")?),
    }
}

fn run_bytes(
    heap: Global,
    dice: &mut Dice,
    drawn: &Drawn,
    table: Table,
    report: &mut Report,
) -> Result<(), AllocError> {
    let both = Both {
        plain: &drawn.plain,
        table,
        alphabet: &drawn.alphabet,
    };
    run_under(heap, dice, &both, report)?;
    damaging::run(heap, dice, &both, report)?;
    spoiling::run(heap, dice, &both, report)?;
    widening::run(heap, dice, &both, report)
}

// A trial of names in UTF-8.
pub(crate) fn run_in_utf8(
    heap: Global,
    number: u64,
    report: &mut Report,
) -> Result<(), AllocError> {
    let mut dice = Dice::new(number);
    let drawn = Drawn::in_utf8(heap, &mut dice)?;
    let plain = &drawn.plain;
    match made(heap, plain) {
        Ok(own) => run_wide(heap, &mut dice, &drawn, &own, report),
        Err(why) => report.differ(plain, format!(in heap; "a table is not made: {why:?}")?),
    }
}

fn run_wide(
    heap: Global,
    dice: &mut Dice,
    drawn: &Drawn,
    own: &TableBuf,
    report: &mut Report,
) -> Result<(), AllocError> {
    let both = Both {
        plain: &drawn.plain,
        table: own.table(),
        alphabet: &drawn.alphabet,
    };
    run_under(heap, dice, &both, report)?;
    recording::run(heap, dice, &both, report)?;
    spoiling::run(heap, dice, &both, report)
}

fn run_under(
    heap: Global,
    dice: &mut Dice,
    both: &Both,
    report: &mut Report,
) -> Result<(), AllocError> {
    looking::run(heap, dice, both, report)?;
    keying::run(heap, dice, both, report)?;
    comparing::run(heap, dice, both, report)?;
    listing::run(heap, dice, both, report)?;
    growing::run(heap, dice, both, report)?;
    renewing::run(heap, dice, both, report)?;
    written::run(heap, dice, both, report)
}

// The library's table of plain numbers, all at once.
fn made(heap: Global, plain: &Plain) -> Result<TableBuf, AddError> {
    if plain.utf8 {
        let runs = plain.listed_runs(heap)?;
        let entries = plain.entries(heap)?;
        return TableBuf::of(&entered(heap, &entries)?, &lent(heap, &runs)?, heap);
    }
    let mut own = Table::check(&plain.letters, &plain.pairs, plain.how_many)?.to_buf(heap)?;
    for long in plain.longs.iter().filter_map(|run| run.long()) {
        own.add_long(long)?;
    }
    for entry in &plain.spreads {
        own.add_letter(entry.lent())?;
    }
    Ok(own)
}
