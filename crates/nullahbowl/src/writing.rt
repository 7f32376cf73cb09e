// Writing the names that are found, and tables.
ghost use Rattle.std.specs.Prelude.{OnOk};
ghost use Rattle.std.specs.Io.KnownBytes.{Appends};
ghost use Rattle.catalogue.specs.Naming.{names_left};
ghost use Rattle.nullahbowl.specs.Writing.{found_text, letter_line, letters_text, lines_of, longs_text, pairs_text, table_text};
ghost use Rattle.table.specs.Meaning.{longs_of, pairs_of, rules_of};

use crate::argument::Options;
use catalogue::NamesFound;
use std::io;
use std::io::Write;
use table::{LetterEntry, Table};
use texts::Entry;

// The names that are found, or how many there are.
pub fn write_found<W: Write>(out: &mut W, found: NamesFound, options: Options) -> io::Result<()>
    ensures { OnOk result (Appends (W.Write.contents out.old) (W.Write.contents out.new) (found_text options (names_left found.entry))) }
{
    if options.count {
        let count = found.len();
        return writeln!(out, "{count}");
    }
    write_names(out, found.first(options.first.unwrap_or(usize::MAX)))
}

// Names, one to a line.
fn write_names<W: Write>(out: &mut W, names: NamesFound) -> io::Result<()>
    ensures { OnOk result (Appends (W.Write.contents out.old) (W.Write.contents out.new) (lines_of (names_left names.entry))) }
{
    for name in names {
        out.write_all(name)?;
        out.write_all(b"\n")?;
    }
    Ok(())
}

// A table as lines that make it: the letters that weigh something, the pairs, and the longer runs.
pub fn write_table<W: Write>(out: &mut W, table: &Table) -> io::Result<()>
    ensures { OnOk result (Appends (W.Write.contents out.old) (W.Write.contents out.new) (table_text (rules_of table.now) (pairs_of table.now) (longs_of table.now))) }
{
    write_letters(out, table)?;
    write_pairs(out, table)?;
    write_longs(out, table)
}

// All letters that weigh something.
fn write_letters<W: Write>(out: &mut W, table: &Table) -> io::Result<()>
    ensures { OnOk result (Appends (W.Write.contents out.old) (W.Write.contents out.new) (letters_text (rules_of table.now) 65536)) }
{
    for letter in 0..=65_535u32 {
        let weights = table.triples(letter);
        write_letter(out, LetterEntry { letter, weights })?;
    }
    Ok(())
}

// A letter, if it weighs something.
fn write_letter<W: Write>(out: &mut W, letter: LetterEntry) -> io::Result<()>
    ensures { OnOk result (Appends (W.Write.contents out.old) (W.Write.contents out.new) (letter_line letter)) }
{
    if !letter.weights.counts() {
        return Ok(());
    }
    let entry = Entry::Letter(letter);
    writeln!(out, "{entry}")
}

// All pairs.
fn write_pairs<W: Write>(out: &mut W, table: &Table) -> io::Result<()>
    ensures { OnOk result (Appends (W.Write.contents out.old) (W.Write.contents out.new) (pairs_text (pairs_of table.now))) }
{
    for place in 0..table.pair_count() {
        if let Some(pair) = table.pair_at(place) {
            let entry = Entry::Pair(pair);
            writeln!(out, "{entry}")?;
        }
    }
    Ok(())
}

// All longer runs.
fn write_longs<W: Write>(out: &mut W, table: &Table) -> io::Result<()>
    ensures { OnOk result (Appends (W.Write.contents out.old) (W.Write.contents out.new) (longs_text (longs_of table.now))) }
{
    for place in 0..table.long_count() {
        if let Some(long) = table.long_at(place) {
            let entry = Entry::Long(long);
            writeln!(out, "{entry}")?;
        }
    }
    Ok(())
}
