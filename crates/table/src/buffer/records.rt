// Lent records as a table of names in UTF-8: they are looked through before any memory is asked for.
ghost use Rattle.std.specs.Prelude.{◌≡◌, ◌≤◌, [], IfOk, None, length, true};
ghost use Rattle.table.specs.Buffer.{buffer_rules, buffer_runs};
ghost use Rattle.table.specs.Records.{IsFree, MadeOf, RunIn, Says, excess_record, first_refusal, foreign_record, is_told, length_record, letter_record, letter_told, letters_refusal, many_weighing, runs_refusal, twice_record};
ghost use Rattle.table.specs.Refusals.{unknown_run, verdict};
ghost use Rattle.pieces.specs.Runs.{counts_some};

use crate::buffer::TableBuf;
use crate::buffer::fill::check_triples;
use crate::fault::{AddError, Refusal};
use crate::view::Table;
use pieces::{LetterEntry, Long, LongRun, Pair, Run};
use std::alloc::{AllocError, Global};
use utf8::is_letter;

impl TableBuf {
    // Letters with what they weigh, in any order, and runs, as a table of names in UTF-8. An entry that weighs nothing is as
    // if it weren't there. Runs are looked at before letters, but for how many letters each has; that a letter weighs as more than
    // three is told last; and places are counted over all records.
    pub fn of(letters: &[LetterEntry], runs: &[Run<'_>], heap: Global) -> Result<TableBuf, AddError>
        ensures { MadeOf letters.now runs.now result }
    {
        check_runs(runs)?;
        check_letters(letters)?;
        all_fit(runs)?;
        none_in_excess(letters)?;
        let mut table = TableBuf::in_utf8(heap)?;
        table.write_runs(runs)?;
        table.write_letters(runs, letters)?;
        Ok(table)
    }

    // Runs of which none is refused are written into a blank table.
    fn write_runs(&mut self, runs: &[Run<'_>]) -> Result<(), AllocError>
        requires blank { Says [] [] self.old }
        requires runs { runs_refusal runs.now ≡ None }
        requires fit { first_refusal length_record [] runs.now ≡ None }
        ensures { IfOk result (λ x. Says [] runs.now self.new) }
    {
        for run in runs {
            self.write_run(*run)?;
        }
        Ok(())
    }

    // A run that is not refused is written, as a pair or as a longer one.
    fn write_run(&mut self, run: Run<'_>) -> Result<(), AllocError>
        requires free { IsFree (buffer_rules self.old) (buffer_runs self.old) run.letters.now }
        requires fits { (2 ≤ length run.letters.now) × (length run.letters.now ≤ 4) }
        ensures { IfOk result (λ x. RunIn self.old run.entry self.new) }
    {
        let Run { letters, weights } = run;
        if letters.len() == 2 {
            return self.write_pair(Pair {
                first: letters[0],
                second: letters[1],
                weights,
            });
        }
        let run = LongRun {
            first: letters[0],
            second: letters[1],
            third: letters[2],
            fourth: letters.get(3).copied(),
        };
        self.write_long(Long { run, weights })
    }

    // Letters of which none is refused are written into a table of runs.
    fn write_letters(&mut self, runs: &[Run<'_>], letters: &[LetterEntry]) -> Result<(), AllocError>
        requires blank { Says [] runs.now self.old }
        requires letters { letters_refusal letters.now ≡ None }
        requires fit { first_refusal excess_record [] letters.now ≡ None }
        ensures { IfOk result (λ x. Says letters.now runs.now self.new) }
    {
        for entry in letters {
            if entry.weights.counts() {
                self.write_letter(*entry)?;
            }
        }
        Ok(())
    }
}

// Whether all runs are taken, but for how many letters each has.
fn check_runs(runs: &[Run<'_>]) -> Result<(), Refusal>
    ensures { result ≡ verdict (runs_refusal runs.now) }
{
    if runs.len() > Table::MAX_RUNS {
        return Err(Refusal::TooMany);
    }
    all_known(runs)?;
    all_apart(runs)
}

// Whether no run has a letter above 65,535.
fn all_known(runs: &[Run<'_>]) -> Result<(), Refusal>
    ensures { result ≡ verdict (first_refusal foreign_record [] runs.now) }
{
    for (place, run) in runs.iter().enumerate() {
        if has_unknown(run.letters) {
            return Err(Refusal::Foreign(place));
        }
    }
    Ok(())
}

// Whether one of the letters is above 65,535.
fn has_unknown(letters: &[u32]) -> bool
    ensures { result ≡ unknown_run true letters.now }
{
    letters.iter().any(|letter| *letter > 65535)
}

// Whether no run equals an earlier one.
fn all_apart(runs: &[Run<'_>]) -> Result<(), Refusal>
    ensures { result ≡ verdict (first_refusal twice_record [] runs.now) }
{
    for (place, run) in runs.iter().enumerate() {
        if is_among(&runs[0..place], run.letters) {
            return Err(Refusal::Twice(place));
        }
    }
    Ok(())
}

// Whether one of the runs is of these letters.
fn is_among(runs: &[Run<'_>], letters: &[u32]) -> bool
    ensures { result ≡ is_told runs.now letters.now }
{
    runs.iter().any(|run| run.letters == letters)
}

// Whether each run has two, three or four letters.
fn all_fit(runs: &[Run<'_>]) -> Result<(), Refusal>
    ensures { result ≡ verdict (first_refusal length_record [] runs.now) }
{
    for (place, run) in runs.iter().enumerate() {
        if run.letters.len() < 2 || run.letters.len() > 4 {
            return Err(Refusal::RunLength(place));
        }
    }
    Ok(())
}

// Whether no letter weighs as more than three.
fn none_in_excess(letters: &[LetterEntry]) -> Result<(), Refusal>
    ensures { result ≡ verdict (first_refusal excess_record [] letters.now) }
{
    for (place, entry) in letters.iter().enumerate() {
        check_triples(entry.weights, place)?;
    }
    Ok(())
}

// Whether all letters are taken, but for how many triples each has.
fn check_letters(letters: &[LetterEntry]) -> Result<(), Refusal>
    ensures { result ≡ verdict (letters_refusal letters.now) }
{
    if many_weighing(letters) > Table::MAX_LETTERS {
        return Err(Refusal::TooManyLetters);
    }
    for (place, entry) in letters.iter().enumerate() {
        check_entry(&letters[0..place], *entry)?;
    }
    Ok(())
}

// Whether an entry is taken behind these.
fn check_entry(front: &[LetterEntry], entry: LetterEntry) -> Result<(), Refusal>
    ensures { result ≡ verdict (letter_record front.now entry) }
{
    if !entry.weights.counts() {
        return Ok(());
    }
    if !is_letter(entry.letter) {
        return Err(Refusal::NoLetter(front.len()));
    }
    if is_weighed(front, entry.letter) {
        return Err(Refusal::LetterTwice(front.len()));
    }
    Ok(())
}

// How many entries weigh something.
fn many_weighing(letters: &[LetterEntry]) -> usize
    ensures { result ≡ many_weighing letters.now }
{
    let mut many = 0;
    for entry in letters {
        if entry.weights.counts() {
            many += 1;
        }
    }
    many
}

// Whether one of the entries says that this letter weighs something.
fn is_weighed(entries: &[LetterEntry], letter: u32) -> bool
    ensures { result ≡ counts_some (letter_told entries.now letter) }
{
    entries
        .iter()
        .any(|entry| entry.letter == letter && entry.weights.counts())
}
