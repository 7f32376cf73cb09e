// What is found in lists, checked once and checked each time.
use crate::lists::{Lists, part};
use crate::named::Name;
use crate::plain::Plain;
use crate::report::{Kind, Report};
use crate::trial::Both;
use catalogue::{Catalogue, find, find_under};
use keys::NameRefusal;
use std::alloc::{AllocError, Global};

// A list, and its names as they were read.
#[derive(Clone, Copy)]
pub(crate) struct Listed<'a> {
    pub(crate) both: &'a Both<'a>,
    pub(crate) lists: &'a Lists,
    pub(crate) names: &'a [Name],
}

// Asks a catalogue, and then the lists that it is of.
pub(crate) fn ask(
    heap: Global,
    listed: &Listed,
    catalogue: &Catalogue,
    question: &[u8],
    report: &mut Report,
) -> Result<(), AllocError> {
    let plain = listed.both.plain;
    let lists = listed.lists;
    let asked = plain.name(heap, question)?;
    let part = part(heap, listed.names, &lists.places, &asked)?;
    let numbers = part.numbers.as_slice();
    report.count(if let Some(why) = asked.refusal {
        match why {
            NameRefusal::TooLong(_) => Kind::QuestionsTooLong,
            NameRefusal::NotUtf8(_) => Kind::QuestionsUnread,
        }
    } else if numbers.is_empty() {
        Kind::QuestionsVain
    } else if numbers.len() == lists.places.len() {
        Kind::QuestionsAll
    } else {
        Kind::QuestionsSome
    });
    report.add(Kind::NamesFound, numbers.len());
    let told = catalogue.find(question);
    let range = catalogue.range(question);
    let same = told == numbers
        && range.start == part.before
        && range.end == part.before.saturating_add(numbers.len())
        && catalogue.count(question) == numbers.len()
        && firsts(catalogue, question, numbers)
        && found(catalogue, question, listed.names, numbers);
    if !same {
        let before = part.before;
        let what = format!(in heap;
            "asked {question:?}: {told:?} at {range:?}, plainly {numbers:?} from {before}, of {lists}"
        )?;
        report.differ(plain, what)?;
    }
    if find_under(
        &listed.both.table,
        &lists.text,
        &lists.starts,
        &lists.places,
        question,
    ) != numbers
    {
        let what = format!(in heap; "find_under {question:?}, plainly {numbers:?}, of {lists}")?;
        report.differ(plain, what)?;
    }
    ask_entry(heap, plain, lists, question, numbers, report)
}

// The first of a part, for some counts.
fn firsts(catalogue: &Catalogue, question: &[u8], numbers: &[u32]) -> bool {
    [0, 1, 3, numbers.len(), usize::MAX].iter().all(|n| catalogue.first(question, *n)
        == numbers.get(..*n).unwrap_or(numbers))
}

// The names that are found, one after the other.
fn found(catalogue: &Catalogue, question: &[u8], names: &[Name], numbers: &[u32]) -> bool {
    let found = catalogue.found(question);
    let same = numbers.iter().zip(found).all(|(number, name)| match names.get(*number as usize) {
        Some(other) => other.bytes.as_slice() == name,
        None => false,
    });
    same && found.len() == numbers.len() && found.first(2).len() == numbers.len().min(2)
}

// The entry that takes all as lent numbers finds this part; it knows tables of bytes alone, and no longer runs.
pub(crate) fn ask_entry(
    heap: Global,
    plain: &Plain,
    lists: &Lists,
    question: &[u8],
    numbers: &[u32],
    report: &mut Report,
) -> Result<(), AllocError> {
    if !plain.is_numbers() {
        return Ok(());
    }
    report.count(Kind::EntryAsked);
    let told = find(
        &plain.letters,
        &plain.pairs,
        plain.how_many,
        &lists.text,
        &lists.starts,
        &lists.places,
        question,
    );
    if told != numbers {
        let what = format!(in heap;
            "find {question:?}: {told:?}, plainly {numbers:?}, of {lists}"
        )?;
        report.differ(plain, what)?;
    }
    Ok(())
}
