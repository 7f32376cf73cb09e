// Lists that are no catalogue.
use crate::dice::Dice;
use crate::lists::{Lists, in_order, number};
use crate::report::{Kind, Report};
use crate::trial::Both;
use crate::trial::finding::ask_entry;
use crate::{drawn, reading};
use catalogue::{Catalogue, ListFault, Names, find_under};
use keys::NameRefusal;
use std::alloc::{AllocError, Global};

pub(crate) fn run(
    heap: Global,
    dice: &mut Dice,
    both: &Both,
    report: &mut Report,
) -> Result<(), AllocError> {
    let count = dice.below(12);
    let letters = drawn::names(heap, dice, both.alphabet, count)?;
    let mut whole = Lists::new(heap, &letters)?;
    whole.places = in_order(heap, &whole.names(heap, both.plain)?)?;
    for _ in 0..20 {
        let mut lists = whole.copy(heap)?;
        for _ in 0..1 + dice.below(2) {
            spoil(heap, dice, both, &mut lists)?;
        }
        let question = drawn::question(heap, dice, both.alphabet, &letters)?;
        try_lists(heap, both, &lists, &question, report)?;
    }
    Ok(())
}

// The lists are changed in some way; now and then they still are those of a catalogue.
fn spoil(heap: Global, dice: &mut Dice, both: &Both, lists: &mut Lists) -> Result<(), AllocError> {
    if both.alphabet.utf8 && dice.once_in(3) {
        return spoil_text(dice, lists);
    }
    match dice.below(12) {
        0 if dice.once_in(2) => lists.starts.clear(),
        0 | 1 => {
            lists.starts.pop();
        }
        2 | 3 => move_start(dice, &mut lists.starts),
        4 => {
            let letter = both.alphabet.one(dice);
            reading::write(&mut lists.text, both.alphabet.utf8, letter)?;
        }
        5 => {
            lists.text.pop();
        }
        6 => {
            let many = 999 + dice.below(4);
            lists.push_name(&drawn::letters_drawn(heap, dice, both.alphabet, many)?)?;
        }
        7 | 8 => {
            let (one, other) = (
                dice.below(lists.places.len()),
                dice.below(lists.places.len()),
            );
            if one < lists.places.len() && other < lists.places.len() {
                lists.places.swap(one, other);
            }
        }
        9 => {
            let place = dice.below(lists.places.len());
            let name = number(dice.below(lists.starts.len()));
            if let Some(known) = lists.places.get_mut(place) {
                *known = name;
            }
        }
        _ => lists
            .places
            .push(number(dice.below(lists.starts.len().saturating_add(1))))?,
    }
    Ok(())
}

// The text is damaged, and ends where the last start is.
fn spoil_text(dice: &mut Dice, lists: &mut Lists) -> Result<(), AllocError> {
    drawn::damage(dice, &mut lists.text)?;
    let end = number(lists.text.len());
    if lists.starts.pop().is_some() {
        lists.starts.push(end)?;
    }
    Ok(())
}

// A start is elsewhere: near, or far behind.
fn move_start(dice: &mut Dice, starts: &mut Vec<u32>) {
    let place = dice.below(starts.len());
    if let Some(start) = starts.get_mut(place) {
        *start = match dice.below(4) {
            0 => start.saturating_add(1),
            1 => start.saturating_sub(1),
            2 => 0,
            _ => number(dice.below(5000)),
        };
    }
}

// The checks tell the fault that it is, and then nothing is found.
fn try_lists(
    heap: Global,
    both: &Both,
    lists: &Lists,
    question: &[u8],
    report: &mut Report,
) -> Result<(), AllocError> {
    let plain = both.plain;
    let fault = lists.fault(heap, plain)?;
    report.count(match fault {
        Some(ListFault::NoStart) => Kind::NoListStart,
        Some(ListFault::StartFalls(_)) => Kind::NoListFalls,
        Some(ListFault::NameRefused(_, NameRefusal::TooLong(_))) => Kind::NoListTooLong,
        Some(ListFault::NameRefused(_, NameRefusal::NotUtf8(_))) => Kind::NoListUnread,
        Some(ListFault::EndsElsewhere(_)) => Kind::NoListEnd,
        Some(ListFault::NoSuchName(_)) => Kind::NoListName,
        Some(ListFault::OutOfOrder(_)) => Kind::NoListOrder,
        None => Kind::ListsUnharmed,
    });
    let told = Names::check(&both.table, &lists.text, &lists.starts).err();
    let wanted = lists.names_fault(plain.utf8);
    if told != wanted {
        report.differ(
            plain,
            format!(in heap; "names: {told:?}, plainly {wanted:?}, of {lists}")?,
        )?;
    }
    let told = Catalogue::check(&both.table, &lists.text, &lists.starts, &lists.places).err();
    if told != fault {
        report.differ(
            plain,
            format!(in heap; "a list: {told:?}, plainly {fault:?}, of {lists}")?,
        )?;
    }
    let numbers = lists.answer(heap, plain, fault.is_none(), question)?;
    if find_under(
        &both.table,
        &lists.text,
        &lists.starts,
        &lists.places,
        question,
    ) != numbers.as_slice()
    {
        let what = format!(in heap; "find_under {question:?}, plainly {numbers:?}, of {lists}")?;
        report.differ(plain, what)?;
    }
    ask_entry(heap, plain, lists, question, &numbers, report)
}
