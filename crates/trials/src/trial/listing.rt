// Lists put in order, checked and asked.
use crate::dice::Dice;
use crate::drawn;
use crate::lists::{Lists, in_order, number};
use crate::named::Name;
use crate::report::{Kind, Report};
use crate::trial::Both;
use crate::trial::finding::{Listed, ask};
use catalogue::{Catalogue, Names};
use std::alloc::{AllocError, Global};

// All names of some in order, some of them only and some twice, and none.
pub(crate) fn run(
    heap: Global,
    dice: &mut Dice,
    both: &Both,
    report: &mut Report,
) -> Result<(), AllocError> {
    let count = match dice.below(10) {
        0 => 0,
        1 => 1,
        2 => 2 + dice.below(4),
        _ => dice.below(250),
    };
    let letters = drawn::names(heap, dice, both.alphabet, count)?;
    let mut lists = Lists::new(heap, &letters)?;
    let names = lists.names(heap, both.plain)?;
    lists.places = in_order(heap, &names)?;
    try_in_order(heap, both, &lists, &names, report)?;
    let some = some_and_twice(heap, dice, &lists.places)?;
    try_list(heap, dice, both, &lists, &names, &letters, report)?;
    lists.places = some;
    try_list(heap, dice, both, &lists, &names, &letters, report)?;
    lists.places.clear();
    try_list(heap, dice, both, &lists, &names, &letters, report)
}

// Each number not at all, once or twice.
fn some_and_twice(heap: Global, dice: &mut Dice, places: &[u32]) -> Result<Vec<u32>, AllocError> {
    let mut some = Vec::new(heap);
    for number in places {
        for _ in 0..dice.below(3) {
            some.push(*number)?;
        }
    }
    Ok(some)
}

// The names are cut from the text as they are, and putting them in order gives the list that it should.
fn try_in_order(
    heap: Global,
    both: &Both,
    lists: &Lists,
    names: &[Name],
    report: &mut Report,
) -> Result<(), AllocError> {
    report.count(Kind::Arranged);
    report.add(Kind::NamesArranged, names.len());
    let several = names.iter().filter(|name| name.widest > 1).count();
    report.add(Kind::NamesOfSeveral, several);
    for two in lists.places.windows(2) {
        if let [one, next] = two {
            if key_at(names, *one) == key_at(names, *next) {
                report.count(Kind::Ties);
            }
        }
    }
    match Names::check(&both.table, &lists.text, &lists.starts) {
        Ok(all) => {
            for (number, name) in (0..u32::MAX).zip(names) {
                if all.name(number) != Some(name.bytes.as_slice()) {
                    report.differ(both.plain, format!(in heap; "name {number} of a list")?)?;
                }
            }
            if all.name(number(names.len())).is_some() || all.name(u32::MAX).is_some() {
                report.differ(
                    both.plain,
                    format!(in heap; "a name behind the last of {lists}")?,
                )?;
            }
            let told = all.in_order(&both.table, heap);
            let same = match &told {
                Ok(places) => places.as_slice() == lists.places.as_slice(),
                Err(_) => false,
            };
            let count = all.count();
            if !same || count != names.len() {
                let what = format!(in heap;
                    "in_order of {count} names: {told:?}, plainly {lists}"
                )?;
                report.differ(both.plain, what)?;
            }
        }
        Err(why) => report.differ(both.plain, format!(in heap; "names: {why:?} in {lists}")?)?,
    }
    Ok(())
}

fn key_at(names: &[Name], number: u32) -> Option<&[u32]> {
    names.get(number as usize).map(|name| name.key.as_slice())
}

// A list in order is a catalogue, and asked it tells what looking at each name does.
fn try_list(
    heap: Global,
    dice: &mut Dice,
    both: &Both,
    lists: &Lists,
    names: &[Name],
    letters: &[Vec<u8>],
    report: &mut Report,
) -> Result<(), AllocError> {
    report.count(Kind::Lists);
    match Catalogue::check(&both.table, &lists.text, &lists.starts, &lists.places) {
        Ok(catalogue) => {
            if !shows(&catalogue, lists, names) {
                report.differ(both.plain, format!(in heap; "a list looked into: {lists}")?)?;
            }
            let listed = Listed { both, lists, names };
            for _ in 0..10 {
                let question = drawn::question(heap, dice, both.alphabet, letters)?;
                ask(heap, &listed, &catalogue, &question, report)?;
            }
            Ok(())
        }
        Err(why) => {
            let what = format!(in heap; "a list in order: {why:?} in {lists}")?;
            report.differ(both.plain, what)
        }
    }
}

// The catalogue has the list and its names, and none behind.
fn shows(catalogue: &Catalogue, lists: &Lists, names: &[Name]) -> bool {
    let same = (0..usize::MAX).zip(&lists.places).all(|(place, number)| {
        let name = names
            .get(*number as usize)
            .map(|name| name.bytes.as_slice());
        name.is_some() && catalogue.name(place) == name
    });
    same && catalogue.name(lists.places.len()).is_none()
        && catalogue.places() == lists.places.as_slice()
        && catalogue.names().count() == names.len()
}
