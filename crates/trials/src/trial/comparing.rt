// Names compared, and where they stand to what is asked.
use crate::dice::Dice;
use crate::drawn;
use crate::named::{Name, begins, compare};
use crate::report::{Kind, Report};
use crate::trial::Both;
use order::{Collate, Standing};
use std::alloc::{AllocError, Global};
use std::cmp::Ordering;

// Each of some names beside each.
pub(crate) fn run(
    heap: Global,
    dice: &mut Dice,
    both: &Both,
    report: &mut Report,
) -> Result<(), AllocError> {
    let mut names = Vec::new(heap);
    for letters in drawn::names(heap, dice, both.alphabet, 40)? {
        let name = drawn::damaged(dice, both.alphabet, letters, 4)?;
        names.push(both.plain.name(heap, &name)?)?;
    }
    for one in &names {
        for other in &names {
            try_compare(heap, both, one, other, report)?;
            try_standing(heap, both, one, other, report)?;
        }
    }
    Ok(())
}

fn try_compare(
    heap: Global,
    both: &Both,
    one: &Name,
    other: &Name,
    report: &mut Report,
) -> Result<(), AllocError> {
    let order = compare(&one.key, &other.key);
    report.count(match order {
        Ordering::Less => Kind::Less,
        Ordering::Equal => Kind::Equal,
        Ordering::Greater => Kind::Greater,
    });
    let told = both.table.compare(&one.bytes, &other.bytes);
    if told != order {
        let (one, other) = (&one.bytes, &other.bytes);
        let what = format!(in heap; "compare {one:?} {other:?}: {told:?}, plainly {order:?}")?;
        report.differ(both.plain, what)?;
    }
    Ok(())
}

fn try_standing(
    heap: Global,
    both: &Both,
    name: &Name,
    asked: &Name,
    report: &mut Report,
) -> Result<(), AllocError> {
    let standing = if begins(&name.row, &asked.row) {
        Standing::Begins
    } else if compare(&name.row, &asked.row).is_lt() {
        Standing::Before
    } else {
        Standing::After
    };
    report.count(match standing {
        Standing::Before => Kind::StandBefore,
        Standing::Begins => Kind::StandBegin,
        Standing::After => Kind::StandAfter,
    });
    let told = both.table.standing(&name.bytes, &asked.bytes);
    if told != standing {
        let (name, asked) = (&name.bytes, &asked.bytes);
        let what = format!(in heap; "standing {name:?} {asked:?}: {told:?}, plainly {standing:?}")?;
        report.differ(both.plain, what)?;
    }
    Ok(())
}
