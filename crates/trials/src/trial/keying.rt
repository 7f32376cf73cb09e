// Sort keys of names: measured, written into rooms of all sizes, and made.
use crate::dice::Dice;
use crate::drawn;
use crate::named::Name;
use crate::plain::Plain;
use crate::report::{Kind, Report};
use crate::trial::Both;
use keys::{Done, KeyError, KeyNumbers, NameRefusal, Short, SortKeys, make_key};
use std::alloc::{AllocError, Global};

// What lies in rooms before.
const BEFORE: u16 = 54321;

pub(crate) fn run(
    heap: Global,
    dice: &mut Dice,
    both: &Both,
    report: &mut Report,
) -> Result<(), AllocError> {
    for _ in 0..40 {
        let letters = if dice.once_in(60) {
            drawn::letters_drawn(heap, dice, both.alphabet, 1001)?
        } else {
            drawn::name(heap, dice, both.alphabet)?
        };
        let letters = drawn::damaged(dice, both.alphabet, letters, 4)?;
        let name = both.plain.name(heap, &letters)?;
        try_refusal(heap, both, &name, report)?;
        try_key(heap, both, &name, report)?;
        let needs = name.key.len();
        for size in [
            0,
            dice.below(needs),
            needs.saturating_sub(1),
            needs,
            needs.saturating_add(1 + dice.below(4)),
            letters.len().saturating_mul(9).saturating_add(2),
        ] {
            try_wide(heap, both, &name, size, report)?;
            if both.plain.is_numbers() {
                try_entry(heap, both.plain, true, &name, size, report)?;
            }
        }
    }
    Ok(())
}

// What is wrong with the name.
fn try_refusal(
    heap: Global,
    both: &Both,
    name: &Name,
    report: &mut Report,
) -> Result<(), AllocError> {
    let told = NameRefusal::of(both.plain.utf8, &name.bytes);
    let wanted = name.refusal;
    if told != wanted {
        let bytes = &name.bytes;
        let what = format!(in heap; "a name {bytes:?}: {told:?}, plainly {wanted:?}")?;
        report.differ(both.plain, what)?;
    }
    Ok(())
}

// How long the key is, and the key in memory of its own.
fn try_key(heap: Global, both: &Both, name: &Name, report: &mut Report) -> Result<(), AllocError> {
    let letters = &name.bytes;
    let needs = name.key.len();
    report.count(Kind::Keys);
    if name.row.is_empty() {
        report.count(Kind::KeysWithoutFirst);
    }
    if name.longest > 2 {
        report.count(Kind::KeysOfLonger);
    }
    if name.widest > 1 {
        report.count(Kind::KeysOfSeveral);
    }
    let told = both.table.key_len(letters);
    if told != needs {
        report.differ(
            both.plain,
            format!(in heap; "key_len of {letters:?}: {told}, plainly {needs}")?,
        )?;
    }
    let numbers = KeyNumbers::new(&both.table, letters);
    if !numbers.eq(name.key.iter().copied()) {
        report.differ(both.plain, format!(in heap; "KeyNumbers of {letters:?}")?)?;
    }
    let made = both.table.sort_key(heap, letters);
    let same = match &made {
        Ok(key) => name.refusal.is_none() && key.as_slice() == name.key.as_slice(),
        Err(KeyError::Refused(why)) => name.refusal == Some(*why),
        Err(KeyError::NoMemory) => false,
    };
    match name.refusal {
        Some(NameRefusal::TooLong(_)) => report.count(Kind::KeysTooLong),
        Some(NameRefusal::NotUtf8(_)) => report.count(Kind::KeysUnread),
        None => {}
    }
    if !same {
        let key = &name.key;
        let what = format!(in heap; "sort_key of {letters:?}: {made:?}, plainly {key:?}")?;
        report.differ(both.plain, what)?;
    }
    Ok(())
}

// The key in front of a room, or the room as it was.
fn room_with(heap: Global, key: &[u32], size: usize) -> Result<Vec<u32>, AllocError> {
    let mut room = Vec::new(heap);
    room.extend_from_slice(key)?;
    room.resize(size, BEFORE as u32)?;
    Ok(room)
}

// The key in lent room of 32 bits.
fn try_wide(
    heap: Global,
    both: &Both,
    name: &Name,
    size: usize,
    report: &mut Report,
) -> Result<(), AllocError> {
    let needs = name.key.len();
    let (wanted, key) = if size < needs {
        (Err(Short { needs }), [].as_slice())
    } else {
        (Ok(needs), name.key.as_slice())
    };
    report.count(if size < needs {
        Kind::RoomsShort
    } else {
        Kind::RoomsWritten
    });
    let mut room = room_with(heap, &[], size)?;
    let told = both.table.write_key(&name.bytes, &mut room);
    let left = room_with(heap, key, size)?;
    if told != wanted || room.as_slice() != left.as_slice() {
        let letters = &name.bytes;
        let what = format!(in heap;
            "write_key of {letters:?} into {size}: {told:?} {room:?}, plainly {wanted:?} {left:?}"
        )?;
        report.differ(both.plain, what)?;
    }
    Ok(())
}

// The key in lent room of 16 bits, from lent numbers, which are those of a table or not.
pub(crate) fn try_entry(
    heap: Global,
    plain: &Plain,
    is_table: bool,
    name: &Name,
    size: usize,
    report: &mut Report,
) -> Result<(), AllocError> {
    let needs = name.key.len();
    let (wanted, key) = if !is_table {
        (Done::Refused(1), [].as_slice())
    } else if name.refusal.is_some() {
        (Done::Refused(2), [].as_slice())
    } else if size < needs {
        (Done::Short(needs as u64), [].as_slice())
    } else {
        (Done::Keyed(needs as u64), name.key.as_slice())
    };
    report.count(match wanted {
        Done::Keyed(_) => Kind::EntryKeyed,
        Done::Short(_) => Kind::EntryShort,
        Done::Refused(1) => Kind::EntryNoTable,
        Done::Refused(_) => Kind::EntryTooLong,
    });
    let mut room = vec![in heap; BEFORE; size]?;
    let told = make_key(
        &plain.letters,
        &plain.pairs,
        plain.how_many,
        &name.bytes,
        &mut room,
    );
    let left = room_with(heap, key, size)?;
    let same = room.len() == left.len() && room.iter().zip(&left).all(|(a, b)| *a as u32 == *b);
    if told != wanted || !same {
        let letters = &name.bytes;
        let what = format!(in heap;
            "make_key of {letters:?} into {size}: {told:?} {room:?}, plainly {wanted:?} {left:?}"
        )?;
        report.differ(plain, what)?;
    }
    Ok(())
}
