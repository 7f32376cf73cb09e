// What a newer table keeps, by looking at each two triples of weights of old pieces.
use crate::joined::Joined;
use crate::plain::Plain;
use crate::spread::Spread;
use keys::Level;
use order::{Change, Piece};
use std::alloc::{AllocError, Global};

// A triple of a piece of old letters, before and now.
#[derive(Clone, Copy)]
struct Shift {
    before: [u16; 3],
    now: [u16; 3],
}

// The runs of a table whose letters are all old.
fn old_runs(heap: Global, plain: &Plain, old: &[bool]) -> Result<Vec<Joined>, AllocError> {
    let mut runs = Vec::new(heap);
    for run in &plain.listed_runs(heap)? {
        if are_old(old, run.letters()) {
            runs.push(*run)?;
        }
    }
    Ok(runs)
}

// What all old pieces weigh, or none where one of them is one in only one of the tables, or has another number of triples.
fn weighed(
    heap: Global,
    older: &Plain,
    newer: &Plain,
    old: &[bool],
) -> Result<Option<Vec<Shift>>, AllocError> {
    let mut shifts = Vec::new(heap);
    for (letter, mark) in (0..u32::MAX).zip(old) {
        if *mark {
            let (before, now) = (older.spread(letter), newer.spread(letter));
            if before.triples().len() != now.triples().len() {
                return Ok(None);
            }
            for (before, now) in before.triples().iter().zip(now.triples()) {
                shifts.push(Shift {
                    before: *before,
                    now: *now,
                })?;
            }
        }
    }
    for run in &old_runs(heap, older, old)? {
        match newer.run(run.letters()) {
            Some(now) => shifts.push(Shift {
                before: run.weights,
                now,
            })?,
            None => return Ok(None),
        }
    }
    for run in &old_runs(heap, newer, old)? {
        if older.run(run.letters()).is_none() {
            return Ok(None);
        }
    }
    Ok(Some(shifts))
}

// Whether two triples stand to each other as before, and weigh 0 where they did.
fn stand_as_before(one: Shift, other: Shift) -> bool {
    let levels = one.before.iter().zip(&one.now);
    let others = other.before.iter().zip(&other.now);
    levels.zip(others).all(|((a, b), (c, d))| a.cmp(c) == b.cmp(d) && (*a == 0) == (*b == 0))
}

// Whether the tests of a newer table hold, by each two triples of old pieces.
pub(crate) fn keeps(
    heap: Global,
    older: &Plain,
    newer: &Plain,
    old: &[bool],
) -> Result<bool, AllocError> {
    if older.utf8 != newer.utf8 {
        return Ok(false);
    }
    let Some(shifts) = weighed(heap, older, newer, old)? else {
        return Ok(false);
    };
    for one in &shifts {
        for other in &shifts {
            if !stand_as_before(*one, *other) {
                return Ok(false);
            }
        }
    }
    Ok(true)
}

// What a piece weighs; nothing where it is letters that are not one, or not all its letters are old.
fn weight(plain: &Plain, old: &[bool], piece: Piece) -> Option<Spread> {
    let weights = match piece {
        Piece::Letter(letter) => return is_old(old, letter).then_some(plain.spread(letter)),
        Piece::Pair(first, second) => old_run(plain, old, &[first, second]),
        Piece::Three(first, second, third) => old_run(plain, old, &[first, second, third]),
        Piece::Four(first, second, third, fourth) => old_run(
            plain,
            old,
            &[first, second, third, fourth],
        ),
    }?;
    Some(Spread::new(&[weights]))
}

// The weight of a level.
fn on(level: Level, triple: &[u16; 3]) -> u16 {
    let [primary, secondary, tertiary] = *triple;
    match level {
        Level::Primary => primary,
        Level::Secondary => secondary,
        Level::Tertiary => tertiary,
    }
}

// What old letters weigh together, where they are one.
fn old_run(plain: &Plain, old: &[bool], letters: &[u32]) -> Option<[u16; 3]> {
    if are_old(old, letters) {
        plain.run(letters)
    } else {
        None
    }
}

// Whether all letters are marked.
pub(crate) fn are_old(old: &[bool], letters: &[u32]) -> bool {
    letters.iter().all(|letter| is_old(old, *letter))
}

// Whether a letter is marked.
pub(crate) fn is_old(old: &[bool], letter: u32) -> bool {
    old.get(letter as usize) == Some(&true)
}

// Whether on a level one of a piece's triples weighs 0 in only one of the tables.
fn has_other_zeros(before: &Spread, now: &Spread, level: Level) -> bool {
    let mut both = before.triples().iter().zip(now.triples());
    both.any(|(before, now)| (on(level, before) == 0) != (on(level, now) == 0))
}

// The first such level.
fn first_other_zeros(before: &Spread, now: &Spread) -> Option<Level> {
    for level in Level::ALL {
        if has_other_zeros(before, now, level) {
            return Some(level);
        }
    }
    None
}

// Two pieces, each before and now.
#[derive(Clone, Copy)]
struct Two {
    one: (Spread, Spread),
    other: (Spread, Spread),
}

impl Two {
    // Whether on a level a triple of one stands to one of the other otherwise than before.
    fn has_turned(&self, level: Level) -> bool {
        let (before, now) = &self.one;
        let (other_before, other_now) = &self.other;
        for (a, c) in before.triples().iter().zip(now.triples()) {
            for (b, d) in other_before.triples().iter().zip(other_now.triples()) {
                if on(level, a).cmp(&on(level, b)) != on(level, c).cmp(&on(level, d)) {
                    return true;
                }
            }
        }
        false
    }

    // The first such level.
    fn first_turned(&self) -> Option<Level> {
        for level in Level::ALL {
            if self.has_turned(level) {
                return Some(level);
            }
        }
        None
    }
}

// Whether what is told has changed, and where a level is told, that it is the first.
pub(crate) fn has_changed(older: &Plain, newer: &Plain, old: &[bool], change: Change) -> bool {
    let both = |piece| {
        let before = weight(older, old, piece)?;
        Some((before, weight(newer, old, piece)?))
    };
    if older.utf8 != newer.utf8 {
        return change == Change::Utf8;
    }
    match change {
        Change::Utf8 => false,
        Change::Joins(piece) => {
            weight(older, old, piece).is_some() != weight(newer, old, piece).is_some()
        }
        Change::Expands(piece) => match both(piece) {
            Some((before, now)) => before.triples().len() != now.triples().len(),
            None => false,
        },
        Change::Counts(piece, level) => match both(piece) {
            Some((before, now)) => {
                before.triples().len() == now.triples().len()
                    && first_other_zeros(&before, &now) == Some(level)
            }
            None => false,
        },
        Change::Order(one, other, level) => match (both(one), both(other)) {
            (Some(one), Some(other)) => Two { one, other }.first_turned() == Some(level),
            _ => false,
        },
    }
}
