// Names and questions drawn at random.
use crate::alphabet::{Alphabet, Spelling};
use crate::dice::Dice;
use crate::reading;
use std::alloc::{AllocError, Global};

// A name: none or a few letters, a dozen, or, seldom, just as many as it may have.
pub(crate) fn name(
    heap: Global,
    dice: &mut Dice,
    alphabet: &Alphabet,
) -> Result<Vec<u8>, AllocError> {
    let letters = match dice.below(200) {
        0 => 1000 - dice.below(3),
        1..20 => 0,
        20..50 => 5 + dice.below(8),
        _ => 1 + dice.below(4),
    };
    letters_drawn(heap, dice, alphabet, letters)
}

// So many letters, mostly of the alphabet.
pub(crate) fn letters_drawn(
    heap: Global,
    dice: &mut Dice,
    alphabet: &Alphabet,
    letters: usize,
) -> Result<Vec<u8>, AllocError> {
    let mut name = Vec::new(heap);
    let mut spelling = Spelling::new();
    for _ in 0..letters {
        let letter = if dice.once_in(30) {
            alphabet.any(dice)
        } else {
            spelling.next(dice, alphabet)
        };
        reading::write(&mut name, alphabet.utf8, letter)?;
    }
    Ok(name)
}

// Names, some of which begin as earlier ones do; none has too many letters.
pub(crate) fn names(
    heap: Global,
    dice: &mut Dice,
    alphabet: &Alphabet,
    count: usize,
) -> Result<Vec<Vec<u8>>, AllocError> {
    let mut names: Vec<Vec<u8>> = Vec::new(heap);
    for _ in 0..count {
        let name = if dice.once_in(3) {
            let mut name = beginning(heap, dice, alphabet.utf8, &names)?;
            if name.len() < 1000 && !dice.once_in(3) {
                reading::write(&mut name, alphabet.utf8, alphabet.one(dice))?;
            }
            name
        } else {
            self::name(heap, dice, alphabet)?
        };
        names.push(name)?;
    }
    Ok(names)
}

// Some of the first letters of one of the names.
fn beginning(
    heap: Global,
    dice: &mut Dice,
    utf8: bool,
    names: &[Vec<u8>],
) -> Result<Vec<u8>, AllocError> {
    let mut letters = Vec::new(heap);
    let place = dice.below(names.len());
    if let Some(name) = names.get(place) {
        let mut end = dice.below(name.len().saturating_add(1));
        // No letter is cut in two.
        for _ in 0..2 {
            if utf8 && matches!(name.get(end), Some(0x80..=0xbf)) {
                end = end.saturating_sub(1);
            }
        }
        letters.extend_from_slice(name.get(..end).unwrap_or(name))?;
    }
    Ok(letters)
}

// What may be asked: how a name begins, nothing, anything, or too many letters; in UTF-8 damaged now and then.
pub(crate) fn question(
    heap: Global,
    dice: &mut Dice,
    alphabet: &Alphabet,
    names: &[Vec<u8>],
) -> Result<Vec<u8>, AllocError> {
    let question = match dice.below(20) {
        0 => Vec::new(heap),
        1 => letters_drawn(heap, dice, alphabet, 1001)?,
        2..6 => name(heap, dice, alphabet)?,
        6..9 => letters_drawn(heap, dice, alphabet, 1)?,
        _ => beginning(heap, dice, alphabet.utf8, names)?,
    };
    damaged(dice, alphabet, question, 10)
}

// A name; in UTF-8 damaged once in so many.
pub(crate) fn damaged(
    dice: &mut Dice,
    alphabet: &Alphabet,
    mut name: Vec<u8>,
    throws: usize,
) -> Result<Vec<u8>, AllocError> {
    if alphabet.utf8 && dice.once_in(throws) {
        for _ in 0..1 + dice.below(2) {
            damage(dice, &mut name)?;
        }
    }
    Ok(name)
}

// One byte is changed, cut off or put in between, or several that are at a border of what letters are.
pub(crate) fn damage(dice: &mut Dice, name: &mut Vec<u8>) -> Result<(), AllocError> {
    let place = dice.below(name.len());
    match dice.below(5) {
        0 => {
            let byte = odd_byte(dice);
            if let Some(known) = name.get_mut(place) {
                *known = byte;
            }
        }
        1 => {
            name.pop();
        }
        2 => name.insert(place.min(name.len()), odd_byte(dice))?,
        3 => name.extend_from_slice(ODD[dice.below(20)])?,
        _ => {
            for byte in ODD[dice.below(20)].iter().rev() {
                name.insert(place.min(name.len()), *byte)?;
            }
        }
    }
    Ok(())
}

// Any byte, mostly one that begins letters or stands behind.
fn odd_byte(dice: &mut Dice) -> u8 {
    match dice.below(3) {
        0 => dice.below(256) as u8,
        1 => 0x80 + dice.below(64) as u8,
        _ => 0xc0 + dice.below(64) as u8,
    }
}

// Letters at borders, and what is none.
static ODD: [&[u8]; 20] = [
    &[0xc0, 0x80],
    &[0xc1, 0xbf],
    &[0xc2, 0x80],
    &[0xdf, 0xbf],
    &[0xe0, 0x80, 0x80],
    &[0xe0, 0x9f, 0xbf],
    &[0xe0, 0xa0, 0x80],
    &[0xed, 0x9f, 0xbf],
    &[0xed, 0xa0, 0x80],
    &[0xed, 0xbf, 0xbf],
    &[0xee, 0x80, 0x80],
    &[0xef, 0xbf, 0xbf],
    &[0xf0, 0x8f, 0xbf, 0xbf],
    &[0xf0, 0x90, 0x80, 0x80],
    &[0xf4, 0x8f, 0xbf, 0xbf],
    &[0xf5, 0x80, 0x80, 0x80],
    &[0x80],
    &[0xbf, 0xbf],
    &[0xe2, 0x82],
    &[0xc3],
];
