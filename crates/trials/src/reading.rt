// Names as letters and as bytes, in words of its own. Nothing here asks the library.
use keys::NameRefusal;
use std::alloc::{AllocError, Global};

// What stands for a byte at which no letter can be read: it is no letter of any table.
pub(crate) const NONE: u32 = u32::MAX;

// A letter more behind a name, as a byte or in UTF-8.
pub(crate) fn write(name: &mut Vec<u8>, utf8: bool, letter: u32) -> Result<(), AllocError> {
    if !utf8 || letter < 0x80 {
        name.push(low_byte(letter))?;
    } else if letter < 0x800 {
        name.push(low_byte(0xc0 | letter >> 6))?;
        name.push(low_byte(0x80 | letter & 0x3f))?;
    } else {
        name.push(low_byte(0xe0 | letter >> 12))?;
        name.push(low_byte(0x80 | letter >> 6 & 0x3f))?;
        name.push(low_byte(0x80 | letter & 0x3f))?;
    }
    Ok(())
}

// A number as a byte; 255 where it is too large for that.
fn low_byte(number: u32) -> u8 {
    u8::try_from(number).unwrap_or(255)
}

// The letters of a name; each byte at which none can be read stands for itself.
pub(crate) fn letters(heap: Global, utf8: bool, name: &[u8]) -> Result<Vec<u32>, AllocError> {
    let mut letters = Vec::new(heap);
    let mut left = 0usize;
    for (place, byte) in name.iter().enumerate() {
        if left > 0 {
            left -= 1;
            continue;
        }
        if !utf8 {
            letters.push(*byte as u32)?;
            continue;
        }
        match first_letter(name.get(place..).unwrap_or(b"")) {
            Some((letter, bytes)) => {
                letters.push(letter)?;
                left = bytes.saturating_sub(1);
            }
            None => letters.push(NONE)?,
        }
    }
    Ok(letters)
}

// What is wrong with a name.
pub(crate) fn refusal(utf8: bool, name: &[u8]) -> Option<NameRefusal> {
    let mut many = 0usize;
    let mut left = 0usize;
    for place in 0..name.len() {
        if left > 0 {
            left -= 1;
            continue;
        }
        many = many.saturating_add(1);
        if utf8 {
            let Some((_, bytes)) = first_letter(name.get(place..).unwrap_or(b"")) else {
                return Some(NameRefusal::NotUtf8(place));
            };
            left = bytes.saturating_sub(1);
        }
    }
    (many > 1000).then_some(NameRefusal::TooLong(many))
}

// The first letter and how many bytes it takes: as many as its first byte has leading ones, the bits behind them put together. It
// must be written in as few bytes as can be, and be no surrogate and not above 65,535.
fn first_letter(bytes: &[u8]) -> Option<(u32, usize)> {
    let (first, rest) = bytes.split_first()?;
    let (more, mut letter) = match leading_ones(*first) {
        0 => return Some((*first as u32, 1)),
        2 => (1usize, *first as u32 & 0x1f),
        3 => (2, *first as u32 & 0x0f),
        4 => (3, *first as u32 & 0x07),
        _ => return None,
    };
    for byte in rest.get(..more)? {
        if leading_ones(*byte) != 1 {
            return None;
        }
        letter = letter.wrapping_shl(6) | *byte as u32 & 0x3f;
    }
    let is_sound = shortest(letter) == more && is_letter(true, letter);
    is_sound.then_some((letter, more.saturating_add(1)))
}

// How many bytes a letter takes behind its first, in its shortest form.
fn shortest(letter: u32) -> usize {
    match letter {
        0..0x80 => 0,
        0x80..0x800 => 1,
        0x800..0x10000 => 2,
        _ => 3,
    }
}

// How many ones a byte begins with.
fn leading_ones(byte: u8) -> usize {
    let mut ones = 0usize;
    for bit in [0x80u8, 0x40, 0x20, 0x10, 8, 4, 2, 1] {
        if byte & bit == 0 {
            break;
        }
        ones = ones.saturating_add(1);
    }
    ones
}

// Whether a number is that of a letter.
pub(crate) fn is_letter(utf8: bool, letter: u32) -> bool {
    if !utf8 {
        return letter <= 255;
    }
    // The surrogates are the 28th of the 32 parts.
    letter <= 65535 && letter / 2048 != 27
}
