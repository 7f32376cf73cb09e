// Names read letter by letter.
ghost use Rattle.std.specs.Prelude.{◌≡◌};
ghost use Rattle.keys.specs.Letters.{CountedIn, Split, first_in, one_byte};

use utf8::{count_letters, first_letter};

// Whether a byte is a letter by itself.
#[inline(always)]
pub fn one_byte(utf8: bool, byte: u8) -> bool
    ensures { result ≡ one_byte utf8 byte }
{
    byte < 128 || !utf8
}

// The first letter of a name, and how many bytes it takes: as UTF-8 has it, or one byte. A byte at which no letter can be read is
// taken alone, and is no letter of any table.
#[inline(always)]
pub fn first_in(utf8: bool, name: &[u8]) -> Option<(u32, usize)>
    ensures { result ≡ first_in utf8 name.now }
{
    let (first, _) = name.split_first()?;
    if one_byte(utf8, *first) {
        return Some((*first as u32, 1));
    }
    first_letter(name)
}

// The first letter of a name, and what is behind it.
#[inline(always)]
pub(crate) fn split_first(utf8: bool, name: &[u8]) -> Option<(u32, &[u8])>
    ensures { Split utf8 name.now result }
{
    let (letter, length) = first_in(utf8, name)?;
    Some((letter, &name[length..]))
}

// How many letters a name has; else the first byte at which none can be read.
#[tactic(auto, unfolding(crate::specs::Letters::letters_in, crate::specs::Letters::unread_in))]
pub fn count_in(utf8: bool, name: &[u8]) -> Result<usize, usize>
    ensures { CountedIn utf8 name.now result }
{
    if utf8 {
        return count_letters(name);
    }
    Ok(name.len())
}
