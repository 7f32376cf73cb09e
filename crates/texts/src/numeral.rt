// Numbers and letters as they are written in a line.
ghost use Rattle.std.specs.Prelude.{◌≡◌, ◌<◌, ◌≤◌, ◌^◌};
ghost use Rattle.std.specs.Option.{SomeIff};
ghost use Rattle.std.specs.Str.Parse.{IsNumeral, digits_value};
ghost use Rattle.texts.specs.Numerals.{hex_of, letter_of, number_of, one_letter};

use utf8::first_letter;

// A number that a `usize` holds, of decimal digits.
pub fn whole_number(word: &[u8]) -> Option<usize>
    ensures { SomeIff result (IsNumeral 10 word.now × (digits_value 10 word.now < 2 ^ 64)) (digits_value 10 word.now) }
{
    number_in_base(word, 10)
}

// A number up to 65,535.
pub(crate) fn number(word: &[u8]) -> Option<u16>
    ensures { result ≡ number_of word.now }
{
    u16::try_from(number_in_base(word, 10)?).ok()
}

// A letter, written as itself or as `U+00FC`.
#[tactic(auto, unfolding(crate::specs::Numerals::letter_of))]
pub(crate) fn letter_number(word: &[u8]) -> Option<u32>
    ensures { result ≡ letter_of word.now }
{
    match word {
        [b'U', b'+', digits @ ..] => hexadecimal(digits),
        _ => one_letter(word),
    }
}

// The letter that all these bytes are.
#[tactic(auto, using(crate::proofs::Reading::one_none))]
fn one_letter(word: &[u8]) -> Option<u32>
    ensures { result ≡ one_letter word.now }
{
    let (letter, taken) = first_letter(word)?;
    (taken == word.len() && letter <= 0xffff).then_some(letter)
}

// The number of four to six hexadecimal digits.
fn hexadecimal(digits: &[u8]) -> Option<u32>
    ensures { result ≡ hex_of digits.now }
{
    if digits.len() < 4 || digits.len() > 6 {
        return None;
    }
    u32::try_from(number_in_base(digits, 16)?).ok()
}

// A number that a `usize` holds, of digits alone, read in one go: `from_str_radix` would take a sign too, and a text that has
// been looked through twice before.
fn number_in_base(word: &[u8], base: u32) -> Option<usize>
    requires least { 2 ≤ base }
    requires most { base ≤ 36 }
    ensures { SomeIff result (IsNumeral base word.now × (digits_value base word.now < 2 ^ 64)) (digits_value base word.now) }
{
    if word.is_empty() {
        return None;
    }
    let mut number = 0usize;
    for byte in word {
        let digit = char::from(*byte).to_digit(base)?;
        number = number
            .checked_mul(base as usize)?
            .checked_add(digit as usize)?;
    }
    Some(number)
}
