// The first letter of bytes.
ghost use Rattle.std.specs.Prelude.{◌≡◌, ◌≤◌, ◌∷◌, Some};
ghost use Rattle.utf8.specs.Reading.{first_letter};

use crate::ranges::{of_three, of_two, three, two};

// The first letter, and how many bytes it takes. A byte at which no letter can be read is taken alone, as 65,536 and the byte.
pub fn first_letter(bytes: &[u8]) -> Option<(u32, usize)>
    ensures { result ≡ first_letter bytes.now }
{
    let [first, rest @ ..] = bytes else {
        return None;
    };
    if *first < 0x80 {
        return Some((*first as u32, 1));
    }
    Some(long_letter(*first, rest))
}

// The same where the first byte is not a letter by itself.
#[inline(never)]
fn long_letter(first: u8, rest: &[u8]) -> (u32, usize)
    requires { 128 ≤ first }
    ensures { Some result ≡ first_letter (first ∷ rest.now) }
{
    match rest {
        [second, ..] if two(first, *second) => (of_two(first, *second), 2),
        [second, third, ..] if three(first, *second, *third) => (
            of_three(first, *second, *third),
            3,
        ),
        _ => (0x10000 + first as u32, 1),
    }
}
