// How many letters bytes are.
ghost use Rattle.utf8.specs.Reading.{Counted};

use crate::first::first_letter;

// How many letters there are; else the first byte at which no letter can be read.
pub fn count_letters(bytes: &[u8]) -> Result<usize, usize>
    ensures { Counted bytes.now result }
{
    let mut count = 0;
    let mut place = 0;
    while let Some((letter, taken)) = first_letter(&bytes[place..]) {
        if letter > 0xffff {
            return Err(place);
        }
        count += 1;
        place += taken;
    }
    Ok(count)
}
