// Checking lent numbers as a table.
ghost use Rattle.std.specs.Prelude.{◌≡◌, ◌/◌, false, length};
ghost use Rattle.table.specs.Meaning.{Checked};
ghost use Rattle.table.specs.Refusals.{first_place, foreign, shape_refusal, verdict};

use crate::fault::Refusal;
use crate::layout::unknown;
use crate::marks::begins_of;
use crate::pairs::Pairs;
use crate::view::Table;

impl<'a> Table<'a> {
    // Lent numbers as a table of bytes: three weights for each of the 256 letters, and five numbers for each of `how_many`
    // pairs, two letters and their three weights. It has no longer runs, and no letter expands. The numbers are taken one by one,
    // and not as a struct, as `make_key` hands them on from callers who know tables by numbers alone. It is
    // written out where it is called: handed back, a table is copied twice, which takes longer than checking one pair.
    #[inline(always)]
    pub fn check(letters: &'a [u16], pairs: &'a [u16], how_many: u64) -> Result<Table<'a>, Refusal>
        ensures { Checked letters.now pairs.now how_many result }
    {
        check_shape(letters.len(), pairs.len(), how_many)?;
        if let Some(place) = first_foreign(pairs) {
            return Err(Refusal::Foreign(place));
        }
        let mut pairs = Pairs::new(pairs);
        pairs.chain()?;
        let begins = begins_of(&pairs, &[]);
        Ok(Table {
            letters,
            others: &[],
            pairs,
            longs: &[],
            expansions: &[],
            begins,
            utf8: false,
        })
    }
}

// Whether there are as many numbers as there should be.
fn check_shape(letters: usize, pairs: usize, how_many: u64) -> Result<(), Refusal>
    ensures { result ≡ verdict (shape_refusal letters pairs how_many) }
{
    if letters != 3 * Table::LETTERS {
        return Err(Refusal::Letters);
    }
    if pairs % 5 != 0 || (pairs / 5) as u64 != how_many {
        return Err(Refusal::Shape);
    }
    if how_many > Table::MAX_RUNS as u64 {
        return Err(Refusal::TooMany);
    }
    Ok(())
}

// The first of the pairs that has a letter above 255.
fn first_foreign(pairs: &[u16]) -> Option<usize>
    ensures { result ≡ first_place (foreign false pairs.now) (length pairs.now / 5) }
{
    pairs
        .chunks_exact(5)
        .position(|pair| unknown(false, pair[0] as u32, pair[1] as u32))
}
