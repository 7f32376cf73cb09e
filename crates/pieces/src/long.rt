// Runs of three and four letters in the order of their ranks.
ghost use Rattle.std.specs.Prelude.{◌≡◌, true};
ghost use Rattle.pieces.specs.Ranks.{rises};
ghost use Rattle.pieces.specs.Runs.{long_letters, long_among, long_rank};

use crate::piece::{Long, LongRun, Weights};
use crate::ranks::{Ranked, place_for};

// What a run weighs, where it is one of these; it may be missed where they are in no order. Those of its rank are found by halving
// the list, and no others are compared.
pub fn find_long(longs: &[Long], run: LongRun) -> Option<Weights>
    ensures { rises long_rank longs.now ≡ true → result ≡ long_among longs.now (long_letters run) }
{
    let rank = run.rank();
    let mut place = place_for(longs, rank);
    while place < longs.len() && longs[place].rank() == rank {
        if longs[place].run.is(run) {
            return Some(longs[place].weights);
        }
        place += 1;
    }
    None
}
