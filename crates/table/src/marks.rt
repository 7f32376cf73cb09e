// With which letters runs begin.
ghost use Rattle.std.specs.Prelude.{◌≡◌};
ghost use Rattle.table.specs.Chain.{all_marks};

use crate::pairs::Pairs;
use pieces::Long;

// For each remainder by 256 whether one of the pairs or of the longer runs begins with a letter that has it.
pub(crate) fn begins_of(pairs: &Pairs, longs: &[Long]) -> [bool; 256]
    ensures { result ≡ all_marks pairs.now.numbers.now pairs.now.count longs.now }
{
    let mut begins = pairs.begins();
    for long in longs {
        begins[(long.run.first % 256) as usize] = true;
    }
    begins
}
