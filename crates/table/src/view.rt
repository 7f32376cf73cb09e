// A table as a view of lent numbers that pass the check.
ghost use Rattle.std.specs.Prelude.{◌≡◌, ◌+◌, ◌*◌, ◌≤◌, [], None, false, length, true};
ghost use Rattle.pieces.specs.Ranks.{climbs, rises};
ghost use Rattle.pieces.specs.Runs.{letter_rank, long_rank, none_twice};
ghost use Rattle.table.specs.Chain.{all_marks};
ghost use Rattle.std.specs.List.{list_all};
ghost use Rattle.table.specs.Entries.{are_expansions, is_other};
ghost use Rattle.table.specs.Refusals.{first_place, foreign, known_long};

use crate::pairs::Pairs;
use pieces::{Expansion, Letter, Long};

mod blank;
mod check;
mod look;
mod widen;

// Three weights for each letter below 256, the entries of other letters, the letters that weigh as two or three, and the runs of
// letters that are one together. That a view exists says that its numbers would pass the check: its ghost fields, and those of its
// pairs, are what the check finds.
#[derive(Clone, Copy)]
pub struct Table<'a> {
    pub(crate) letters: &'a [u16],
    // In the order of their letters; none where names are bytes.
    pub(crate) others: &'a [Letter],
    pub(crate) pairs: Pairs<'a>,
    // Runs of three and four letters, in the order of their ranks.
    pub(crate) longs: &'a [Long],
    // Letters that weigh as two or three, in the order of their numbers; their own weights are 0.
    pub(crate) expansions: &'a [Expansion],
    // For each remainder by 256 whether a run begins with a letter that has it, so that most letters cost one look.
    pub(crate) begins: [bool; 256],
    // Whether names are bytes in UTF-8; else each byte is a letter.
    pub(crate) utf8: bool,
    ghost whole: { length letters.now ≡ 768 },
    ghost fives: { length pairs.numbers.now ≡ 5 * pairs.count },
    ghost known: { first_place (foreign utf8 pairs.numbers.now) pairs.count ≡ None },
    ghost ascends: { climbs letter_rank others.now ≡ true },
    ghost others_weigh: { list_all is_other others.now ≡ true },
    ghost bytes: { utf8 ≡ false → others.now ≡ [] },
    ghost few: { pairs.count + length longs.now ≤ 200 },
    ghost rise: { rises long_rank longs.now ≡ true },
    ghost long_apart: { none_twice longs.now ≡ true },
    ghost long_known: { list_all (known_long utf8) longs.now ≡ true },
    ghost expand: { are_expansions utf8 letters.now others.now expansions.now ≡ true },
    ghost marked: { begins ≡ all_marks pairs.numbers.now pairs.count longs.now },
}
