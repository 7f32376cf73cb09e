// A table that owns its numbers and is filled step by step.
ghost use Rattle.std.specs.Prelude.{◌≡◌, ◌+◌, ◌*◌, ◌/◌, ◌≤◌, [], None, false, length, true};
ghost use Rattle.pieces.specs.Ranks.{climbs, rises};
ghost use Rattle.pieces.specs.Runs.{letter_rank, long_rank, none_twice};
ghost use Rattle.std.specs.List.{list_all};
ghost use Rattle.table.specs.Entries.{are_expansions, is_other};
ghost use Rattle.table.specs.Refusals.{first_place, foreign, known_long, repeated};

use pieces::{Expansion, Letter, Long};

mod copy;
mod fill;
mod records;

// Numbers that are a table at any time.
#[derive(Drop)]
pub struct TableBuf {
    // Three weights for each letter below 256.
    letters: Vec<u16>,
    // What other letters weigh, in the order of their letters; none where names are bytes.
    others: Vec<Letter>,
    // Five numbers for each pair.
    pairs: Vec<u16>,
    // Runs of three and four letters, in the order of their ranks.
    longs: Vec<Long>,
    // Letters that weigh as two or three, in the order of their numbers; their own weights are 0.
    expansions: Vec<Expansion>,
    utf8: bool,
    ghost whole: { length letters.items ≡ 768 },
    ghost fives: { length pairs.items ≡ 5 * (length pairs.items / 5) },
    ghost few: { length pairs.items / 5 + length longs.items ≤ 200 },
    ghost known: { first_place (foreign utf8 pairs.items) (length pairs.items / 5) ≡ None },
    ghost apart: { first_place (repeated pairs.items) (length pairs.items / 5) ≡ None },
    ghost rise: { rises long_rank longs.items ≡ true },
    ghost long_apart: { none_twice longs.items ≡ true },
    ghost long_known: { list_all (known_long utf8) longs.items ≡ true },
    ghost ascends: { climbs letter_rank others.items ≡ true },
    ghost others_weigh: { list_all is_other others.items ≡ true },
    ghost expand: { are_expansions utf8 letters.items others.items expansions.items ≡ true },
    ghost bytes: { utf8 ≡ false → others.items ≡ [] },
}
