// The table that stands where there are no numbers.
ghost use Rattle.std.specs.Prelude.{◌≡◌, [], false};
ghost use Rattle.table.specs.Meaning.{expansions_of, longs_of, pairs_of, rules_of};
ghost use Rattle.table.specs.Rules.{no_rules};

use crate::pairs::Pairs;
use crate::view::Table;

static NO_WEIGHTS: [u16; 768] = [0; 768];

// A table of bytes in which nothing weighs anything and no letters are one.
impl<'a> Default for Table<'a> {
    ghost is_default = { λ t. (rules_of t ≡ no_rules false) × (pairs_of t ≡ []) × (longs_of t ≡ []) × (expansions_of t ≡ []) };

    fn default() -> Table<'a> {
        Table {
            letters: &NO_WEIGHTS,
            others: &[],
            pairs: Pairs::new(&[]),
            longs: &[],
            expansions: &[],
            begins: [false; 256],
            utf8: false,
        }
    }
}
