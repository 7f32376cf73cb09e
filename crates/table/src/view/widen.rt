// A table of bytes as one of names in UTF-8.
ghost use Rattle.std.specs.Prelude.{◌≡◌};
ghost use Rattle.table.specs.Meaning.{expansions_of, longs_of, pairs_of, rules_of};
ghost use Rattle.table.specs.Rules.{in_utf8};

use crate::view::Table;

impl<'a> Table<'a> {
    // The same letters and runs, of names that are bytes in UTF-8. Letters above 255 weigh nothing where they have no entry.
    pub fn in_utf8(self) -> Table<'a>
        ensures rules { rules_of result ≡ in_utf8 (rules_of self.entry) }
        ensures pairs { pairs_of result ≡ pairs_of self.entry }
        ensures longs { longs_of result ≡ longs_of self.entry }
        ensures expansions { expansions_of result ≡ expansions_of self.entry }
    {
        Table {
            letters: self.letters,
            others: self.others,
            pairs: self.pairs,
            longs: self.longs,
            expansions: self.expansions,
            begins: self.begins,
            utf8: true,
        }
    }
}
