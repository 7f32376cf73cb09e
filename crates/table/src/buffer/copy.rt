// A table copied into numbers of its own.
ghost use Rattle.std.specs.Prelude.{◌≡◌, IfOk};
ghost use Rattle.table.specs.Buffer.{buffer_longs, buffer_pairs, buffer_rules};
ghost use Rattle.table.specs.Meaning.{longs_of, pairs_of, rules_of};

use crate::buffer::TableBuf;
use crate::view::Table;
use std::alloc::{AllocError, Global};

impl Table<'_> {
    // A table with numbers of its own that says the same.
    #[tactic(auto, using(crate::proofs::Refusing::no_refusal))]
    pub fn to_buf(&self, heap: Global) -> Result<TableBuf, AllocError>
        ensures { IfOk result (λ b. (buffer_rules b ≡ rules_of self.now) × (buffer_pairs b ≡ pairs_of self.now) × (buffer_longs b ≡ longs_of self.now)) }
    {
        Ok(TableBuf {
            letters: self.letters.to_vec(heap)?,
            others: self.others.to_vec(heap)?,
            pairs: self.pairs.numbers().to_vec(heap)?,
            longs: self.longs.to_vec(heap)?,
            expansions: self.expansions.to_vec(heap)?,
            utf8: self.utf8,
        })
    }
}
