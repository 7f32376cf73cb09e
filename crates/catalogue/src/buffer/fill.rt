// Filling a catalogue.
ghost use Rattle.std.specs.Prelude.{[], ◌≡◌, ◌+◌, ◌^◌, ◌<◌, IfOk, None, false, length};
ghost use Rattle.table.specs.Buffer.{buffer_expansions, buffer_longs, buffer_pairs, buffer_rules};
ghost use Rattle.table.specs.Meaning.{expansions_of, longs_of, pairs_of, rules_of};
ghost use Rattle.keys.specs.Refusals.{name_refusal};

use crate::buffer::CatalogueBuf;
use crate::fault::{ListFault, NotTaken, PushError};
use crate::names::Names;
use keys::NameRefusal;
use std::alloc::{AllocError, Global};
use table::{AddError, LetterEntry, Long, Pair, Table, TableBuf};

impl CatalogueBuf {
    ghost use Rattle.catalogue.specs.Filling.{Appended, Empty, LetterPut, LongPut, PairPut, Pushed, TablePut};

    // As many names, and as many letters of all names together, as 32 bits can count.
    pub const MAX: usize = u32::MAX as usize;

    // No names yet, under a table.
    #[tactic(auto, using(crate::proofs::Listing::none_listed, crate::proofs::Listing::none_sound, crate::proofs::Listing::not_whole))]
    pub fn new(table: TableBuf, heap: Global) -> Result<CatalogueBuf, AllocError>
        ensures { IfOk result (λ b. Empty table b) }
    {
        let mut starts = Vec::new(heap);
        starts.push(0)?;
        Ok(CatalogueBuf {
            table,
            text: Vec::new(heap),
            starts,
            places: Vec::new(heap),
            arranged: false,
        })
    }

    // One name more, behind the others. One that is turned away changes nothing; where memory is wanting names and list are as
    // they were.
    pub fn push(&mut self, name: &[u8]) -> Result<(), PushError>
        ensures { Pushed self.old name.now result self.new }
    {
        if let Some(why) = NameRefusal::of(self.table.utf8(), name) {
            return Err(PushError::Refused(NotTaken::Name(why)));
        }
        let end = self.text.len() + name.len();
        if end > Self::MAX || self.names().count() >= Self::MAX {
            return Err(PushError::Refused(NotTaken::Full));
        }
        Ok(self.append(name, end as u32)?)
    }

    // The same, where the name may be taken: all names together end there then. Room for the start is asked for first, so that
    // no name is half taken; the list is let go of last, so that it is kept where memory is wanting.
    fn append(&mut self, name: &[u8], end: u32) -> Result<(), AllocError>
        requires name { name_refusal (buffer_rules self.old.table).utf8 name.now ≡ None }
        requires end { end ≡ length self.old.text.items + length name.now }
        requires few { length self.old.starts.items < 2 ^ 32 }
        ensures { Appended self.old name.now result self.new }
    {
        self.starts.reserve(1)?;
        self.text.extend_from_slice(name)?;
        self.starts.push(end)?;
        let_go(&mut self.places, &mut self.arranged);
        Ok(())
    }

    // The table.
    pub fn table(&self) -> Table<'_>
        ensures rules { rules_of result ≡ buffer_rules self.now.table }
        ensures pairs { pairs_of result ≡ buffer_pairs self.now.table }
        ensures longs { longs_of result ≡ buffer_longs self.now.table }
        ensures expansions { expansions_of result ≡ buffer_expansions self.now.table }
    {
        self.table.table()
    }

    // Another table in place of this one, if the names are names under it too, which they are where both read bytes the same way;
    // else what is wrong with them.
    #[tactic(auto, using(crate::proofs::Listing::none_listed, crate::proofs::Listing::not_whole))]
    pub fn set_table(&mut self, table: TableBuf) -> Result<(), ListFault>
        ensures { TablePut self.old table result self.new }
    {
        if table.utf8() != self.table.utf8() {
            Names::check(&table.table(), &self.text, &self.starts)?;
        }
        let_go(&mut self.places, &mut self.arranged);
        self.table = table;
        Ok(())
    }

    // One letter more. One that is turned away changes nothing; where memory is wanting the list is kept too.
    #[tactic(auto, using(crate::proofs::Listing::none_listed, crate::proofs::Listing::not_whole))]
    pub fn add_letter(&mut self, entry: LetterEntry) -> Result<(), AddError>
        ensures { LetterPut self.old entry result self.new }
    {
        self.table.add_letter(entry)?;
        let_go(&mut self.places, &mut self.arranged);
        Ok(())
    }

    // One pair more. One that is turned away changes nothing; where memory is wanting the list is kept too.
    #[tactic(auto, using(crate::proofs::Listing::none_listed, crate::proofs::Listing::not_whole))]
    pub fn add_pair(&mut self, pair: Pair) -> Result<(), AddError>
        ensures { PairPut self.old pair result self.new }
    {
        self.table.add_pair(pair)?;
        let_go(&mut self.places, &mut self.arranged);
        Ok(())
    }

    // One run of three or four letters more. One that is turned away changes nothing; where memory is wanting the list is kept too.
    #[tactic(auto, using(crate::proofs::Listing::none_listed, crate::proofs::Listing::not_whole))]
    pub fn add_long(&mut self, long: Long) -> Result<(), AddError>
        ensures { LongPut self.old long result self.new }
    {
        self.table.add_long(long)?;
        let_go(&mut self.places, &mut self.arranged);
        Ok(())
    }
}

// The list is to be made anew.
fn let_go(places: &mut Vec<u32>, arranged: &mut bool)
    ensures { (places.new.items ≡ []) × (arranged.new ≡ false) }
{
    places.clear();
    *arranged = false;
}
