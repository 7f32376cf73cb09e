// All names of a catalogue in order.
ghost use Rattle.std.specs.Prelude.{◌≡◌};
ghost use Rattle.table.specs.Buffer.{buffer_rules};

use crate::buffer::CatalogueBuf;
use crate::names::Names;
use crate::view::Catalogue;
use std::alloc::{AllocError, Global};

impl CatalogueBuf {
    ghost use Rattle.catalogue.specs.Filling.{Lent, PutInOrder};

    // All names, in the order in which they came.
    pub fn names(&self) -> Names<'_>
        ensures { (result.utf8 ≡ (buffer_rules self.now.table).utf8) × (result.text.now ≡ self.now.text.items) × (result.starts.now ≡ self.now.starts.items) }
    {
        Names::new(self.table.utf8(), &self.text, &self.starts)
    }

    // All names are put in order under the table, where they are not yet.
    pub fn put_in_order(&mut self, heap: Global) -> Result<(), AllocError>
        ensures { PutInOrder self.old result self.new }
    {
        if !self.arranged {
            let places = self.names().arrange(&self.table(), heap)?;
            self.places = places;
            self.arranged = true;
        }
        Ok(())
    }

    // The catalogue of all names, where they have been put in order and nothing has changed since.
    pub fn catalogue(&self) -> Option<Catalogue<'_>>
        ensures { Lent self.now result }
    {
        if !self.arranged {
            return None;
        }
        Some(Catalogue::new(self.table(), &self.text, &self.starts, &self.places))
    }
}
