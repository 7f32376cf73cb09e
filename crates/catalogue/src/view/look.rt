// Looking into a catalogue.
ghost use Rattle.std.specs.Prelude.{◌≡◌, ◌<◌, length};
ghost use Rattle.catalogue.specs.Checking.{NameAt, lists_of};
ghost use Rattle.catalogue.specs.Lists.{name_at};
ghost use Rattle.table.specs.Meaning.{rules_of};

use crate::names::Names;
use crate::view::Catalogue;

impl<'a> Catalogue<'a> {
    // The list: the numbers of its names, in order.
    pub fn places(&self) -> &'a [u32]
        ensures { result ≡ self.now.places }
    {
        self.places
    }

    // Its names by their numbers, those that are not in the list too.
    pub fn names(&self) -> Names<'a>
        ensures { (result.utf8 ≡ (rules_of self.now.table).utf8) × (result.text ≡ self.now.text) × (result.starts ≡ self.now.starts) }
    {
        Names::new(self.table.utf8(), self.text, self.starts)
    }

    // The name at a place of the list, if there is one. It is a part of the text, not a copy.
    pub fn name(&self, place: usize) -> Option<&'a [u8]>
        ensures { NameAt (lists_of self.now) place result }
    {
        if place >= self.places.len() {
            return None;
        }
        Some(self.at(place))
    }

    // The name at a place of the list.
    pub(crate) fn at(&self, place: usize) -> &'a [u8]
        requires { place < length self.now.places.now }
        ensures { result.now ≡ name_at (lists_of self.now) place }
    {
        self.names().at(self.places[place] as usize)
    }
}
