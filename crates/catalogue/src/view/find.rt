// Finding the part of a catalogue that begins so.
ghost use Rattle.std.specs.Prelude.{◌≡◌, ◌<◌, ◌≤◌, length, take};
ghost use Rattle.catalogue.specs.Checking.{lists_of};
ghost use Rattle.catalogue.specs.Cutting.{Cuts, along_at};
ghost use Rattle.catalogue.specs.Finding.{BothOrNeither, Found, FoundAt, looked_through, may_ask, standing_at};
ghost use Rattle.order.specs.Names.{along};

use crate::view::Catalogue;
use keys::NameRefusal;
use order::{Asked, Standing};
use std::ops::Range;

impl<'a> Catalogue<'a> {
    // The part of the list whose names begin as asked; a part of none where what is asked is no name.
    #[tactic(auto, using(crate::proofs::Cutting::part_at, crate::proofs::Cutting::through))]
    pub fn find(&self, ask: &[u8]) -> &'a [u32]
        ensures part { Found (may_ask (lists_of self.now) ask.now) (lists_of self.now) ask.now result.now }
        ensures looked_through { result.now ≡ looked_through (may_ask (lists_of self.now) ask.now) (lists_of self.now) ask.now }
        ensures written_out { BothOrNeither (lists_of self.now) result.now }
    {
        let range = self.range(ask);
        &self.places[range.start..range.end]
    }

    // How long this part is.
    #[tactic(auto, using(crate::proofs::Cutting::through))]
    pub fn count(&self, ask: &[u8]) -> usize
        ensures { result ≡ length (looked_through (may_ask (lists_of self.now) ask.now) (lists_of self.now) ask.now) }
    {
        self.find(ask).len()
    }

    // The first n of this part, or all of it where it has not more.
    pub fn first(&self, ask: &[u8], n: usize) -> &'a [u32]
        ensures { result.now ≡ take n (looked_through (may_ask (lists_of self.now) ask.now) (lists_of self.now) ask.now) }
    {
        let part = self.find(ask);
        &part[..part.len().min(n)]
    }

    // Where this part is in the list, or would be if there is none; from 0 up to 0 where what is asked is no name.
    pub fn range(&self, ask: &[u8]) -> Range<usize>
        ensures { FoundAt (may_ask (lists_of self.now) ask.now) (lists_of self.now) ask.now result.start result.end }
    {
        if NameRefusal::of(self.table.utf8(), ask).is_some() {
            return 0..0;
        }
        let asked = Asked::new(&self.table, ask);
        let mut from = 0;
        let mut to = self.places.len();
        while from < to {
            let middle = from + (to - from) / 2;
            match self.standing(middle, &asked) {
                Standing::Before => from = middle + 1,
                Standing::After => to = middle,
                Standing::Begins => {
                    let first = self.first_behind(Standing::Before, from, middle, &asked);
                    let behind = self.first_behind(Standing::Begins, middle + 1, to, &asked);
                    return first..behind;
                }
            }
        }
        from..from
    }

    // The first place from one on and before another whose name stands further along than so; else the other.
    fn first_behind(&self, so: Standing, from: usize, to: usize, asked: &Asked) -> usize
        requires within { (from ≤ to) × (to ≤ length self.now.places.now) }
        requires table { asked.now.table.now ≡ self.now.table }
        ensures { Cuts (along_at (lists_of self.now) asked.now.ask.now) (along so) from to result }
    {
        let mut low = from;
        let mut high = to;
        while low < high {
            let middle = low + (high - low) / 2;
            if self.standing(middle, asked) <= so {
                low = middle + 1;
            } else {
                high = middle;
            }
        }
        low
    }

    // Where the name at a place stands to what is asked.
    fn standing(&self, place: usize, asked: &Asked) -> Standing
        requires within { place < length self.now.places.now }
        requires table { asked.now.table.now ≡ self.now.table }
        ensures { result ≡ standing_at (lists_of self.now) asked.now.ask.now place }
    {
        asked.standing(self.at(place))
    }
}
