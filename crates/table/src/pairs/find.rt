// Finding pairs.
ghost use Rattle.std.specs.Prelude.{◌≡◌, ◌+◌, ◌*◌, ◌%◌, ◌<◌, IfSome};
ghost use Rattle.std.specs.List.{slice_get};
ghost use Rattle.std.specs.Option.{option_map};
ghost use Rattle.table.specs.Chain.{begun, bucket, counted_place, marks_of};
ghost use Rattle.table.specs.Numbers.{is_pair, pairs_in, place_in};
ghost use Rattle.pieces.specs.Runs.{weights_at};

use crate::layout::{read_pair, weights_at};
use crate::pairs::Pairs;
use pieces::{Pair, Weights};

impl<'a> Pairs<'a> {
    pub(crate) fn numbers(&self) -> &'a [u16]
        ensures { result ≡ self.now.numbers }
    {
        self.numbers
    }

    pub(crate) fn len(&self) -> usize
        ensures { result ≡ self.now.count }
    {
        self.count
    }

    // The pair at a place, counted from 0.
    #[tactic(auto, using(crate::proofs::Places::nth_pair, crate::proofs::Places::nth_none))]
    pub(crate) fn get(&self, place: usize) -> Option<Pair>
        ensures { result ≡ slice_get (pairs_in self.now.numbers.now self.now.count) place }
    {
        if place >= self.count {
            return None;
        }
        Some(read_pair(self.numbers, place))
    }

    // What two letters weigh together, where they are a pair. Two letters, as `Table::pair` takes them.
    pub(crate) fn weights(&self, first: u32, second: u32) -> Option<Weights>
        ensures { result ≡ option_map (λ k. weights_at self.now.numbers.now (5 * k + 2)) (place_in self.now.numbers.now self.now.count first second) }
    {
        let place = self.locate(first, second)?;
        Some(weights_at(self.numbers, 5 * place + 2))
    }

    // The marks of the pairs.
    pub(crate) fn begins(&self) -> [bool; 256]
        ensures { result ≡ marks_of self.now.numbers.now self.now.count }
    {
        self.begins
    }

    // Whether a pair may begin with this letter.
    pub(crate) fn may_begin(&self, letter: u32) -> bool
        ensures { result ≡ begun self.now.numbers.now self.now.count (letter % 256) }
    {
        self.begins[(letter % 256) as usize]
    }

    // The place of the pair of two letters. Two letters, as `Table::pair` takes them.
    pub(crate) fn locate(&self, first: u32, second: u32) -> Option<usize>
        ensures place { result ≡ place_in self.now.numbers.now self.now.count first second }
        ensures bound { IfSome result (λ k. k < self.now.count) }
    {
        if !self.may_begin(first) {
            return None;
        }
        let mut at = place_of(self.heads[bucket(first, second) as usize]);
        while let Some(place) = at {
            if self.is_at(place, first, second) {
                return Some(place);
            }
            at = place_of(self.links[place]);
        }
        None
    }

    // Whether the pair at a place is of these two letters.
    fn is_at(&self, place: usize, first: u32, second: u32) -> bool
        requires { place < self.now.count }
        ensures { result ≡ is_pair self.now.numbers.now place first second }
    {
        self.numbers[5 * place] as u32 == first && self.numbers[5 * place + 1] as u32 == second
    }
}

// The place that a byte of an index counts from 1.
#[tactic(auto, unfolding(crate::specs::Chain::counted_place))]
fn place_of(counted: u8) -> Option<usize>
    ensures { result ≡ counted_place counted }
{
    (counted as usize).checked_sub(1)
}

// The bucket of two letters.
#[tactic(auto, unfolding(crate::specs::Chain::bucket))]
pub(crate) fn bucket(first: u32, second: u32) -> u8
    ensures { result ≡ bucket first second }
{
    let first = (first % 256) as u8;
    let second = (second % 256) as u8;
    first.wrapping_mul(31).wrapping_add(second)
}
