// The names that are found.
ghost use Rattle.std.specs.Prelude.{◌+◌, ◌<◌, ℕ, length, slice_index_or};

use crate::names::Names;
use crate::view::Catalogue;

// The names of numbers, one after the other; each number is a name's.
#[derive(Clone, Copy)]
pub struct NamesFound<'a> {
    names: Names<'a>,
    numbers: &'a [u32],
    ghost known: { (k : ℕ) → k < length numbers.now → slice_index_or numbers.now k 0 + 1 < length names.starts.now },
}

impl<'a> NamesFound<'a> {
    ghost use Rattle.std.specs.Prelude.{◌≡◌, take};
    ghost use Rattle.catalogue.specs.Naming.{names_left};

    // The first n of them, or all where there are not more.
    #[tactic(auto, using(crate::proofs::Naming::first_named))]
    pub fn first(&self, n: usize) -> NamesFound<'a>
        ensures { names_left result ≡ take n (names_left self.now) }
    {
        NamesFound {
            names: self.names,
            numbers: &self.numbers[..self.numbers.len().min(n)],
        }
    }

    // How many are left.
    pub fn len(&self) -> usize
        ensures { result ≡ length (names_left self.now) }
    {
        self.numbers.len()
    }
}

impl<'a> Iterator for NamesFound<'a> {
    ghost use Rattle.std.specs.Iterator.{YieldsFirstRef, item_count};
    ghost use Rattle.catalogue.specs.Naming.{names_left};

    type Item = &'a [u8];

    ghost next_gives = { YieldsFirstRef (λ it. names_left it) };

    ghost remaining = { item_count (λ it. names_left it) };

    fn next(&mut self) -> Option<&'a [u8]> {
        let (number, rest) = self.numbers.split_first()?;
        let name = self.names.at(*number as usize);
        self.numbers = rest;
        Some(name)
    }
}

static NO_NAMES: [u32; 1] = [0];

// No names.
impl Default for NamesFound<'_> {
    ghost use Rattle.std.specs.Prelude.{◌≡◌, []};
    ghost use Rattle.catalogue.specs.Naming.{names_left};

    ghost is_default = { λ it. names_left it ≡ [] };

    #[tactic(auto, using(crate::proofs::Listing::none_sound))]
    fn default() -> Self {
        NamesFound {
            names: Names::new(false, &[], &NO_NAMES),
            numbers: &[],
        }
    }
}

impl<'a> Catalogue<'a> {
    ghost use Rattle.std.specs.Prelude.{◌≡◌, map};
    ghost use Rattle.catalogue.specs.Checking.{lists_of};
    ghost use Rattle.catalogue.specs.Finding.{looked_through, may_ask};
    ghost use Rattle.catalogue.specs.Lists.{name_of};
    ghost use Rattle.catalogue.specs.Naming.{names_left};

    // The names that begin so, in the order of the list.
    pub fn found(&self, ask: &[u8]) -> NamesFound<'a>
        ensures { names_left result ≡ map (name_of self.now.text.now self.now.starts.now) (looked_through (may_ask (lists_of self.now) ask.now) (lists_of self.now) ask.now) }
    {
        NamesFound {
            names: self.names(),
            numbers: self.find(ask),
        }
    }
}
