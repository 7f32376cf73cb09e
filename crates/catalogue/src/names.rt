// Names in a text, one behind the other.
ghost use Rattle.std.specs.Prelude.{◌≡◌, ◌+◌, ◌-◌, ◌<◌, None, length};
ghost use Rattle.catalogue.specs.Lists.{falls, first_refused, name_of, names_fault, starts_fault};
ghost use Rattle.table.specs.Meaning.{rules_of};
ghost use Rattle.table.specs.Refusals.{first_place};

use crate::fault::ListFault;
use keys::NameRefusal;
use table::Table;

mod arrange;

// A text, and where each name begins in it, with the end of the text behind. Both are lent.
#[derive(Clone, Copy)]
pub struct Names<'a> {
    text: &'a [u8],
    starts: &'a [u32],
    // Whether they are in UTF-8.
    utf8: bool,
    ghost sound: { names_fault utf8 text.now starts.now ≡ None },
}

impl<'a> Names<'a> {
    ghost use Rattle.catalogue.specs.Checking.{NameOf, NamesChecked};

    // The names of a text as a table reads them, if they and their starts are as they should be; else what is wrong.
    #[tactic(auto, unfolding(crate::specs::Lists::starts_fault, crate::specs::Lists::names_fault))]
    pub fn check(table: &Table, text: &'a [u8], starts: &'a [u32]) -> Result<Names<'a>, ListFault>
        ensures { NamesChecked (rules_of table.now).utf8 text.now starts.now result }
    {
        let Some(end) = starts.last() else {
            return Err(ListFault::NoStart);
        };
        if let Some(place) = first_fall(starts) {
            return Err(ListFault::StartFalls(place));
        }
        if *end as usize != text.len() {
            return Err(ListFault::EndsElsewhere(starts.len() - 1));
        }
        let utf8 = table.utf8();
        match first_refused(utf8, text, starts) {
            Some(fault) => Err(fault),
            None => Ok(Names { text, starts, utf8 }),
        }
    }

    // The same, where nothing is wrong.
    pub(crate) fn new(utf8: bool, text: &'a [u8], starts: &'a [u32]) -> Names<'a>
        requires { names_fault utf8 text.now starts.now ≡ None }
        ensures { (result.utf8 ≡ utf8) × (result.text ≡ text.entry) × (result.starts ≡ starts.entry) }
    {
        Names { text, starts, utf8 }
    }

    // How many there are.
    #[tactic(auto, using(crate::proofs::Listing::begun))]
    pub fn count(&self) -> usize
        ensures { result ≡ length self.now.starts.now - 1 }
    {
        self.starts.len() - 1
    }

    // The name of a number, if it is one's.
    pub fn name(&self, number: u32) -> Option<&'a [u8]>
        ensures { NameOf self.now.text.now self.now.starts.now number result }
    {
        let number = number as usize;
        if number >= self.count() {
            return None;
        }
        Some(self.at(number))
    }

    // The name of a number that is one's.
    #[tactic(auto, using(crate::proofs::Listing::rises, crate::proofs::Listing::within))]
    pub(crate) fn at(&self, number: usize) -> &'a [u8]
        requires { number + 1 < length self.now.starts.now }
        ensures { result.now ≡ name_of self.now.text.now self.now.starts.now number }
    {
        let from = self.starts[number] as usize;
        let to = self.starts[number + 1] as usize;
        &self.text[from..to]
    }
}

// The first start that is before the one in front of it.
#[tactic(auto, using(crate::proofs::Listing::fall_none, crate::proofs::Listing::fall_more, crate::proofs::Listing::fall_is))]
fn first_fall(starts: &[u32]) -> Option<usize>
    ensures { result ≡ first_place (falls starts.now) (length starts.now) }
{
    for place in 1..starts.len() {
        if starts[place] < starts[place - 1] {
            return Some(place);
        }
    }
    None
}

// The first name that is turned away, where the starts are as they should be.
#[tactic(auto, using(crate::proofs::Listing::one_start, crate::proofs::Listing::start_rises, crate::proofs::Listing::start_within, crate::proofs::Listing::none_refused, crate::proofs::Listing::not_refused, crate::proofs::Listing::is_refused))]
fn first_refused(utf8: bool, text: &[u8], starts: &[u32]) -> Option<ListFault>
    requires { starts_fault text.now starts.now ≡ None }
    ensures { result ≡ first_refused utf8 text.now starts.now (length starts.now - 1) }
{
    for number in 0..starts.len() - 1 {
        let name = &text[starts[number] as usize..starts[number + 1] as usize];
        if let Some(why) = NameRefusal::of(utf8, name) {
            return Some(ListFault::NameRefused(number, why));
        }
    }
    None
}
