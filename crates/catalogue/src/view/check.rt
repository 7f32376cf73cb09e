// Checking lent lists as a catalogue.
ghost use Rattle.std.specs.Prelude.{◌≡◌, None, length};
ghost use Rattle.catalogue.specs.Checking.{ListsChecked};
ghost use Rattle.catalogue.specs.Lists.{lists, names_fault, no_such_name, out_of_order, places_fault};
ghost use Rattle.table.specs.Meaning.{rules_of};
ghost use Rattle.table.specs.Refusals.{first_place};

use crate::fault::ListFault;
use crate::names::Names;
use crate::view::Catalogue;
use order::Collate;
use table::Table;

impl<'a> Catalogue<'a> {
    // Lent lists as a catalogue under a table, if they are as they should be; else what is wrong.
    #[tactic(auto, unfolding(crate::specs::Lists::places_fault))]
    pub fn check(
        table: &Table<'a>,
        text: &'a [u8],
        starts: &'a [u32],
        places: &'a [u32],
    ) -> Result<Catalogue<'a>, ListFault>
        ensures { ListsChecked table.now text.now starts.now places.now result }
    {
        let names = Names::check(table, text, starts)?;
        if let Some(place) = first_unknown(&names, places) {
            return Err(ListFault::NoSuchName(place));
        }
        if let Some(place) = first_out_of_order(table, &names, places) {
            return Err(ListFault::OutOfOrder(place));
        }
        Ok(Catalogue::new(*table, text, starts, places))
    }

    // The same, where nothing is wrong.
    pub(crate) fn new(
        table: Table<'a>,
        text: &'a [u8],
        starts: &'a [u32],
        places: &'a [u32],
    ) -> Catalogue<'a>
        requires sound { names_fault (rules_of table).utf8 text.now starts.now ≡ None }
        requires listed { places_fault (lists (rules_of table) text.now starts.now places.now) ≡ None }
        ensures { (result.table ≡ table.entry) × (result.text ≡ text.entry) × (result.starts ≡ starts.entry) × (result.places ≡ places.entry) }
    {
        Catalogue {
            table,
            text,
            starts,
            places,
        }
    }
}

// The first place of a list at which the number is no name's.
fn first_unknown(names: &Names, places: &[u32]) -> Option<usize>
    ensures { result ≡ first_place (no_such_name names.now.starts.now places.now) (length places.now) }
{
    places
        .iter()
        .position(|&number| number as usize >= names.count())
}

// The first place of a list at which the name is before the one in front of it.
#[tactic(auto, using(crate::proofs::Listing::turn_none, crate::proofs::Listing::turn_more, crate::proofs::Listing::turn_is, crate::proofs::Listing::known_at))]
fn first_out_of_order(table: &Table, names: &Names, places: &[u32]) -> Option<usize>
    requires { first_place (no_such_name names.now.starts.now places.now) (length places.now) ≡ None }
    ensures { result ≡ first_place (out_of_order (lists (rules_of table.now) names.now.text.now names.now.starts.now places.now)) (length places.now) }
{
    for place in 1..places.len() {
        let before = names.at(places[place - 1] as usize);
        let name = names.at(places[place] as usize);
        if table.compare(name, before).is_lt() {
            return Some(place);
        }
    }
    None
}
