// Sort keys of names under a checked table.
ghost use Rattle.std.specs.Prelude.{◌≡◌, ◌-◌, ◌*◌, ◌^◌, ◌<◌, ◌≤◌, length, vec_items};
ghost use Rattle.keys.specs.Laws.{most_triples};
ghost use Rattle.keys.specs.Making.{Made, Written, fits, saturated};
ghost use Rattle.keys.specs.Rows.{key};
ghost use Rattle.table.specs.Meaning.{rules_of};
ghost use Rattle.table.specs.Rules.{Rules};

use crate::fault::{KeyError, NameRefusal};
use crate::fill::fill;
use crate::numbers::KeyNumbers;
use std::alloc::Global;
use table::Table;

// The room is too short for the key; nothing has been written.
#[derive(Clone, Copy, PartialEq, Eq, Debug)]
pub struct Short {
    // How many numbers the key has.
    pub needs: usize,
}

// What a table does with names.
pub trait SortKeys {
    ghost rules: { Self → Rules };

    // How many numbers a name's key has.
    fn key_len(&self, name: &[u8]) -> usize
        ensures { result ≡ saturated (length (key (rules self.now) name.now)) };

    // A name's key, written into the front of `room`, and how many numbers it has.
    fn write_key(&self, name: &[u8], room: &mut [u32]) -> Result<usize, Short>
        ensures { Written (key (rules self.now) name.now) room.old result room.new };

    // A name's key in memory of its own.
    fn sort_key(&self, heap: Global, name: &[u8]) -> Result<Vec<u32>, KeyError>
        ensures { Made (rules self.now) name.now vec_items result };
}

impl SortKeys for Table<'_> {
    ghost rules = { rules_of };

    fn key_len(&self, name: &[u8]) -> usize {
        KeyNumbers::new(self, name).fold(0usize, |n, _| n.saturating_add(1))
    }

    fn write_key(&self, name: &[u8], room: &mut [u32]) -> Result<usize, Short> {
        has_room(self, name, room.len())?;
        Ok(fill(self, name, room))
    }

    fn sort_key(&self, heap: Global, name: &[u8]) -> Result<Vec<u32>, KeyError> {
        if let Some(why) = NameRefusal::of(self.utf8(), name) {
            return Err(KeyError::Refused(why));
        }
        let most = name.len().saturating_mul(most_each(self)).saturating_add(2);
        let mut key = vec![in heap; 0; most]?;
        let numbers = fill(self, name, &mut key);
        key.truncate(numbers);
        Ok(key)
    }
}

// How many numbers a letter gives a key at the most: one on each level, or three where letters weigh as three.
fn most_each(table: &Table) -> usize
    ensures { (result ≡ 3 * most_triples table.now) × (result ≤ 9) }
{
    if table.expansion_count() > 0 { 9 } else { 3 }
}

// Whether a name's key fits into so much room. A key has so many numbers for each letter at the most, and two between, so it is
// only measured where that may be too many.
pub(crate) fn has_room(table: &Table, name: &[u8], room: usize) -> Result<(), Short>
    requires { room < 2 ^ 64 - 1 }
    ensures { result ≡ fits (length (key (rules_of table.now) name.now)) room }
{
    if room >= 2 && name.len() <= (room - 2) / most_each(table) {
        return Ok(());
    }
    let needs = table.key_len(name);
    if needs > room {
        return Err(Short { needs });
    }
    Ok(())
}
