// Putting names in order.
ghost use Rattle.std.specs.Prelude.{◌≡◌, ◌++◌, ℕ, ◌+◌, ◌-◌, ◌^◌, ◌<◌, ◌≤◌, IfOk, length, slice_index_or, vec_items};
ghost use Rattle.table.specs.Meaning.{rules_of};
ghost use Rattle.keys.specs.Rows.{key};

use crate::fault::{OrderError, TooMany};
use crate::names::Names;
use keys::{KeyNumbers, SortKeys};
use std::alloc::{AllocError, Global};
use table::Table;

// A name's key and its number. Keys decide; of names with the same key the number does.
#[derive(Clone, Copy, PartialEq, Eq, PartialOrd, Ord)]
struct Keyed<'k> {
    key: &'k [u32],
    number: u32,
}

impl<'k> Keyed<'k> {
    ghost use Rattle.catalogue.specs.Keying.{AreKeyed};
    ghost use Rattle.catalogue.specs.Lists.{name_of};

    // Each of the keys that lie between bounds, beside its number.
    fn all(numbers: &'k [u32], bounds: &[usize], heap: Global) -> Result<Vec<Keyed<'k>>, AllocError>
        requires few { length bounds.now ≤ 2 ^ 32 + 1 }
        requires lie { (i : ℕ) → i + 1 < length bounds.now → (slice_index_or bounds.now i 0 ≤ slice_index_or bounds.now (i + 1) 0) × (slice_index_or bounds.now (i + 1) 0 ≤ length numbers.now) }
        ensures { IfOk result (λ v. AreKeyed (name_of numbers.now bounds.now) (length bounds.now - 1) v.items) }
    {
        let mut keyed = Vec::with_capacity(heap, bounds.len())?;
        for number in 0..bounds.len().saturating_sub(1) {
            let key = &numbers[bounds[number]..bounds[number + 1]];
            keyed.push(Keyed {
                key,
                number: number as u32,
            })?;
        }
        Ok(keyed)
    }
}

impl Names<'_> {
    ghost use Rattle.catalogue.specs.Arranging.{Arranged, ListMade};
    ghost use Rattle.catalogue.specs.Keying.{KeysLie};
    ghost use Rattle.catalogue.specs.Lists.{lists, name_of};

    // As many as numbers of 32 bits tell apart.
    pub const MAX_LISTED: usize = 1 << 32;

    // The numbers of all names in order: by their keys under the table, and of names with the same key as they are numbered.
    // Each key is worked out once.
    pub fn in_order(&self, table: &Table, heap: Global) -> Result<Vec<u32>, OrderError>
        ensures { ListMade (rules_of table.now) self.now.text.now self.now.starts.now vec_items result }
    {
        if self.count() > Self::MAX_LISTED {
            return Err(OrderError::Refused(TooMany {
                names: self.count(),
            }));
        }
        Ok(self.arrange(table, heap)?)
    }

    // The same, where there are not too many.
    pub(crate) fn arrange(&self, table: &Table, heap: Global) -> Result<Vec<u32>, AllocError>
        requires { length self.now.starts.now - 1 ≤ 2 ^ 32 }
        ensures { IfOk result (λ v. Arranged (lists (rules_of table.now) self.now.text.now self.now.starts.now v.items)) }
    {
        let (numbers, bounds) = self.keys(table, heap)?;
        let mut keyed = Keyed::all(&numbers, &bounds, heap)?;
        keyed.sort_unstable();
        let mut places = Vec::with_capacity(heap, keyed.len())?;
        for one in &keyed {
            places.push(one.number)?;
        }
        Ok(places)
    }

    // All names' keys, one behind the other, and where each begins, with the end behind.
    fn keys(&self, table: &Table, heap: Global) -> Result<(Vec<u32>, Vec<usize>), AllocError>
        ensures { IfOk result (λ p. KeysLie (λ i. key (rules_of table.now) (name_of self.now.text.now self.now.starts.now i)) (length self.now.starts.now - 1) p.0.items p.1.items) }
    {
        let most = self.text.len().saturating_mul(3);
        let mut numbers = Vec::with_capacity(heap, most.saturating_add(2 * self.count()))?;
        let mut bounds = Vec::with_capacity(heap, self.count() + 1)?;
        bounds.push(0)?;
        let mut room = [0; 9002];
        for number in 0..self.count() {
            push_key(table, self.at(number), &mut room, &mut numbers)?;
            bounds.push(numbers.len())?;
        }
        Ok((numbers, bounds))
    }
}

// A name's key, put behind the others: by way of room that is long enough for every key of a name that is taken, and number by
// number where it is longer.
fn push_key(
    table: &Table,
    name: &[u8],
    room: &mut [u32; 9002],
    numbers: &mut Vec<u32>,
) -> Result<(), AllocError>
    ensures { IfOk result (λ x. numbers.new.items ≡ numbers.old.items ++ key (rules_of table.now) name.now) }
{
    match table.write_key(name, room) {
        Ok(written) => numbers.extend_from_slice(&room[..written])?,
        Err(_) => push_long_key(table, name, numbers)?,
    }
    Ok(())
}

// The same, number by number.
fn push_long_key(table: &Table, name: &[u8], numbers: &mut Vec<u32>) -> Result<(), AllocError>
    ensures { IfOk result (λ x. numbers.new.items ≡ numbers.old.items ++ key (rules_of table.now) name.now) }
{
    for number in KeyNumbers::new(table, name) {
        numbers.push(number)?;
    }
    Ok(())
}
