// The entry that makes a key from lent numbers alone.
ghost use Rattle.keys.specs.Entry.{KeySays};

use crate::fault::NameRefusal;
use crate::fill::fill;
use crate::sort_key::has_room;
use table::Table;

// What `make_key` answers: plain numbers, and not a `Result` with a refusal, for callers who know tables by numbers alone.
#[derive(Clone, Copy, PartialEq, Eq, Debug)]
pub enum Done {
    // The key stands in the first so many numbers of the room.
    Keyed(u64),
    // The key needs so many numbers, more than there are in the room.
    Short(u64),
    // Turned away, with this number.
    Refused(u64),
}

// The key of a name under a table that is lent as numbers, written into the front of `room`. Nothing is allocated.
// What it takes are slices and a number, one by one, for callers who know tables by numbers alone.
pub fn make_key(
    letters: &[u16],
    joins: &[u16],
    how_many: u64,
    name: &[u8],
    room: &mut [u16],
) -> Done
    ensures { KeySays letters.now joins.now how_many name.now room.old result room.new }
{
    let table = match Table::check(letters, joins, how_many) {
        Ok(table) => table,
        Err(why) => return Done::Refused(why.number()),
    };
    if let Some(why) = NameRefusal::of(false, name) {
        return Done::Refused(why.number());
    }
    if let Err(short) = has_room(&table, name, room.len()) {
        return Done::Short(short.needs as u64);
    }
    Done::Keyed(fill(&table, name, room) as u64)
}
