// The key of a short name, all of whose rows are read in one go.
ghost use Rattle.std.specs.Prelude.{◌≡◌, ◌+◌, ◌<◌, ◌≤◌, [], ◌∷◌, ◌++◌, drop, length, map, take};
ghost use Rattle.keys.specs.Making.{KeyIf};
ghost use Rattle.keys.specs.Reading.{in_front};
ghost use Rattle.keys.specs.Rows.{joined, key};
ghost use Rattle.table.specs.Meaning.{rules_of};

use crate::fill::{Cell, put};
use crate::walk::Walk;
use table::Table;

// How many bytes a short name has at the most, and how many triples that count.
pub(crate) const SHORT: usize = 32;

// The key of a name, written into the front of `room`; how many numbers it has. Each piece is looked at once, and not once for each
// row. Nothing is written where more triples count than there is place for here. The counts stand beside the rows, and not in a
// struct with them, so that they are held in registers.
pub(crate) fn fill_short<T: Cell>(table: &Table, name: &[u8], room: &mut [T]) -> Option<usize>
    requires { length (key (rules_of table.now) name.now) ≤ length room.old }
    ensures { KeyIf T.cell (key (rules_of table.now) name.now) room.old result room.new }
{
    let mut primary = [0; SHORT];
    let mut secondary = [0; SHORT];
    let mut tertiary = [0; SHORT];
    let mut first = 0;
    let mut second = 0;
    let mut third = 0;
    let mut steps = 0;
    let mut walk = Walk::new(table, name);
    while walk.step() {
        if steps == SHORT {
            return None;
        }
        steps += 1;
        first = add(&mut primary, first, walk.weights.primary);
        second = add(&mut secondary, second, walk.weights.secondary);
        third = add(&mut tertiary, third, walk.weights.tertiary);
    }
    Some(write_rows(
        &primary[..first],
        &secondary[..second],
        &tertiary[..third],
        room,
    ))
}

// One weight more of a row of which so many were met, unless it is 0; how many there are then.
fn add(row: &mut [u16; 32], count: usize, weight: u16) -> usize
    requires { count < 32 }
    ensures row { take result row.new ≡ take count row.old ++ in_front weight [] }
    ensures count { result ≤ count + 1 }
{
    row[count] = weight;
    if weight != 0 { count + 1 } else { count }
}

// Rows written as a key into the front of `room`, a 0 between; how many numbers it has.
fn write_rows<T: Cell>(first: &[u16], second: &[u16], third: &[u16], room: &mut [T]) -> usize
    requires { length (joined (first.now ∷ (second.now ∷ (third.now ∷ [])))) ≤ length room.old }
    ensures count { result ≡ length (joined (first.now ∷ (second.now ∷ (third.now ∷ [])))) }
    ensures room { room.new ≡ map T.cell (joined (first.now ∷ (second.now ∷ (third.now ∷ [])))) ++ drop result room.old }
{
    let mut n = put(first, 0, room);
    n = put(&[0], n, room);
    n = put(second, n, room);
    n = put(&[0], n, room);
    put(third, n, room)
}
