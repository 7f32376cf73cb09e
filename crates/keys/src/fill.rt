// Numbers of a key written into lent room, whatever each takes there.
ghost use Rattle.std.specs.Prelude.{◌≡◌, ℕ, ◌+◌, ◌<◌, ◌≤◌, ◌++◌, drop, length, map, take};
ghost use Rattle.keys.specs.Reading.{numbers_left};
ghost use Rattle.keys.specs.Rows.{key};
ghost use Rattle.table.specs.Meaning.{rules_of};

use crate::numbers::KeyNumbers;
use crate::rows::{SHORT, fill_short};
use table::Table;

// A number of a key as it lies in room.
pub(crate) trait Cell: Copy {
    ghost cell: { ℕ → Self };

    fn of(number: u32) -> Self
        requires { number < 65536 }
        ensures { result ≡ cell number };
}

impl Cell for u32 {
    ghost cell = { λ x. x };

    fn of(number: u32) -> u32 {
        number
    }
}

impl Cell for u16 {
    ghost cell = { λ x. x };

    fn of(number: u32) -> u16 {
        number as u16
    }
}

// Weights written into room from a place on; the place behind them.
pub(crate) fn put<T: Cell>(weights: &[u16], from: usize, room: &mut [T]) -> usize
    requires { from + length weights.now ≤ length room.old }
    ensures behind { result ≡ from + length weights.now }
    ensures room { room.new ≡ take from room.old ++ (map T.cell weights.now ++ drop result room.old) }
{
    let mut n = from;
    for weight in weights {
        room[n] = T::of(*weight as u32);
        n += 1;
    }
    n
}

// The key of a name, written into the front of `room`; how many numbers it has.
pub(crate) fn fill<T: Cell>(table: &Table, name: &[u8], room: &mut [T]) -> usize
    requires { length (key (rules_of table.now) name.now) ≤ length room.old }
    ensures count { result ≡ length (key (rules_of table.now) name.now) }
    ensures room { room.new ≡ map T.cell (key (rules_of table.now) name.now) ++ drop result room.old }
{
    if name.len() <= SHORT {
        if let Some(numbers) = fill_short(table, name, room) {
            return numbers;
        }
    }
    fill_with(KeyNumbers::new(table, name), room)
}

// The numbers of a key, written into the front of `room`; how many they are.
fn fill_with<T: Cell>(numbers: KeyNumbers, room: &mut [T]) -> usize
    requires { length (numbers_left numbers) ≤ length room.old }
    ensures count { result ≡ length (numbers_left numbers.entry) }
    ensures room { room.new ≡ map T.cell (numbers_left numbers.entry) ++ drop result room.old }
{
    // A `zip` with the room's cells and `count` would say nothing of what is left in the room.
    let mut n = 0;
    for number in numbers {
        room[n] = T::of(number);
        n += 1;
    }
    n
}
