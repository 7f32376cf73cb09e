// Jobs to be timed from outside: each does many of one kind, under a table that is checked once, of bytes or of names in UTF-8, and
// answers what they come to.
//
// A static library, used by bench/ alone. What is not as it should be comes to 0.
#![tactic(auto)]

ghost use Rattle.std.specs.Prelude.{◌≡◌, ◌-◌, cond, [], is_none, length, ◌&&◌};
ghost use Rattle.catalogue.specs.Checking.{lists_of};
ghost use Rattle.catalogue.specs.Lists.{lists, names_fault};
ghost use Rattle.timing.specs.Totals.{Listed, are_names, lists_right, found_at, in_order_at, in_order_of, key_at, numbered, room_after, total, written, TableOf};
ghost use Rattle.table.specs.Meaning.{rules_of};
ghost use Rattle.table.specs.Rules.{rules_by};

use catalogue::{Catalogue, Names};
use keys::SortKeys;
use order::Collate;
use std::alloc::Global;
use table::Table;

// Each name's key, written into the front of the room, one over the other; how many numbers all have.
#[unsafe(no_mangle)]
pub extern "C" fn timing_keys(
    letters: &[u16],
    pairs: &[u16],
    how_many: u64,
    utf8: bool,
    text: &[u8],
    starts: &[u32],
    room: &mut [u32],
) -> u64
    ensures numbers { result ≡ cond (are_names letters.now pairs.now how_many utf8 text.now starts.now) (total (written (key_at (rules_by utf8 letters.now [] pairs.now how_many) text.now starts.now) room.old) (numbered starts.now)) 0 }
    ensures room { room.new ≡ cond (are_names letters.now pairs.now how_many utf8 text.now starts.now) (room_after (key_at (rules_by utf8 letters.now [] pairs.now how_many) text.now starts.now) room.old (numbered starts.now)) room.old }
{
    let Some(table) = table_of(letters, pairs, how_many, utf8) else {
        return 0;
    };
    let Ok(names) = Names::check(&table, text, starts) else {
        return 0;
    };
    keys_of(&table, &names, room)
}

// The same, under a table and of names that are checked.
#[tactic(auto, unfolding(crate::specs::Totals::room_after, crate::specs::Totals::total))]
fn keys_of(table: &Table, names: &Names, room: &mut [u32]) -> u64
    ensures numbers { result ≡ total (written (key_at (rules_of table.now) names.now.text.now names.now.starts.now) room.old) (numbered names.now.starts.now) }
    ensures room { room.new ≡ room_after (key_at (rules_of table.now) names.now.text.now names.now.starts.now) room.old (numbered names.now.starts.now) }
{
    let mut numbers = 0u64;
    for number in 0..numbered(names) {
        if let Some(name) = names.name(number) {
            let written = table.write_key(name, room).unwrap_or(0);
            numbers = numbers.wrapping_add(written as u64);
        }
    }
    numbers
}

// How many neighbours of a list are in order, the one before the other.
#[unsafe(no_mangle)]
pub extern "C" fn timing_compares(
    letters: &[u16],
    pairs: &[u16],
    how_many: u64,
    utf8: bool,
    text: &[u8],
    starts: &[u32],
    places: &[u32],
) -> u64
    ensures { result ≡ cond (are_names letters.now pairs.now how_many utf8 text.now starts.now) (total (in_order_at (lists (rules_by utf8 letters.now [] pairs.now how_many) text.now starts.now places.now)) (length places.now - 1)) 0 }
{
    let Some(table) = table_of(letters, pairs, how_many, utf8) else {
        return 0;
    };
    let Ok(names) = Names::check(&table, text, starts) else {
        return 0;
    };
    compares_of(&table, &names, places)
}

// The same, under a table and of names that are checked.
#[tactic(auto, unfolding(crate::specs::Totals::total))]
fn compares_of(table: &Table, names: &Names, places: &[u32]) -> u64
    ensures { result ≡ total (in_order_at (lists (rules_of table.now) names.now.text.now names.now.starts.now places.now)) (length places.now - 1) }
{
    let mut ordered = 0u64;
    for place in 0..places.len().saturating_sub(1) {
        if in_order(table, names, places[place], places[place + 1]) {
            ordered = ordered.wrapping_add(1);
        }
    }
    ordered
}

// Whether the name of one number is before that of another, where both are names'.
#[inline(always)]
fn in_order(table: &Table, names: &Names, one: u32, other: u32) -> bool
    ensures { result ≡ in_order_of (rules_of table.now) names.now.text.now names.now.starts.now one other }
{
    let Some(one) = names.name(one) else {
        return false;
    };
    let Some(other) = names.name(other) else {
        return false;
    };
    table.compare(one, other).is_lt()
}

// How many names all questions find in a list that is checked once. The questions lie one behind the other, as names do.
#[unsafe(no_mangle)]
pub extern "C" fn timing_finds(
    letters: &[u16],
    pairs: &[u16],
    how_many: u64,
    utf8: bool,
    text: &[u8],
    starts: &[u32],
    places: &[u32],
    asks: &[u8],
    ask_starts: &[u32],
) -> u64
    ensures { result ≡ cond (lists_right letters.now pairs.now how_many utf8 text.now starts.now places.now && is_none (names_fault utf8 asks.now ask_starts.now)) (total (found_at (lists (rules_by utf8 letters.now [] pairs.now how_many) text.now starts.now places.now) asks.now ask_starts.now) (numbered ask_starts.now)) 0 }
{
    let Some(table) = table_of(letters, pairs, how_many, utf8) else {
        return 0;
    };
    let Ok(catalogue) = Catalogue::check(&table, text, starts, places) else {
        return 0;
    };
    let Ok(questions) = Names::check(&table, asks, ask_starts) else {
        return 0;
    };
    finds_of(&catalogue, &questions)
}

// The same, in a catalogue.
#[tactic(auto, unfolding(crate::specs::Totals::total))]
fn finds_of(catalogue: &Catalogue, questions: &Names) -> u64
    ensures { result ≡ total (found_at (lists_of catalogue.now) questions.now.text.now questions.now.starts.now) (numbered questions.now.starts.now) }
{
    let mut found = 0u64;
    for number in 0..numbered(questions) {
        if let Some(ask) = questions.name(number) {
            found = found.wrapping_add(catalogue.count(ask) as u64);
        }
    }
    found
}

// A list of all names, made and copied into `places`: true where it is; then there are as many places as names.
#[unsafe(no_mangle)]
pub extern "C" fn timing_list(
    heap: Global,
    letters: &[u16],
    pairs: &[u16],
    how_many: u64,
    utf8: bool,
    text: &[u8],
    starts: &[u32],
    places: &mut [u32],
) -> bool
    ensures { Listed (are_names letters.now pairs.now how_many utf8 text.now starts.now) (lists (rules_by utf8 letters.now [] pairs.now how_many) text.now starts.now places.old) places.new result }
{
    let Some(table) = table_of(letters, pairs, how_many, utf8) else {
        return false;
    };
    let Ok(names) = Names::check(&table, text, starts) else {
        return false;
    };
    let Ok(list) = names.in_order(&table, heap) else {
        return false;
    };
    if list.len() != places.len() {
        return false;
    }
    places.copy_from_slice(&list);
    true
}

// A table that is lent as numbers, of bytes or of names in UTF-8.
fn table_of<'a>(
    letters: &'a [u16],
    pairs: &'a [u16],
    how_many: u64,
    utf8: bool,
) -> Option<Table<'a>>
    ensures { TableOf letters.now pairs.now how_many utf8 result }
{
    let Ok(table) = Table::check(letters, pairs, how_many) else {
        return None;
    };
    Some(if utf8 { table.in_utf8() } else { table })
}

// How many names there are, as far as 32 bits number them.
fn numbered(names: &Names) -> u32
    ensures { result ≡ numbered names.now.starts.now }
{
    names.count().min(u32::MAX as usize) as u32
}
