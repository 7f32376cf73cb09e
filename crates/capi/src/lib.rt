// Keys and finding for C and Rust, on numbers and slices.
//
// A static library: each function here is one that C calls, and include/nullahbowl.h says the same to C. A slice crosses as a
// pointer and a length; lengths are tested inside, and nothing is asked of the caller but what the head of the header says of
// pointers. Answers are plain numbers (answer).
#![tactic(auto)]

ghost use Rattle.std.specs.Prelude.{◌≡◌, ◌+◌, ◌-◌, ◌^◌, ◌<◌, false, length, slice_range};
ghost use Rattle.capi.specs.Answers.{ExactlyKeyed, PartsSay, each_verdict, fault_in, verdict_of};
ghost use Rattle.catalogue.specs.Checking.{lists_of};
ghost use Rattle.catalogue.specs.Entry.{FindSays, all_right};
ghost use Rattle.catalogue.specs.Finding.{FoundAt};
ghost use Rattle.catalogue.specs.Lists.{lists, names_fault};
ghost use Rattle.table.specs.Refusals.{refusal_of};
ghost use Rattle.table.specs.Rules.{rules_in};

mod answer;

pub use answer::{KeyAnswer, Part, Verdict};
use catalogue::{Catalogue, Names};
use std::ops::Range;
use table::Table;

// The key of a name, written into the front of `room`; nothing else is written.
#[unsafe(no_mangle)]
pub extern "C" fn nullahbowl_key(
    letters: &[u16],
    pairs: &[u16],
    how_many: u64,
    name: &[u8],
    room: &mut [u16],
) -> KeyAnswer
    ensures { ExactlyKeyed letters.now pairs.now how_many name.now room.old result room.new }
{
    KeyAnswer::from(keys::make_key(letters, pairs, how_many, name, room))
}

// Where the part of a list is whose names begin as asked, all being checked each time.
#[unsafe(no_mangle)]
pub extern "C" fn nullahbowl_find(
    letters: &[u16],
    pairs: &[u16],
    how_many: u64,
    text: &[u8],
    starts: &[u32],
    places: &[u32],
    ask: &[u8],
) -> Part
    ensures stands { FoundAt (all_right letters.now pairs.now how_many text.now starts.now places.now ask.now) (lists (rules_in letters.now pairs.now how_many) text.now starts.now places.now) ask.now result.place (result.place + result.length) }
    ensures part { FindSays letters.now pairs.now how_many text.now starts.now places.now ask.now (slice_range places.now result.place (result.place + result.length)) }
{
    Part::from(range_in(letters, pairs, how_many, text, starts, places, ask))
}

// Where it is; from 0 up to 0 where not all is as it should be.
fn range_in(
    letters: &[u16],
    pairs: &[u16],
    how_many: u64,
    text: &[u8],
    starts: &[u32],
    places: &[u32],
    ask: &[u8],
) -> Range<usize>
    ensures { FoundAt (all_right letters.now pairs.now how_many text.now starts.now places.now ask.now) (lists (rules_in letters.now pairs.now how_many) text.now starts.now places.now) ask.now result.start result.end }
{
    let Ok(table) = Table::check(letters, pairs, how_many) else {
        return 0..0;
    };
    let Ok(catalogue) = Catalogue::check(&table, text, starts, places) else {
        return 0..0;
    };
    catalogue.range(ask)
}

// What is wrong with a table and lists.
#[unsafe(no_mangle)]
pub extern "C" fn nullahbowl_check(
    letters: &[u16],
    pairs: &[u16],
    how_many: u64,
    text: &[u8],
    starts: &[u32],
    places: &[u32],
) -> Verdict
    ensures { result ≡ verdict_of (refusal_of letters.now pairs.now how_many) (fault_in (lists (rules_in letters.now pairs.now how_many) text.now starts.now places.now)) }
{
    let table = match Table::check(letters, pairs, how_many) {
        Ok(table) => table,
        Err(why) => return Verdict::from(why),
    };
    match Catalogue::check(&table, text, starts, places) {
        Ok(_) => Verdict::right(),
        Err(why) => Verdict::from(why),
    }
}

// Where the part of each of many questions is, behind one check of table and lists. The questions stand one behind the other, with
// starts, as names do.
#[unsafe(no_mangle)]
pub extern "C" fn nullahbowl_find_each(
    letters: &[u16],
    pairs: &[u16],
    how_many: u64,
    text: &[u8],
    starts: &[u32],
    places: &[u32],
    asks: &[u8],
    ask_starts: &[u32],
    parts: &mut [Part],
) -> Verdict
    ensures verdict { result ≡ each_verdict (refusal_of letters.now pairs.now how_many) (fault_in (lists (rules_in letters.now pairs.now how_many) text.now starts.now places.now)) (names_fault false asks.now ask_starts.now) (length ask_starts.now - 1) (length parts.old) }
    ensures parts { PartsSay result.what (lists (rules_in letters.now pairs.now how_many) text.now starts.now places.now) asks.now ask_starts.now parts.old parts.new }
{
    let table = match Table::check(letters, pairs, how_many) {
        Ok(table) => table,
        Err(why) => return Verdict::from(why),
    };
    let catalogue = match Catalogue::check(&table, text, starts, places) {
        Ok(catalogue) => catalogue,
        Err(why) => return Verdict::from(why),
    };
    let questions = match Names::check(&table, asks, ask_starts) {
        Ok(questions) => questions,
        Err(why) => return Verdict::of(8, why.place()),
    };
    let count = questions.count();
    if count != parts.len() || count > u32::MAX as usize {
        return Verdict::of(9, count);
    }
    answer_each(&catalogue, &questions, parts);
    Verdict::right()
}

// Each part is that of its question.
fn answer_each(catalogue: &Catalogue, questions: &Names, parts: &mut [Part])
    requires as_many { length questions.now.starts.now - 1 ≡ length parts.old }
    requires few { length parts.old < 2 ^ 32 }
    ensures { PartsSay 0 (lists_of catalogue.now) questions.now.text.now questions.now.starts.now parts.old parts.new }
{
    for number in 0..parts.len() {
        if let Some(ask) = questions.name(number as u32) {
            parts[number] = Part::from(catalogue.range(ask));
        }
    }
}
