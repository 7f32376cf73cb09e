// Answers as numbers.
ghost use Rattle.std.specs.Prelude.{◌≡◌, ◌-◌};
ghost use Rattle.capi.specs.Answers.{key_answer, list_verdict, right, table_verdict};

use catalogue::ListFault;
use keys::Done;
use std::ops::Range;
use table::Refusal;

// What became of a key.
#[repr(C)]
#[derive(Clone, Copy)]
pub struct KeyAnswer {
    // 0 it stands in the front of the room, 1 the room is too short, 2 it was turned away.
    pub what: u32,
    // How many numbers it has; how many it needs; the number of the refusal.
    pub number: u64,
}

impl From<Done> for KeyAnswer {
    ghost from_gives = { λ done r. r ≡ key_answer done };

    fn from(done: Done) -> KeyAnswer {
        let (what, number) = match done {
            Done::Keyed(numbers) => (0, numbers),
            Done::Short(numbers) => (1, numbers),
            Done::Refused(number) => (2, number),
        };
        KeyAnswer { what, number }
    }
}

// A part of a list.
#[repr(C)]
#[derive(Clone, Copy)]
pub struct Part {
    // Where it begins.
    pub place: usize,
    // How many places it has.
    pub length: usize,
}

// The part from the start of a range up to its end; of none where the end is in front of the start.
impl From<Range<usize>> for Part {
    ghost from_gives = { λ range r. (r.place ≡ range.start) × (r.length ≡ range.end - range.start) };

    fn from(range: Range<usize>) -> Part {
        Part {
            place: range.start,
            length: range.end.saturating_sub(range.start),
        }
    }
}

// What is wrong, and where.
#[repr(C)]
#[derive(Clone, Copy)]
pub struct Verdict {
    // 0 nothing, 1 the table; of lists 2 no start, 3 a start falls, 4 a name is too long, 5 the text ends elsewhere, 6 no such
    // name, 7 out of order; 8 questions or their starts, 9 there are not as many parts as questions, or too many questions.
    pub what: u32,
    // The place at fault, counted from 0; with 9 how many questions there are; else 0.
    pub place: u64,
}

impl Verdict {
    // Nothing is wrong.
    pub(crate) fn right() -> Verdict
        ensures { result ≡ right }
    {
        Verdict { what: 0, place: 0 }
    }

    // This is wrong, with a place, or how many.
    pub(crate) fn of(what: u32, place: usize) -> Verdict
        ensures { result ≡ record { what = what; place = place } }
    {
        Verdict {
            what,
            place: place as u64,
        }
    }
}

impl From<Refusal> for Verdict {
    ghost from_gives = { λ why r. r ≡ table_verdict why };

    fn from(why: Refusal) -> Verdict {
        Verdict::of(1, why.place())
    }
}

impl From<ListFault> for Verdict {
    ghost from_gives = { λ why r. r ≡ list_verdict why };

    fn from(why: ListFault) -> Verdict {
        let what = match why {
            ListFault::NoStart => 2,
            ListFault::StartFalls(_) => 3,
            ListFault::EndsElsewhere(_) => 5,
            ListFault::NameRefused(..) => 4,
            ListFault::NoSuchName(_) => 6,
            ListFault::OutOfOrder(_) => 7,
        };
        Verdict::of(what, why.place())
    }
}
