// Why numbers are turned away, and why something was not done.
ghost use Rattle.std.specs.Prelude.{◌≡◌};
ghost use Rattle.table.specs.Refusals.{refusal_number, refusal_place};
ghost use Rattle.table.specs.declared.fault.Failure.TheVariants.{NoMemory, Refused};

use crate::view::Table;
use std::alloc::AllocError;

#[derive(Clone, Copy, PartialEq, Eq, Debug)]
pub enum Refusal {
    // The letters aren't three weights for each of 256.
    Letters,
    // The pairs aren't five numbers each.
    Shape,
    // There are more than 200 runs, pairs and longer ones.
    TooMany,
    // The first run with a letter above 255, or of a table of names in UTF-8 above 65,535: its place.
    Foreign(usize),
    // The first run that equals an earlier one: its place.
    Twice(usize),
    // There are more than 2,000 letters that weigh something.
    TooManyLetters,
    // What weighs something is no letter of the table: the place of the entry.
    NoLetter(usize),
    // A letter that weighs something already: the place of the entry.
    LetterTwice(usize),
    // The first run that has fewer letters than two or more than four: its place.
    RunLength(usize),
    // A letter that weighs as more than three: the place of the entry.
    TooManyTriples(usize),
}

impl Refusal {
    // The number that is reported: 4 for a fault of letters, 6 for a run that is too short or too long, 7 for a letter that weighs as
    // more than three, and 1 for every other. Messages and `make_key` say it as a number.
    pub fn number(self) -> u64
        ensures { result ≡ refusal_number self }
    {
        match self {
            Refusal::Letters
            | Refusal::Shape
            | Refusal::TooMany
            | Refusal::Foreign(_)
            | Refusal::Twice(_) => 1,
            Refusal::TooManyLetters | Refusal::NoLetter(_) | Refusal::LetterTwice(_) => 4,
            Refusal::RunLength(_) => 6,
            Refusal::TooManyTriples(_) => 7,
        }
    }

    // The run or the entry at fault, counted from 0; of too many letters how many there may be; else 0, and not `None`,
    // since what is reported always has a place.
    pub fn place(self) -> usize
        ensures { result ≡ refusal_place self }
    {
        match self {
            Refusal::Letters | Refusal::Shape | Refusal::TooMany => 0,
            Refusal::TooManyLetters => Table::MAX_LETTERS,
            Refusal::Foreign(k)
            | Refusal::Twice(k)
            | Refusal::NoLetter(k)
            | Refusal::LetterTwice(k)
            | Refusal::RunLength(k)
            | Refusal::TooManyTriples(k) => k,
        }
    }
}

// Why something was not done: it was turned away, or there was no memory for it.
#[derive(Clone, Copy, PartialEq, Eq, Debug)]
pub enum Failure<R> {
    Refused(R),
    NoMemory,
}

// Why a letter or a run was not added; nothing has changed then.
pub type AddError = Failure<Refusal>;

impl<R> From<AllocError> for Failure<R> {
    ghost from_gives = { λ _ r. r ≡ NoMemory };

    fn from(_: AllocError) -> Failure<R> {
        Failure::NoMemory
    }
}

impl From<Refusal> for AddError {
    ghost from_gives = { λ why r. r ≡ Refused why };

    fn from(why: Refusal) -> AddError {
        AddError::Refused(why)
    }
}
