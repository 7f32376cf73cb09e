// Why lists are no catalogue, why a list was not made, and why a name was not taken.
ghost use Rattle.std.specs.Prelude.{◌≡◌};
ghost use Rattle.catalogue.specs.Lists.{fault_place};

use keys::NameRefusal;
use table::Failure;

#[derive(Clone, Copy, PartialEq, Eq, Debug)]
pub enum ListFault {
    // There is no start, not even the end of the text.
    NoStart,
    // A start is before the one in front of it: its place.
    StartFalls(usize),
    // The last start is not the end of the text: its place.
    EndsElsewhere(usize),
    // A name is turned away: its number, and why.
    NameRefused(usize, NameRefusal),
    // A number is no name's: its place in the list.
    NoSuchName(usize),
    // A name is before the one in front of it: its place in the list.
    OutOfOrder(usize),
}

impl ListFault {
    // Where it is, counted from 0; of a name that is turned away its number.
    pub fn place(self) -> usize
        ensures { result ≡ fault_place self }
    {
        match self {
            ListFault::NoStart => 0,
            ListFault::StartFalls(k)
            | ListFault::EndsElsewhere(k)
            | ListFault::NameRefused(k, _)
            | ListFault::NoSuchName(k)
            | ListFault::OutOfOrder(k) => k,
        }
    }
}

// There are more names than numbers of 32 bits.
#[derive(Clone, Copy, PartialEq, Eq, Debug)]
pub struct TooMany {
    // How many names.
    pub names: usize,
}

// Why names were not put in order.
pub type OrderError = Failure<TooMany>;

// Why a name is not taken into a catalogue.
#[derive(Clone, Copy, PartialEq, Eq, Debug)]
pub enum NotTaken {
    // It is turned away.
    Name(NameRefusal),
    // With it there would be more names, or more letters of all names together, than 32 bits can count.
    Full,
}

pub type PushError = Failure<NotTaken>;
