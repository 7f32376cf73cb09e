// Why a key is not made.
ghost use Rattle.std.specs.Prelude.{◌≡◌};
ghost use Rattle.keys.specs.Refusals.{name_refusal, name_refusal_number, name_refusal_place};

use crate::letters::count_in;
use table::{Failure, Table};

// Why a name is turned away.
#[derive(Clone, Copy, PartialEq, Eq, Debug)]
pub enum NameRefusal {
    // It has more than 1,000 letters: how many.
    TooLong(usize),
    // It is not in UTF-8, or has a letter above 65,535: the first byte at which no letter can be read.
    NotUtf8(usize),
}

impl NameRefusal {
    // What is wrong with a name, which is in UTF-8, or each byte of which is a letter.
    pub fn of(utf8: bool, name: &[u8]) -> Option<NameRefusal>
        ensures { result ≡ name_refusal utf8 name.now }
    {
        match count_in(utf8, name) {
            Err(place) => Some(NameRefusal::NotUtf8(place)),
            Ok(letters) if letters > Table::MAX_NAME => Some(NameRefusal::TooLong(letters)),
            Ok(_) => None,
        }
    }

    // The number that is reported. Messages and `make_key` say it as a number.
    pub fn number(self) -> u64
        ensures { result ≡ name_refusal_number self }
    {
        match self {
            NameRefusal::TooLong(_) => 2,
            NameRefusal::NotUtf8(_) => 5,
        }
    }

    // The place that is reported: how many letters the name has, or the byte at which none can be read.
    pub fn place(self) -> usize
        ensures { result ≡ name_refusal_place self }
    {
        match self {
            NameRefusal::TooLong(letters) => letters,
            NameRefusal::NotUtf8(byte) => byte,
        }
    }
}

// Why a key was not made.
pub type KeyError = Failure<NameRefusal>;
