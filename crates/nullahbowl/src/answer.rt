// What answers a line.
ghost use Rattle.std.specs.Prelude.{◌≡◌};
ghost use Rattle.nullahbowl.specs.declared.answer.TakeError.TheVariants.{NoMemory};
ghost use Rattle.nullahbowl.specs.Failing.{key_fails, name_fails, pair_fails};

use catalogue::{NotTaken, PushError};
use keys::KeyError;
use std::alloc::AllocError;
use table::{AddError, Failure};
use texts::Fault;

#[derive(Drop)]
pub enum Answer<'l> {
    // It asks for nothing.
    Nothing,
    // The sort key that it asks for.
    Key(Vec<u32>),
    // It asks for the names that begin so; all names are in order now.
    Find(&'l [u8]),
}

// Why a line was not taken.
#[derive(Clone, Copy, PartialEq, Eq, Debug)]
pub enum TakeError {
    // It is turned away.
    Refused(Fault),
    // With its name there would be more names, or more bytes of all names together, than 32 bits can count.
    Full,
    NoMemory,
}

impl From<AllocError> for TakeError {
    ghost from_gives = { λ failure e. e ≡ NoMemory };

    fn from(_: AllocError) -> TakeError {
        TakeError::NoMemory
    }
}

impl From<AddError> for TakeError {
    ghost from_gives = { λ failure e. e ≡ pair_fails failure };

    fn from(failure: AddError) -> TakeError {
        match failure {
            Failure::Refused(why) => TakeError::Refused(Fault::Table(why)),
            Failure::NoMemory => TakeError::NoMemory,
        }
    }
}

impl From<KeyError> for TakeError {
    ghost from_gives = { λ failure e. e ≡ key_fails failure };

    fn from(failure: KeyError) -> TakeError {
        match failure {
            Failure::Refused(why) => TakeError::Refused(Fault::Question(why)),
            Failure::NoMemory => TakeError::NoMemory,
        }
    }
}

impl From<PushError> for TakeError {
    ghost from_gives = { λ failure e. e ≡ name_fails failure };

    fn from(failure: PushError) -> TakeError {
        match failure {
            Failure::Refused(NotTaken::Name(why)) => TakeError::Refused(Fault::Name(why)),
            Failure::Refused(NotTaken::Full) => TakeError::Full,
            Failure::NoMemory => TakeError::NoMemory,
        }
    }
}
