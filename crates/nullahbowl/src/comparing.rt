// Whether one table may take the place of another.
ghost use Rattle.std.specs.Prelude.{◌≡◌, IfOk, is_ok};
ghost use Rattle.nullahbowl.specs.Comparing.{ChangesOf, comparison_text};
ghost use Rattle.std.specs.Io.KnownBytes.{Appends};

use crate::session::Session;
use order::{Change, keeps_order};
use std::io;
use std::io::Write;
use texts::Told;

// A table that was read, and the file that it was read from.
#[derive(Clone, Copy)]
pub struct Source<'a> {
    pub name: &'a str,
    pub session: &'a Session,
}

// Writes whether the newer table keeps what the older one says of the letters that its lines name, or what it changes.
// Answers whether it keeps it.
pub fn write_comparison<W: Write>(out: &mut W, older: Source, newer: Source) -> io::Result<bool>
    ensures { IfOk result (λ keeps. (r : _) × ChangesOf older.entry.session.now newer.entry.session.now r × (keeps ≡ is_ok r)
        × Appends (W.Write.contents out.old) (W.Write.contents out.new) (comparison_text older.entry.name.now newer.entry.name.now r)) }
{
    let old = older.name;
    let new = newer.name;
    match changes(older.session, newer.session) {
        Ok(()) => {
            writeln!(out, "{new} keeps the order of {old}")?;
            Ok(true)
        }
        Err(change) => {
            let told = Told(change);
            writeln!(out, "{new} may change the order of {old}: {told}")?;
            Ok(false)
        }
    }
}

// What the newer table changes of what the older one says of these letters, if anything.
fn changes(older: &Session, newer: &Session) -> Result<(), Change>
    ensures { ChangesOf older.now newer.now result }
{
    keeps_order(&older.table(), &newer.table(), older.letters())
}
