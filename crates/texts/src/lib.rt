// Lines of text read into what they say, and what is said written.
//
// A text is cut into lines and a line into words (part); words are letters and numbers (numeral); a line says a `Command`, says
// nothing, or cannot be read, as one that is not in UTF-8 (line). An `Entry` for a table and every other command are written as
// the lines that say them (written, to_line), keys as their numbers, what a newer table changes in a sentence (written), and what is turned away as a
// message with its number and place (fault). `text_laws` carries what is promised of texts and lines: parts joined are the
// text, a line says just what it has the form of, and what is written is read again (laws).
#![tactic(auto)]

mod fault;
mod laws;
mod line;
mod numeral;
mod part;
mod to_line;
mod written;

pub use fault::Fault;
pub use laws::text_laws;
pub use line::{Command, Entry, Line};
pub use numeral::whole_number;
pub use part::{Cut, Parts, first_part, without_return};
pub use written::{Letter, Numbers, Told};
