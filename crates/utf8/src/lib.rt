// Letters read from bytes in UTF-8, of one, two and three bytes.
//
// Which bytes are a letter is told by their ranges (ranges). `first_letter` reads one letter (first), `count_letters` all of them
// (count), and `utf8_laws` carries what is promised of any bytes (laws).
#![tactic(auto)]

mod count;
mod first;
mod laws;
mod ranges;

pub use count::count_letters;
pub use first::first_letter;
pub use laws::utf8_laws;
pub use ranges::{follows, is_letter};
