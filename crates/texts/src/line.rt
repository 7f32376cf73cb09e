// What a line says.
ghost use Rattle.std.specs.Prelude.{◌≡◌, List, [], ◌∷◌, ◌++◌, Some};
ghost use Rattle.std.specs.Option.{option_map};
ghost use Rattle.pieces.specs.declared.piece.Weights.{Weights};
ghost use Rattle.texts.specs.Lines.{as_triples, command_of, in_threes, letter_entry, meaning, meaning_of, pair_entry, run_entry, saying, three_weights, weights_from, word_of};
ghost use Rattle.texts.specs.Numerals.{number_of};
ghost use Rattle.texts.specs.Parts.{words};

use crate::numeral::{letter_number, number};
use crate::part::{Cut, Parts, first_part};
use table::{Expanded, LetterEntry, Long, LongRun, Pair, Triples, Weights};
use utf8::count_letters;

// What a line of a table enters.
#[derive(Clone, Copy, PartialEq, Eq, Debug)]
pub enum Entry {
    // `letter X a b c`, with six or nine weights where it weighs as two or three: what a letter weighs.
    Letter(LetterEntry),
    // `pair X Y a b c`, or `run X Y a b c`: two letters that are one together.
    Pair(Pair),
    // `run X Y Z a b c`, or `run X Y Z W a b c`: three or four letters that are.
    Long(Long),
}

#[derive(Clone, Copy, PartialEq, Eq, Debug)]
pub enum Command<'a> {
    // One entry more for the table.
    Enter(Entry),
    // `find X`: asks for the names that begin so.
    Find(&'a [u8]),
    // `key X`: asks for the sort key of a name.
    Key(&'a [u8]),
    // `name X`, and every line that begins with no such word, or with `run` and is no run: one name more.
    Name(&'a [u8]),
}

#[derive(Clone, Copy, PartialEq, Eq, Debug)]
pub enum Line<'a> {
    // Nothing stands in it.
    Blank,
    Says(Command<'a>),
    // It begins with `letter` or `pair`, and has not the form of its entry.
    Unreadable,
    // It is not in UTF-8, or has a letter above 65,535: the first byte at which no letter can be read.
    NotUtf8(usize),
}

impl<'a> Line<'a> {
    // What a line says, without its end.
    #[tactic(auto, using(crate::proofs::Saying::blank_line, crate::proofs::Saying::damaged_line))]
    pub fn read(line: &'a [u8]) -> Line<'a>
        ensures { meaning result ≡ meaning_of line.now }
    {
        if let Err(byte) = count_letters(line) {
            return Line::NotUtf8(byte);
        }
        if line.is_empty() {
            return Line::Blank;
        }
        match Command::read(line) {
            Some(command) => Line::Says(command),
            None => Line::Unreadable,
        }
    }
}

impl<'a> Command<'a> {
    // What a line says that is not empty, by its first word; nothing where it can't be read.
    fn read(line: &'a [u8]) -> Option<Command<'a>>
        ensures { option_map saying result ≡ command_of line.now }
    {
        let Cut { part: word, rest } = first_part(line, b' ');
        let text = rest.unwrap_or(b"");
        match Word::of(word) {
            Some(Word::Letter) => Some(Command::Enter(read_letter(text)?)),
            Some(Word::Pair) => Some(Command::Enter(read_pair(text)?)),
            Some(Word::Run) => Some(match read_run(text) {
                Some(run) => Command::Enter(run),
                None => Command::Name(line),
            }),
            Some(Word::Find) => Some(Command::Find(text)),
            Some(Word::Key) => Some(Command::Key(text)),
            Some(Word::Name) => Some(Command::Name(text)),
            None => Some(Command::Name(line)),
        }
    }
}

// A word at the front of a line that says what the line is.
#[derive(Clone, Copy)]
enum Word {
    Letter,
    Pair,
    Run,
    Find,
    Key,
    Name,
}

impl Word {
    fn of(word: &[u8]) -> Option<Word>
        ensures { result ≡ word_of word.now }
    {
        match word {
            b"letter" => Some(Word::Letter),
            b"pair" => Some(Word::Pair),
            b"run" => Some(Word::Run),
            b"find" => Some(Word::Find),
            b"key" => Some(Word::Key),
            b"name" => Some(Word::Name),
            _ => None,
        }
    }
}

// A letter and what it weighs.
fn read_letter(text: &[u8]) -> Option<Entry>
    ensures { result ≡ letter_entry (words text.now) }
{
    let mut words = Parts::new(text, b' ');
    let letter = letter_number(words.next()?)?;
    let weights = read_triples(words)?;
    Some(Entry::Letter(LetterEntry { letter, weights }))
}

// Two letters and what they weigh together.
fn read_pair(text: &[u8]) -> Option<Entry>
    ensures { result ≡ pair_entry (words text.now) }
{
    let mut words = Parts::new(text, b' ');
    let first = letter_number(words.next()?)?;
    let second = letter_number(words.next()?)?;
    let weights = read_weights(words)?;
    Some(Entry::Pair(Pair {
        first,
        second,
        weights,
    }))
}

// Two to four letters and what they weigh together.
fn read_run(text: &[u8]) -> Option<Entry>
    ensures { result ≡ run_entry (words text.now) }
{
    let mut words = Parts::new(text, b' ');
    let first = words.next()?;
    let second = words.next()?;
    let third = words.next()?;
    let fourth = words.next()?;
    let fifth = words.next()?;
    match (words.next(), words.next(), words.next()) {
        (None, _, _) => {
            let first = letter_number(first)?;
            let second = letter_number(second)?;
            let weights = weights_of(third, fourth, fifth)?;
            Some(Entry::Pair(Pair {
                first,
                second,
                weights,
            }))
        }
        (Some(sixth), None, _) => {
            let run = LongRun {
                first: letter_number(first)?,
                second: letter_number(second)?,
                third: letter_number(third)?,
                fourth: None,
            };
            let weights = weights_of(fourth, fifth, sixth)?;
            Some(Entry::Long(Long { run, weights }))
        }
        (Some(sixth), Some(seventh), None) => {
            let run = LongRun {
                first: letter_number(first)?,
                second: letter_number(second)?,
                third: letter_number(third)?,
                fourth: Some(letter_number(fourth)?),
            };
            let weights = weights_of(fifth, sixth, seventh)?;
            Some(Entry::Long(Long { run, weights }))
        }
        _ => None,
    }
}

// One triple of weights or more, and nothing behind.
fn read_triples(mut words: Parts) -> Option<Triples>
    ensures { result ≡ as_triples (in_threes words.entry) }
{
    let mut triples = None;
    while let Some(primary) = words.next() {
        let secondary = words.next()?;
        let tertiary = words.next()?;
        let weights = weights_of(primary, secondary, tertiary)?;
        triples = Some(one_more(triples, weights));
    }
    triples
}

// A triple behind others.
fn one_more(triples: Option<Triples>, weights: Weights) -> Triples
    ensures { (ws : List Weights) → triples ≡ as_triples (Some ws) → Some result ≡ as_triples (Some (ws ++ weights ∷ [])) }
{
    match triples {
        None => Triples::One(weights),
        Some(Triples::One(first)) => Triples::Several(Expanded {
            first,
            second: weights,
            third: None,
        }),
        Some(Triples::Several(two)) if two.third.is_none() => Triples::Several(Expanded {
            third: Some(weights),
            ..two
        }),
        Some(_) => Triples::Excess,
    }
}

// Three numbers and nothing behind.
fn read_weights(mut words: Parts) -> Option<Weights>
    ensures { result ≡ three_weights words.entry }
{
    let primary = words.next()?;
    let secondary = words.next()?;
    let tertiary = words.next()?;
    if words.next().is_some() {
        return None;
    }
    weights_of(primary, secondary, tertiary)
}

// Three words as weights.
fn weights_of(primary: &[u8], secondary: &[u8], tertiary: &[u8]) -> Option<Weights>
    ensures { result ≡ weights_from (number_of primary.now) (number_of secondary.now) (number_of tertiary.now) }
{
    Some(Weights {
        primary: number(primary)?,
        secondary: number(secondary)?,
        tertiary: number(tertiary)?,
    })
}
