// Letters, entries, the numbers of keys and what a newer table changes, as they are written.
ghost use Rattle.std.specs.Prelude.{◌≡◌, Some};
ghost use Rattle.texts.specs.Written.{change_text, entry_text, letter_text, level_number, numbers_text, piece_text, triples_text, weights_text};

use crate::line::Entry;
use keys::Level;
use order::{Change, Piece};
use std::fmt;
use table::{Triples, Weights};

// A letter, as itself where it can be seen and else as `U+00FC`.
#[derive(Clone, Copy)]
pub struct Letter(pub u32);

impl fmt::Display for Letter {
    ghost output = { λ x. Some (letter_text x.0) };

    fn fmt<W: fmt::Write>(&self, f: &mut fmt::Formatter<W>) -> fmt::Result {
        let letter = self.0;
        match u8::try_from(letter) {
            Ok(mark) if mark.is_ascii_graphic() => write!(f, "{}", char::from(mark)),
            _ => write!(f, "U+{letter:04X}"),
        }
    }
}

// As the line that says it.
impl fmt::Display for Entry {
    ghost output = { λ x. Some (entry_text x) };

    fn fmt<W: fmt::Write>(&self, f: &mut fmt::Formatter<W>) -> fmt::Result {
        match *self {
            Entry::Letter(entry) => {
                let letter = Letter(entry.letter);
                let triples = LetterLevels(entry.weights);
                write!(f, "letter {letter}{triples}")
            }
            Entry::Pair(pair) => {
                let first = Letter(pair.first);
                let second = Letter(pair.second);
                let weights = Levels(pair.weights);
                write!(f, "pair {first} {second} {weights}")
            }
            Entry::Long(long) => {
                let letters = Letters(Piece::from(long.run));
                let weights = Levels(long.weights);
                write!(f, "run {letters} {weights}")
            }
        }
    }
}

// The three weights of a letter or a run, one space between.
#[derive(Clone, Copy)]
struct Levels(Weights);

impl fmt::Display for Levels {
    ghost output = { λ x. Some (weights_text x.0) };

    fn fmt<W: fmt::Write>(&self, f: &mut fmt::Formatter<W>) -> fmt::Result {
        let Weights {
            primary,
            secondary,
            tertiary,
        } = self.0;
        write!(f, "{primary} {secondary} {tertiary}")
    }
}

// What stands behind a letter: a space and its triples; nothing where they are more than three, which no letter of a table has.
#[derive(Clone, Copy)]
struct LetterLevels(Triples);

impl fmt::Display for LetterLevels {
    ghost output = { λ x. Some (triples_text x.0) };

    fn fmt<W: fmt::Write>(&self, f: &mut fmt::Formatter<W>) -> fmt::Result {
        match self.0 {
            Triples::One(weights) => {
                let weights = Levels(weights);
                write!(f, " {weights}")
            }
            Triples::Several(expanded) => {
                let first = Levels(expanded.first);
                let second = Levels(expanded.second);
                match expanded.third {
                    None => write!(f, " {first} {second}"),
                    Some(third) => {
                        let third = Levels(third);
                        write!(f, " {first} {second} {third}")
                    }
                }
            }
            Triples::Excess => Ok(()),
        }
    }
}

// The numbers of a sort key, one space between.
#[derive(Clone, Copy)]
pub struct Numbers<'a>(pub &'a [u32]);

impl fmt::Display for Numbers<'_> {
    ghost output = { λ x. Some (numbers_text x.0.now) };

    fn fmt<W: fmt::Write>(&self, f: &mut fmt::Formatter<W>) -> fmt::Result {
        if let Some((first, others)) = self.0.split_first() {
            write!(f, "{first}")?;
            for number in others {
                write!(f, " {number}")?;
            }
        }
        Ok(())
    }
}

// What a newer table changes, in a sentence.
#[derive(Clone, Copy)]
pub struct Told(pub Change);

impl fmt::Display for Told {
    ghost output = { λ x. Some (change_text x.0) };

    fn fmt<W: fmt::Write>(&self, f: &mut fmt::Formatter<W>) -> fmt::Result {
        match self.0 {
            Change::Utf8 => write!(f, "names are in UTF-8 under only one of the tables"),
            Change::Joins(piece) => {
                let piece = Letters(piece);
                write!(f, "{piece} are one together in only one of the tables")
            }
            Change::Expands(piece) => {
                let piece = Letters(piece);
                write!(f, "{piece} weighs as another number of letters than before")
            }
            Change::Counts(piece, level) => {
                let piece = Letters(piece);
                let level = level_number(level);
                write!(
                    f,
                    "{piece} weighs 0 on level {level} in only one of the tables"
                )
            }
            Change::Order(one, other, level) => {
                let one = Letters(one);
                let other = Letters(other);
                let level = level_number(level);
                write!(f, "{one} and {other} stand otherwise on level {level}")
            }
        }
    }
}

// The letters of a piece, one space between.
#[derive(Clone, Copy)]
struct Letters(Piece);

impl fmt::Display for Letters {
    ghost output = { λ x. Some (piece_text x.0) };

    fn fmt<W: fmt::Write>(&self, f: &mut fmt::Formatter<W>) -> fmt::Result {
        match self.0 {
            Piece::Letter(letter) => {
                let letter = Letter(letter);
                write!(f, "{letter}")
            }
            Piece::Pair(first, second) => {
                let first = Letter(first);
                let second = Letter(second);
                write!(f, "{first} {second}")
            }
            Piece::Three(first, second, third) => {
                let first = Letter(first);
                let second = Letter(second);
                let third = Letter(third);
                write!(f, "{first} {second} {third}")
            }
            Piece::Four(first, second, third, fourth) => {
                let first = Letter(first);
                let second = Letter(second);
                let third = Letter(third);
                let fourth = Letter(fourth);
                write!(f, "{first} {second} {third} {fourth}")
            }
        }
    }
}

// Levels are counted from 1 where they are written.
fn level_number(level: Level) -> u8
    ensures { result ≡ level_number level }
{
    match level {
        Level::Primary => 1,
        Level::Secondary => 2,
        Level::Tertiary => 3,
    }
}
