// Why a line was turned away.
ghost use Rattle.std.specs.Prelude.{◌≡◌, Some};
ghost use Rattle.texts.specs.Written.{bytes_sentence, fault_number, fault_place, fault_text, name_sentence, question_sentence, refusal_sentence, sentence_of};

use keys::NameRefusal;
use std::fmt;
use table::Refusal;

#[derive(Clone, Copy, PartialEq, Eq, Debug)]
pub enum Fault {
    // The table would be none with it.
    Table(Refusal),
    // Its name is turned away.
    Name(NameRefusal),
    // The name that it asks for the key of, or what it asks with, is turned away.
    Question(NameRefusal),
    // It can't be read: its line, counted from 0.
    Text(usize),
    // It is not in UTF-8, or has a letter above 65,535: the first byte of the line at which no letter can be read.
    Bytes(usize),
}

impl Fault {
    // The number that is reported: 1 a table, 2 a name, 3 a text, 4 a letter, 5 bytes, 6 how many letters a run has, 7 how
    // many triples a letter has.
    pub fn number(self) -> u64
        ensures { result ≡ fault_number self }
    {
        match self {
            Fault::Table(why) => why.number(),
            Fault::Name(why) | Fault::Question(why) => why.number(),
            Fault::Text(_) => 3,
            Fault::Bytes(_) => 5,
        }
    }

    // The place that is reported.
    pub fn place(self) -> usize
        ensures { result ≡ fault_place self }
    {
        match self {
            Fault::Table(why) => why.place(),
            Fault::Name(why) | Fault::Question(why) => why.place(),
            Fault::Text(line) => line,
            Fault::Bytes(byte) => byte,
        }
    }

    // What is wrong, in a sentence.
    pub fn sentence(self) -> &'static str
        ensures { result.now ≡ sentence_of self }
    {
        match self {
            Fault::Table(why) => refusal_sentence(why),
            Fault::Name(why) => name_sentence(why),
            Fault::Question(why) => question_sentence(why),
            Fault::Text(_) =>
                "a line that begins so is 'letter X a b c', with six or nine weights where X weighs as two or three, or 'pair X Y a b c', one space between, letters as themselves or as U+ and four to six hexadecimal digits, weights up to 65535; a name that begins so needs 'name ' in front",
            Fault::Bytes(_) => bytes_sentence(),
        }
    }
}

fn refusal_sentence(why: Refusal) -> &'static str
    ensures { result.now ≡ refusal_sentence why }
{
    match why {
        Refusal::Letters => "a table has three weights for each of 256 letters",
        Refusal::Shape => "each pair is five numbers, two letters and three weights",
        Refusal::TooMany => "a table has at most 200 pairs and longer runs",
        Refusal::Foreign(_) =>
            "the letters of a pair or a longer run are at most U+FFFF, and U+00FF where each byte is one",
        Refusal::Twice(_) => "these letters are one together already",
        Refusal::TooManyLetters => "a table has at most 2000 letters that weigh something",
        Refusal::NoLetter(_) => "letters are U+0000 to U+FFFF, without U+D800 to U+DFFF",
        Refusal::LetterTwice(_) => "this letter weighs something already",
        Refusal::RunLength(_) => "a run has two to four letters",
        Refusal::TooManyTriples(_) => "a letter weighs as three at the most",
    }
}

fn name_sentence(why: NameRefusal) -> &'static str
    ensures { result.now ≡ name_sentence why }
{
    match why {
        NameRefusal::TooLong(_) => "a name has at most 1000 letters",
        NameRefusal::NotUtf8(_) => bytes_sentence(),
    }
}

fn question_sentence(why: NameRefusal) -> &'static str
    ensures { result.now ≡ question_sentence why }
{
    match why {
        NameRefusal::TooLong(_) => "a name that is asked about has at most 1000 letters",
        NameRefusal::NotUtf8(_) => bytes_sentence(),
    }
}

fn bytes_sentence() -> &'static str
    ensures { result.now ≡ bytes_sentence }
{
    "names are bytes in UTF-8, with letters up to U+FFFF"
}

impl fmt::Display for Fault {
    ghost output = { λ x. Some (fault_text x) };

    fn fmt<W: fmt::Write>(&self, f: &mut fmt::Formatter<W>) -> fmt::Result {
        let number = self.number();
        let place = self.place();
        let sentence = self.sentence();
        write!(f, "turned away with {number} at {place}: {sentence}")
    }
}
