// Names and tables that grow.
use crate::alphabet::Alphabet;
use crate::dice::Dice;
use crate::drawn::{self, Drawn, Scale};
use crate::joined::Joined;
use crate::lists::{Lists, in_order};
use crate::plain::Plain;
use crate::reading;
use crate::report::{Kind, Report};
use crate::spread::Entry;
use crate::trial::finding::{Listed, ask};
use crate::trial::{Both, made};
use catalogue::{CatalogueBuf, NotTaken, PushError};
use keys::NameRefusal;
use std::alloc::{AllocError, Global};
use table::{AddError, Refusal, Table};

// A book, and what it should hold.
#[derive(Drop)]
struct Grown {
    book: CatalogueBuf,
    plain: Plain,
    names: Vec<Vec<u8>>,
    // The letters that its names are mostly made of.
    alphabet: Alphabet,
    in_order: bool,
}

pub(crate) fn run(
    heap: Global,
    dice: &mut Dice,
    both: &Both,
    report: &mut Report,
) -> Result<(), AllocError> {
    let mut grown = Grown {
        book: CatalogueBuf::new(both.table.to_buf(heap)?, heap)?,
        plain: both.plain.copy(heap)?,
        names: Vec::new(heap),
        alphabet: Alphabet {
            utf8: both.alphabet.utf8,
            letters: both.alphabet.letters.to_vec(heap)?,
            longs: both.alphabet.longs.to_vec(heap)?,
        },
        in_order: false,
    };
    for _ in 0..30 {
        grown.step(heap, dice, both.plain.utf8, report)?;
        let told = grown.book.catalogue().is_some();
        if told != grown.in_order {
            report.differ(
                &grown.plain,
                format!(in heap; "a book is in order: {told}")?,
            )?;
        }
    }
    Ok(())
}

impl Grown {
    // A name, a letter or a run more, another table, now and then one that reads names otherwise, or all names put in order and asked for.
    fn step(
        &mut self,
        heap: Global,
        dice: &mut Dice,
        may_turn: bool,
        report: &mut Report,
    ) -> Result<(), AllocError> {
        match dice.below(16) {
            0..8 => self.push(heap, dice, report),
            8 | 9 => self.add_run(heap, dice, report),
            10 => self.add_letter(heap, dice, report),
            11 if dice.once_in(3) => self.set_table(heap, dice, may_turn, report),
            _ => {
                self.book.put_in_order(heap)?;
                self.in_order = true;
                self.look(heap, dice, report)
            }
        }
    }

    // One name more, now and then one that is too long or damaged.
    fn push(
        &mut self,
        heap: Global,
        dice: &mut Dice,
        report: &mut Report,
    ) -> Result<(), AllocError> {
        let long = dice.once_in(12);
        let name = if long {
            drawn::letters_drawn(heap, dice, &self.alphabet, 1001)?
        } else {
            drawn::name(heap, dice, &self.alphabet)?
        };
        let name = drawn::damaged(dice, &self.alphabet, name, 12)?;
        let refusal = reading::refusal(self.plain.utf8, &name);
        let wanted = match refusal {
            Some(why) => Err(PushError::Refused(NotTaken::Name(why))),
            None => Ok(()),
        };
        let told = self.book.push(&name);
        if told != wanted {
            report.differ(
                &self.plain,
                format!(in heap; "push {name:?}: {told:?}, plainly {wanted:?}")?,
            )?;
        }
        report.count(match refusal {
            Some(NameRefusal::TooLong(_)) => Kind::PushedTooLong,
            Some(NameRefusal::NotUtf8(_)) => Kind::PushedUnread,
            None => Kind::Pushed,
        });
        if refusal.is_none() {
            self.names.push(name)?;
            self.in_order = false;
        }
        Ok(())
    }

    // One run more, now and then one that a table can't have.
    fn add_run(
        &mut self,
        heap: Global,
        dice: &mut Dice,
        report: &mut Report,
    ) -> Result<(), AllocError> {
        let mut letters = [0; 4];
        for letter in letters.iter_mut() {
            *letter = self.alphabet.one(dice);
        }
        match dice.below(12) {
            0 => letters[dice.below(4)] = if self.plain.utf8 { 65536 } else { 256 },
            1 => letters[dice.below(4)] = 65535,
            _ => {}
        }
        let many = 2 + dice.below(3);
        let weights = Scale::new(dice).weights(dice);
        let run = Joined::new(letters.get(..many).unwrap_or(&[]), weights);
        let refusal = self.plain.run_refusal(run.letters());
        let wanted = match refusal {
            Some(why) => Err(AddError::Refused(why)),
            None => Ok(()),
        };
        let told = match (run.pair(), run.long()) {
            (Some(pair), _) => self.book.add_pair(pair),
            (None, Some(long)) => self.book.add_long(long),
            (None, None) => wanted,
        };
        if told != wanted {
            let what = format!(in heap; "a run more, {run}: {told:?}, plainly {wanted:?}")?;
            report.differ(&self.plain, what)?;
        }
        report.count(match refusal {
            Some(Refusal::TooMany) => Kind::RunsTooMany,
            Some(Refusal::Foreign(_)) => Kind::RunsForeign,
            Some(_) => Kind::RunsTwice,
            None => Kind::RunsAdded,
        });
        if refusal.is_none() {
            self.plain.push_run(run)?;
            if run.long().is_some() {
                self.alphabet.longs.push(run)?;
            }
            self.in_order = false;
        }
        Ok(())
    }

    // One letter more, now and then one that a table can't have.
    fn add_letter(
        &mut self,
        heap: Global,
        dice: &mut Dice,
        report: &mut Report,
    ) -> Result<(), AllocError> {
        let letter = match dice.below(8) {
            0 if self.plain.utf8 => 0xd800 + dice.below(0x3000) as u32,
            0 => 256,
            1..4 => self.alphabet.any(dice),
            _ => self.alphabet.one(dice),
        };
        let spread = Scale::new(dice).any(dice, &self.plain, &self.alphabet);
        let entry = Entry { letter, spread };
        let many = self.plain.letter_count();
        let refusal = self.plain.letter_refusal(many, letter, spread);
        let wanted = match refusal {
            Some(why) => Err(AddError::Refused(why)),
            None => Ok(()),
        };
        let told = self.book.add_letter(entry.lent());
        if told != wanted {
            let what = format!(in heap; "add_letter {entry}: {told:?}, plainly {wanted:?}")?;
            report.differ(&self.plain, what)?;
        }
        report.count(match refusal {
            Some(Refusal::NoLetter(_)) => Kind::LettersForeign,
            Some(Refusal::TooManyLetters) => Kind::LettersTooMany,
            Some(Refusal::TooManyTriples(_)) => Kind::LettersExcess,
            Some(_) => Kind::LettersTwice,
            None => Kind::LettersAdded,
        });
        if refusal.is_none() {
            if spread.expanded().is_some() {
                report.count(Kind::LettersSpread);
            }
            if spread.counts() {
                self.plain.set_letter(letter, spread)?;
            }
            self.in_order = false;
        }
        Ok(())
    }

    // Another table; where its names are not names under it, the book stays as it is.
    fn set_table(
        &mut self,
        heap: Global,
        dice: &mut Dice,
        may_turn: bool,
        report: &mut Report,
    ) -> Result<(), AllocError> {
        let utf8 = may_turn && dice.once_in(2);
        let Drawn { plain, alphabet } = if utf8 {
            Drawn::in_utf8(heap, dice)?
        } else {
            Drawn::new(heap, dice)?
        };
        let wanted = Lists::new(heap, &self.names)?.names_fault(utf8);
        match made(heap, &plain) {
            Ok(own) => {
                let told = self.book.set_table(own).err();
                if told != wanted {
                    let what = format!(in heap; "set_table: {told:?}, plainly {wanted:?}")?;
                    report.differ(&self.plain, what)?;
                }
            }
            Err(why) => report.differ(
                &plain,
                format!(in heap; "a table is turned away: {why:?}")?,
            )?,
        }
        if wanted.is_some() {
            report.count(Kind::TablesNotSet);
            return Ok(());
        }
        report.count(if utf8 == self.plain.utf8 {
            Kind::TablesSet
        } else {
            Kind::TablesTurned
        });
        if may_turn {
            self.alphabet = alphabet;
        }
        self.plain = plain;
        self.in_order = false;
        Ok(())
    }

    // All names are in the catalogue, in order.
    fn look(&self, heap: Global, dice: &mut Dice, report: &mut Report) -> Result<(), AllocError> {
        let mut lists = Lists::new(heap, &self.names)?;
        let names = lists.names(heap, &self.plain)?;
        lists.places = in_order(heap, &names)?;
        let both = Both {
            plain: &self.plain,
            table: self.book.table(),
            alphabet: &self.alphabet,
        };
        report.count(Kind::Grown);
        match self.book.catalogue() {
            Some(catalogue) => {
                let told = catalogue.places();
                if told != lists.places.as_slice() {
                    report.differ(
                        &self.plain,
                        format!(in heap; "a book: {told:?}, plainly {lists}")?,
                    )?;
                }
                let listed = Listed {
                    both: &both,
                    lists: &lists,
                    names: &names,
                };
                for _ in 0..3 {
                    let question = drawn::question(heap, dice, &self.alphabet, &self.names)?;
                    ask(heap, &listed, &catalogue, &question, report)?;
                }
                Ok(())
            }
            None => report.differ(&self.plain, format!(in heap; "a book put in order is not")?),
        }
    }
}
