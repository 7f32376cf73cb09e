// Filling a table and lending it.
ghost use Rattle.std.specs.Prelude.{◌≡◌, [], ◌∷◌, IfOk, None, false, length, true};
ghost use Rattle.table.specs.Buffer.{Added, EntryIn, LetterIn, LongIn, PairIn, Written, buffer_expansions, buffer_letters, buffer_longs, buffer_pairs, buffer_rules, buffer_runs, excess_refusal, letter_refusal, long_refusal, pair_refusal};
ghost use Rattle.pieces.specs.declared.piece.Triples.TheVariants.{One, Several};
ghost use Rattle.table.specs.Entries.{is_letter_of};
ghost use Rattle.table.specs.Meaning.{expansions_of, longs_of, pairs_of, rules_of};
ghost use Rattle.table.specs.Refusals.{verdict};
ghost use Rattle.table.specs.Rules.{is_weighed, no_rules};
ghost use Rattle.pieces.specs.Runs.{counts, counts_some};

use crate::buffer::TableBuf;
use crate::fault::{AddError, Refusal};
use crate::layout::{numbers_of, set_weights, unknown, unknown_long, weights_at};
use crate::marks::begins_of;
use crate::others::letter_weights;
use crate::pairs::Pairs;
use crate::view::Table;
use pieces::{
    Expansion, Letter, LetterEntry, Long, Pair, Triples, Weights, find_long, find_ranked, place_for,
};
use std::alloc::{AllocError, Global};
use utf8::is_letter;

impl TableBuf {
    // A table of bytes: no letter weighs anything, and no letters are one.
    pub fn new(heap: Global) -> Result<TableBuf, AllocError>
        ensures { IfOk result (λ b. (buffer_rules b ≡ no_rules false) × (buffer_pairs b ≡ []) × (buffer_longs b ≡ []) × (buffer_letters b ≡ 0)) }
    {
        TableBuf::blank(false, heap)
    }

    // The same of names in UTF-8.
    pub fn in_utf8(heap: Global) -> Result<TableBuf, AllocError>
        ensures { IfOk result (λ b. (buffer_rules b ≡ no_rules true) × (buffer_pairs b ≡ []) × (buffer_longs b ≡ []) × (buffer_letters b ≡ 0)) }
    {
        TableBuf::blank(true, heap)
    }

    fn blank(utf8: bool, heap: Global) -> Result<TableBuf, AllocError>
        ensures { IfOk result (λ b. (buffer_rules b ≡ no_rules utf8) × (buffer_pairs b ≡ []) × (buffer_longs b ≡ []) × (buffer_letters b ≡ 0)) }
    {
        let letters = vec![in heap; 0; 3 * Table::LETTERS]?;
        Ok(TableBuf {
            letters,
            others: Vec::new(heap),
            pairs: Vec::new(heap),
            longs: Vec::new(heap),
            expansions: Vec::new(heap),
            utf8,
        })
    }

    // Whether names are bytes in UTF-8; else each byte is a letter.
    pub fn utf8(&self) -> bool
        ensures { result ≡ (buffer_rules self.now).utf8 }
    {
        self.utf8
    }

    // One letter more. An entry that weighs nothing is as if it weren't there.
    pub fn add_letter(&mut self, entry: LetterEntry) -> Result<(), AddError>
        ensures { Added (letter_refusal (buffer_rules self.old) (buffer_letters self.old) entry) (EntryIn self.old entry) self.old result self.new }
    {
        self.allows_letter(entry)?;
        if entry.weights.counts() {
            self.write_letter(entry)?;
        }
        Ok(())
    }

    // What a letter weighs that weighed nothing is written.
    pub(crate) fn write_letter(&mut self, entry: LetterEntry) -> Result<(), AllocError>
        requires counts { counts_some entry.weights ≡ true }
        requires letter { is_letter_of self.old.utf8 entry.letter ≡ true }
        requires free { is_weighed (buffer_rules self.old) entry.letter ≡ false }
        requires fits { excess_refusal 0 entry.weights ≡ None }
        ensures { Written (LetterIn self.old entry) self.old result self.new }
    {
        let letter = entry.letter;
        match entry.weights {
            Triples::One(weights) => self.write_one(Letter { letter, weights }),
            Triples::Several(weights) => self.write_expansion(Expansion { letter, weights }),
            Triples::Excess => Ok(()),
        }
    }

    // What a letter expands to that weighed nothing is written at its place among the others.
    fn write_expansion(&mut self, entry: Expansion) -> Result<(), AllocError>
        requires counts { counts_some (Several entry.weights) ≡ true }
        requires letter { is_letter_of self.old.utf8 entry.letter ≡ true }
        requires free { is_weighed (buffer_rules self.old) entry.letter ≡ false }
        ensures { Written (LetterIn self.old (record { letter = entry.letter; weights = Several entry.weights })) self.old result self.new }
    {
        let place = place_for(self.expansions.as_slice(), entry.letter as u64);
        self.expansions.insert(place, entry)?;
        Ok(())
    }

    // The weights of a letter that weighed nothing are written.
    fn write_one(&mut self, entry: Letter) -> Result<(), AllocError>
        requires counts { counts entry.weights ≡ true }
        requires letter { is_letter_of self.old.utf8 entry.letter ≡ true }
        requires free { is_weighed (buffer_rules self.old) entry.letter ≡ false }
        ensures { Written (LetterIn self.old (record { letter = entry.letter; weights = One entry.weights })) self.old result self.new }
    {
        if entry.letter < 256 {
            set_weights(&mut self.letters, 3 * entry.letter as usize, entry.weights);
            return Ok(());
        }
        let place = place_for(self.others.as_slice(), entry.letter as u64);
        self.others.insert(place, entry)?;
        Ok(())
    }

    // Whether one letter more would be taken, if there is memory; else why not.
    pub fn allows_letter(&self, entry: LetterEntry) -> Result<(), Refusal>
        ensures { result ≡ verdict (letter_refusal (buffer_rules self.now) (buffer_letters self.now) entry) }
    {
        if !entry.weights.counts() {
            return Ok(());
        }
        let many = self.letter_count();
        if many >= Table::MAX_LETTERS {
            return Err(Refusal::TooManyLetters);
        }
        if !is_letter_of(self.utf8, entry.letter) {
            return Err(Refusal::NoLetter(many));
        }
        if self.is_weighed(entry.letter) {
            return Err(Refusal::LetterTwice(many));
        }
        check_triples(entry.weights, many)
    }

    // How many letters weigh something.
    pub fn letter_count(&self) -> usize
        ensures { result ≡ buffer_letters self.now }
    {
        let mut many = 0;
        for letter in 0..Table::LETTERS {
            if weights_at(self.letters.as_slice(), 3 * letter).counts() {
                many += 1;
            }
        }
        many + self.others.as_slice().len() + self.expansions.as_slice().len()
    }

    // Whether a letter weighs something.
    fn is_weighed(&self, letter: u32) -> bool
        ensures { result ≡ is_weighed (buffer_rules self.now) letter }
    {
        self.letter(letter).counts()
            || find_ranked(self.expansions.as_slice(), letter as u64).is_some()
    }

    // What a letter weighs itself.
    #[tactic(auto, unfolding(crate::specs::Rules::weighs_in))]
    fn letter(&self, letter: u32) -> Weights
        ensures { result ≡ (buffer_rules self.now).weighs (letter ∷ []) }
    {
        letter_weights(self.letters.as_slice(), self.others.as_slice(), letter)
    }

    // One pair more, behind the others.
    pub fn add_pair(&mut self, pair: Pair) -> Result<(), AddError>
        ensures { Added (pair_refusal (buffer_rules self.old) (buffer_runs self.old) pair) (PairIn self.old pair) self.old result self.new }
    {
        self.allows(pair)?;
        self.write_pair(pair)?;
        Ok(())
    }

    // The numbers of a pair that is not refused are written.
    pub(crate) fn write_pair(&mut self, pair: Pair) -> Result<(), AllocError>
        requires { pair_refusal (buffer_rules self.old) (buffer_runs self.old) pair ≡ None }
        ensures { Written (PairIn self.old pair) self.old result self.new }
    {
        self.pairs.extend_from_slice(&numbers_of(pair))?;
        Ok(())
    }

    // Whether one pair more would be taken, if there is memory; else why not.
    pub fn allows(&self, pair: Pair) -> Result<(), Refusal>
        ensures { result ≡ verdict (pair_refusal (buffer_rules self.now) (buffer_runs self.now) pair) }
    {
        let place = self.run_count();
        if place >= Table::MAX_RUNS {
            return Err(Refusal::TooMany);
        }
        if unknown(self.utf8, pair.first, pair.second) {
            return Err(Refusal::Foreign(place));
        }
        if self.table().pair(pair.first, pair.second).is_some() {
            return Err(Refusal::Twice(place));
        }
        Ok(())
    }

    // One run of three or four letters more.
    pub fn add_long(&mut self, long: Long) -> Result<(), AddError>
        ensures { Added (long_refusal (buffer_rules self.old) (buffer_runs self.old) long) (LongIn self.old long) self.old result self.new }
    {
        self.allows_long(long)?;
        self.write_long(long)?;
        Ok(())
    }

    // A run of three or four letters that is not refused is written at its place among the others.
    pub(crate) fn write_long(&mut self, long: Long) -> Result<(), AllocError>
        requires { long_refusal (buffer_rules self.old) (buffer_runs self.old) long ≡ None }
        ensures { Written (LongIn self.old long) self.old result self.new }
    {
        let place = place_for(self.longs.as_slice(), long.run.rank());
        self.longs.insert(place, long)?;
        Ok(())
    }

    // Whether one run of three or four letters more would be taken, if there is memory; else why not.
    pub fn allows_long(&self, long: Long) -> Result<(), Refusal>
        ensures { result ≡ verdict (long_refusal (buffer_rules self.now) (buffer_runs self.now) long) }
    {
        let place = self.run_count();
        if place >= Table::MAX_RUNS {
            return Err(Refusal::TooMany);
        }
        if unknown_long(self.utf8, long.run) {
            return Err(Refusal::Foreign(place));
        }
        if find_long(self.longs.as_slice(), long.run).is_some() {
            return Err(Refusal::Twice(place));
        }
        Ok(())
    }

    // How many runs have been added.
    fn run_count(&self) -> usize
        ensures { result ≡ buffer_runs self.now }
    {
        self.pairs.len() / 5 + self.longs.len()
    }

    // The numbers as a table.
    pub fn table(&self) -> Table<'_>
        ensures rules { rules_of result ≡ buffer_rules self.now }
        ensures pairs { pairs_of result ≡ buffer_pairs self.now }
        ensures longs { longs_of result ≡ buffer_longs self.now }
        ensures expansions { expansions_of result ≡ buffer_expansions self.now }
    {
        let mut pairs = Pairs::new(self.pairs.as_slice());
        pairs.chain().unwrap();
        let longs = self.longs.as_slice();
        let begins = begins_of(&pairs, longs);
        Table {
            letters: self.letters.as_slice(),
            others: self.others.as_slice(),
            pairs,
            longs,
            expansions: self.expansions.as_slice(),
            begins,
            utf8: self.utf8,
        }
    }
}

// Whether a letter weighs as three at the most: the refusal of an entry at this place, where not.
pub(crate) fn check_triples(weights: Triples, place: usize) -> Result<(), Refusal>
    ensures { result ≡ verdict (excess_refusal place weights) }
{
    match weights {
        Triples::Excess => Err(Refusal::TooManyTriples(place)),
        Triples::One(_) | Triples::Several(_) => Ok(()),
    }
}

// Whether a number is a letter of a table.
fn is_letter_of(utf8: bool, letter: u32) -> bool
    ensures { result ≡ is_letter_of utf8 letter }
{
    if utf8 {
        is_letter(letter)
    } else {
        letter < 256
    }
}
