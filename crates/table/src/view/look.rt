// Looking up what letters weigh.
ghost use Rattle.std.specs.Prelude.{◌≡◌, ◌^◌, ◌<◌, ◌≤◌, false, [], ◌∷◌, length};
ghost use Rattle.std.specs.List.{slice_get};
ghost use Rattle.table.specs.Meaning.{expansions_of, letters_of, longs_of, pairs_of, rules_of, some_begins};
ghost use Rattle.table.specs.Rules.{BeginsNone, contraction, letter_triples};
ghost use Rattle.pieces.specs.Runs.{expanded_if, long_letters};

use crate::layout::weights_at;
use crate::others::letter_weights;
use crate::view::Table;
use pieces::{
    Expanded, Expansion, Letter, Long, LongRun, Pair, Triples, Weights, find_long, find_ranked,
};

impl Table<'_> {
    // How many letters bytes are.
    pub const LETTERS: usize = 256;
    // The most letters that may weigh something.
    pub const MAX_LETTERS: usize = 2000;
    // The most runs that a table may have.
    pub const MAX_RUNS: usize = 200;
    // The most letters that a name may have.
    pub const MAX_NAME: usize = 1000;

    // Whether names are bytes in UTF-8; else each byte is a letter.
    pub fn utf8(&self) -> bool
        ensures { result ≡ (rules_of self.now).utf8 }
    {
        self.utf8
    }

    // What a letter weighs itself: nothing where it weighs as two or three.
    #[tactic(auto, unfolding(crate::specs::Rules::weighs_in))]
    pub fn letter(&self, letter: u32) -> Weights
        ensures { result ≡ (rules_of self.now).weighs (letter ∷ []) }
    {
        letter_weights(self.letters, self.others, letter)
    }

    // What a letter expands to, where it weighs as two or three.
    pub fn expansion(&self, letter: u32) -> Option<Expanded>
        ensures { expanded_if result ≡ (rules_of self.now).expands (letter ∷ []) }
    {
        match find_ranked(self.expansions, letter as u64) {
            Some(expansion) => Some(expansion.weights),
            None => None,
        }
    }

    // All that a letter weighs, as it is entered.
    pub fn triples(&self, letter: u32) -> Triples
        ensures { result ≡ letter_triples (rules_of self.now) letter }
    {
        match self.expansion(letter) {
            Some(expanded) => Triples::Several(expanded),
            None => Triples::One(self.letter(letter)),
        }
    }

    // What two letters weigh together, where they are one. Two letters, and not a struct of them: a name has them one by one.
    pub fn pair(&self, first: u32, second: u32) -> Option<Weights>
        ensures { result ≡ contraction (rules_of self.now) (first ∷ (second ∷ [])) }
    {
        self.pairs.weights(first, second)
    }

    // What three or four letters weigh together, where they are one. No others are looked at than those with the same first
    // letter.
    pub fn long(&self, run: LongRun) -> Option<Weights>
        ensures { result ≡ contraction (rules_of self.now) (long_letters run) }
    {
        find_long(self.longs, run)
    }

    // Whether a run begins with a letter that has the same remainder by 256. Where not, none begins with this one: most letters
    // need no further look.
    pub fn may_begin(&self, letter: u32) -> bool
        ensures says { result ≡ some_begins (pairs_of self.now) (longs_of self.now) letter }
        ensures none { result ≡ false → BeginsNone (rules_of self.now) letter }
    {
        self.begins[(letter % 256) as usize]
    }

    // How many letters are listed with weights of their own: those below 256, and those that have an entry.
    pub fn letter_count(&self) -> usize
        ensures count { result ≡ length (letters_of self.now) }
        ensures few { result < 2 ^ 63 }
    {
        Self::LETTERS + self.others.len()
    }

    // The letter at a place of the list, counted from 0. A letter that is not listed weighs nothing itself.
    pub fn letter_at(&self, place: usize) -> Option<Letter>
        ensures { result ≡ slice_get (letters_of self.now) place }
    {
        if place < Self::LETTERS {
            return Some(Letter {
                letter: place as u32,
                weights: weights_at(self.letters, 3 * place),
            });
        }
        let other = place - Self::LETTERS;
        if other >= self.others.len() {
            return None;
        }
        Some(self.others[other])
    }

    // How many letters weigh as two or three.
    pub fn expansion_count(&self) -> usize
        ensures count { result ≡ length (expansions_of self.now) }
        ensures few { result < 2 ^ 62 }
    {
        self.expansions.len()
    }

    // The one at a place, counted from 0.
    pub fn expansion_at(&self, place: usize) -> Option<Expansion>
        ensures { result ≡ slice_get (expansions_of self.now) place }
    {
        self.expansions.get(place).copied()
    }

    // How many pairs there are.
    pub fn pair_count(&self) -> usize
        ensures count { result ≡ length (pairs_of self.now) }
        ensures few { result ≤ 200 }
    {
        self.pairs.len()
    }

    // The pair at a place, counted from 0.
    pub fn pair_at(&self, place: usize) -> Option<Pair>
        ensures { result ≡ slice_get (pairs_of self.now) place }
    {
        self.pairs.get(place)
    }

    // How many runs of three and four letters there are.
    pub fn long_count(&self) -> usize
        ensures count { result ≡ length (longs_of self.now) }
        ensures few { result ≤ 200 }
    {
        self.longs.len()
    }

    // The longer run at a place, counted from 0.
    pub fn long_at(&self, place: usize) -> Option<Long>
        ensures { result ≡ slice_get (longs_of self.now) place }
    {
        self.longs.get(place).copied()
    }
}
