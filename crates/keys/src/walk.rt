// A name read from the left, piece by piece.
ghost use Rattle.std.specs.Prelude.{◌≡◌, ◌∷◌, None, Some};
ghost use Rattle.keys.specs.Reading.{AreShort, LetterWith, LongWith, RunAt, RunWith, Stepped, still};
ghost use Rattle.table.specs.Meaning.{rules_of};
ghost use Rattle.pieces.specs.Runs.{nothing};

use crate::letters::{one_byte, split_first};
use table::{LongRun, Table, Weights};

// What is left of a name, and the triple of weights that was taken last.
#[derive(Clone, Copy)]
pub(crate) struct Walk<'a, 't, 'n> {
    pub(crate) table: &'a Table<'t>,
    pub(crate) rest: &'n [u8],
    pub(crate) weights: Weights,
    // What the letter that was taken last still weighs, where it weighs as two or three.
    pub(crate) more: Option<Behind>,
}

// The next triple that a letter still weighs, and the one behind it.
#[derive(Clone, Copy)]
pub(crate) struct Behind {
    pub(crate) next: Weights,
    pub(crate) last: Option<Weights>,
}

impl Behind {
    // The next triple, and what is left behind it.
    fn split(self) -> (Weights, Option<Behind>)
        ensures { (result.0 ∷ still result.1 ≡ still (Some self)) × AreShort result.0 }
    {
        match self.last {
            Some(next) => (self.next, Some(Behind { next, last: None })),
            None => (self.next, None),
        }
    }
}

impl<'a, 't, 'n> Walk<'a, 't, 'n> {
    // The whole name is left.
    pub(crate) fn new(table: &'a Table<'t>, name: &'n [u8]) -> Walk<'a, 't, 'n>
        ensures { result ≡ record { table = table.entry; rest = name.entry; weights = nothing; more = None } }
    {
        Walk {
            table,
            rest: name,
            weights: Weights::from([0, 0, 0]),
            more: None,
        }
    }
}

impl<'n> Walk<'_, '_, 'n> {
    // Goes on to the next triple that counts on some level, and answers whether there was one; it is left in the walk. Most letters
    // are one byte, begin no run, weigh as one, and count: they are taken here, where the walk is held in registers, and the others
    // by the steps below.
    #[inline(always)]
    pub(crate) fn step(&mut self) -> bool
        ensures { Stepped self.old result self.new }
    {
        if self.more.is_none() {
            if let Some((first, rest)) = self.rest.split_first() {
                let letter = *first as u32;
                if one_byte(self.table.utf8(), *first) && !self.table.may_begin(letter) {
                    let weights = self.table.letter(letter);
                    if weights.counts() {
                        self.rest = rest;
                        self.weights = weights;
                        return true;
                    }
                }
            }
        }
        self.further()
    }

    // The same by the steps, of a copy of the walk, so that this one stays in registers.
    #[inline(always)]
    fn further(&mut self) -> bool
        ensures { Stepped self.old result self.new }
    {
        let (found, walk) = stepped(*self);
        *self = walk;
        found
    }

    // The step at a letter: what the last one still weighs is taken, or else one letter, unless a run begins with it. Goes on until
    // what was taken counts on some level, and answers whether there was such a triple. It is left in the walk: handed back, it would
    // go through memory, and then the calls of the two steps use up the stack on twenty million letters that do not count.
    #[cycle(letter_step_run_step)]
    fn letter_step(&mut self) -> bool
        ensures { Stepped self.old result self.new }
    {
        if let Some(behind) = self.more {
            let (weights, more) = behind.split();
            self.weights = weights;
            self.more = more;
            if self.weights.counts() {
                return true;
            }
            return self.letter_step();
        }
        let Some((letter, rest)) = split_first(self.table.utf8(), self.rest) else {
            return false;
        };
        if let Some((behind, weights)) = run_with(self.table, letter, rest) {
            self.weights = weights;
            return self.run_step(behind);
        }
        let (weights, more) = letter_with(self.table, letter);
        self.rest = rest;
        self.weights = weights;
        self.more = more;
        if self.weights.counts() {
            return true;
        }
        self.letter_step()
    }

    // The same at a run, which weighs so and has this behind it.
    #[cycle(letter_step_run_step)]
    fn run_step(&mut self, behind: &'n [u8]) -> bool
        requires { RunAt self.old behind.now }
        ensures { Stepped self.old result self.new }
    {
        self.rest = behind;
        if self.weights.counts() {
            return true;
        }
        self.letter_step()
    }
}

// What a letter weighs: the first triple, and what is behind it. One that counts itself does not expand.
fn letter_with(table: &Table, letter: u32) -> (Weights, Option<Behind>)
    ensures { LetterWith (rules_of table.now) letter result }
{
    let weights = table.letter(letter);
    if weights.counts() {
        return (weights, None);
    }
    match table.expansion(letter) {
        Some(expanded) => {
            let behind = Behind {
                next: expanded.second,
                last: expanded.third,
            };
            (expanded.first, Some(behind))
        }
        None => (weights, None),
    }
}

// The walk behind the next triple that counts, and whether there was one.
#[inline(never)]
fn stepped<'a, 't, 'n>(mut walk: Walk<'a, 't, 'n>) -> (bool, Walk<'a, 't, 'n>)
    ensures { Stepped walk.entry result.0 result.1 }
{
    let found = walk.letter_step();
    (found, walk)
}

// The longest run that begins with a letter that was read: what is behind it, and what it weighs.
fn run_with<'n>(table: &Table, letter: u32, rest: &'n [u8]) -> Option<(&'n [u8], Weights)>
    ensures { RunWith (rules_of table.now) letter rest.now result }
{
    if !table.may_begin(letter) {
        return None;
    }
    let utf8 = table.utf8();
    let (second, behind_two) = split_first(utf8, rest)?;
    if table.long_count() > 0 {
        if let Some(run) = long_with(table, letter, second, behind_two) {
            return Some(run);
        }
    }
    let weights = table.pair(letter, second)?;
    Some((behind_two, weights))
}

// The same of three and four letters, two of which were read.
#[inline(never)]
fn long_with<'n>(
    table: &Table,
    first: u32,
    second: u32,
    rest: &'n [u8],
) -> Option<(&'n [u8], Weights)>
    ensures { LongWith (rules_of table.now) first second rest.now result }
{
    let utf8 = table.utf8();
    let (third, behind_three) = split_first(utf8, rest)?;
    if let Some((fourth, behind_four)) = split_first(utf8, behind_three) {
        let four = LongRun {
            first,
            second,
            third,
            fourth: Some(fourth),
        };
        if let Some(weights) = table.long(four) {
            return Some((behind_four, weights));
        }
    }
    let three = LongRun {
        first,
        second,
        third,
        fourth: None,
    };
    let weights = table.long(three)?;
    Some((behind_three, weights))
}
