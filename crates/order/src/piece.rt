// Old pieces: what is read at once in names of old letters.
ghost use Rattle.std.specs.Prelude.{◌≡◌, ◌+◌, ◌-◌, length, slice_index_or, false};
ghost use Rattle.std.specs.Iterator.{at_most};
ghost use Rattle.std.specs.List.{list_all};
ghost use Rattle.std.specs.Option.{option_map};
ghost use Rattle.pieces.specs.Runs.{long_letters, nothing};
ghost use Rattle.order.specs.Pieces.{NextPiece, PieceAt, old_in, parts, piece_triples, places, run_contraction, run_in};
ghost use Rattle.table.specs.Meaning.{rules_of};

use table::{Expanded, LongRun, Table, Weights};

// A letter, or two, three or four letters that are one together.
#[derive(Clone, Copy, PartialEq, Eq, Debug)]
pub enum Piece {
    Letter(u32),
    Pair(u32, u32),
    Three(u32, u32, u32),
    Four(u32, u32, u32, u32),
}

// What a piece weighs: its own triple of weights, and behind it those that a letter expands to.
#[derive(Clone, Copy)]
pub(crate) struct Parts {
    own: Weights,
    expanded: Option<Expanded>,
}

impl Parts {
    // How many triples these are.
    pub(crate) fn count(&self) -> usize
        ensures { result ≡ length (parts self.now) }
    {
        match self.expanded {
            None => 1,
            Some(expanded) if expanded.third.is_some() => 4,
            Some(_) => 3,
        }
    }

    // The triple at a place, counted from 0; nothing behind the last.
    pub(crate) fn get(&self, place: usize) -> Weights
        ensures { result ≡ slice_index_or (parts self.now) place nothing }
    {
        match (place, self.expanded) {
            (0, _) => self.own,
            (1, Some(expanded)) => expanded.first,
            (2, Some(expanded)) => expanded.second,
            (3, Some(expanded)) => expanded.third.unwrap_or(Weights::from([0, 0, 0])),
            _ => Weights::from([0, 0, 0]),
        }
    }
}

impl Piece {
    // What it weighs under a table; nothing where it is letters that are not one there.
    pub(crate) fn parts(self, table: &Table) -> Option<Parts>
        ensures { option_map parts result ≡ piece_triples (rules_of table.now) (run_in self) }
    {
        match self {
            Piece::Letter(letter) => Some(Parts {
                own: table.letter(letter),
                expanded: table.expansion(letter),
            }),
            _ => {
                let own = self.run_weights(table)?;
                Some(Parts {
                    own,
                    expanded: None,
                })
            }
        }
    }

    // What a run weighs, where its letters are one together; and no letter alone.
    fn run_weights(self, table: &Table) -> Option<Weights>
        ensures { result ≡ run_contraction (rules_of table.now) (run_in self) }
    {
        match self {
            Piece::Letter(_) => None,
            Piece::Pair(first, second) => table.pair(first, second),
            Piece::Three(first, second, third) => table.long(LongRun {
                first,
                second,
                third,
                fourth: None,
            }),
            Piece::Four(first, second, third, fourth) => table.long(LongRun {
                first,
                second,
                third,
                fourth: Some(fourth),
            }),
        }
    }

    // Whether all its letters are old.
    fn is_old(self, old: &[bool]) -> bool
        ensures { result ≡ list_all (old_in old.now) (run_in self) }
    {
        match self {
            Piece::Letter(letter) => is_marked(old, letter),
            Piece::Pair(first, second) => is_marked(old, first) && is_marked(old, second),
            Piece::Three(first, second, third) => {
                is_marked(old, first) && is_marked(old, second) && is_marked(old, third)
            }
            Piece::Four(first, second, third, fourth) => {
                is_marked(old, first)
                    && is_marked(old, second)
                    && is_marked(old, third)
                    && is_marked(old, fourth)
            }
        }
    }
}

// The letters of a longer run.
impl From<LongRun> for Piece {
    ghost from_gives = { λ run r. run_in r ≡ long_letters run };

    fn from(run: LongRun) -> Piece {
        match run.fourth {
            None => Piece::Three(run.first, run.second, run.third),
            Some(fourth) => Piece::Four(run.first, run.second, run.third, fourth),
        }
    }
}

// Whether a letter is marked; those behind the marks are not.
fn is_marked(marks: &[bool], letter: u32) -> bool
    ensures { result ≡ old_in marks.now letter }
{
    (letter as usize) < marks.len() && marks[letter as usize]
}

// The pieces that a table lists, and that are of old letters: letters first, then pairs, then longer runs, and last the letters
// that weigh as two or three. Other letters weigh nothing.
#[derive(Drop)]
pub(crate) struct OldPieces<'a, 't> {
    table: &'a Table<'t>,
    old: &'a [bool],
    // Where to look next: the letters that the table lists have the first places, the pairs those behind, then the longer runs, and
    // the letters that weigh as two or three the last.
    place: usize,
}

impl<'a, 't> OldPieces<'a, 't> {
    pub(crate) fn new(table: &'a Table<'t>, old: &'a [bool]) -> OldPieces<'a, 't>
        ensures { result ≡ record { table = table.entry; old = old.entry; place = 0 } }
    {
        OldPieces {
            table,
            old,
            place: 0,
        }
    }

    // The piece at a place, where its letters are old.
    fn at(&self, place: usize) -> Option<Piece>
        ensures { PieceAt self.now place result }
    {
        let letters = self.table.letter_count();
        let pairs = self.table.pair_count();
        let longs = self.table.long_count();
        let piece = if place < letters {
            Piece::Letter(self.table.letter_at(place)?.letter)
        } else if place - letters < pairs {
            let pair = self.table.pair_at(place - letters)?;
            Piece::Pair(pair.first, pair.second)
        } else if place - letters - pairs < longs {
            Piece::from(self.table.long_at(place - letters - pairs)?.run)
        } else {
            let expansion = self.table.expansion_at(place - letters - pairs - longs)?;
            Piece::Letter(expansion.letter)
        };
        piece.is_old(self.old).then_some(piece)
    }
}

impl Iterator for OldPieces<'_, '_> {
    type Item = Piece;

    ghost next_gives = { λ s r t. NextPiece s r t };

    ghost remaining = { λ s. at_most (places s.table.now - s.place) };

    fn next(&mut self) -> Option<Piece> {
        let end = self.table.letter_count()
            + self.table.pair_count()
            + self.table.long_count()
            + self.table.expansion_count();
        while self.place < end {
            let piece = self.at(self.place);
            self.place += 1;
            if piece.is_some() {
                return piece;
            }
        }
        None
    }
}
