// The letters that names are mostly made of, and any others.
use crate::dice::Dice;
use crate::joined::Joined;

#[derive(Drop)]
pub(crate) struct Alphabet {
    // Whether names are written in UTF-8; else each letter is a byte.
    pub(crate) utf8: bool,
    pub(crate) letters: Vec<u32>,
    // Runs of three and four letters that names have more often than by chance.
    pub(crate) longs: Vec<Joined>,
}

// Letters at the borders of what one, two and three bytes of UTF-8 are.
static BORDERS: [u32; 16] = [
    0, 0x7f, 0x80, 0xbf, 0xc0, 0xff, 0x100, 0x7ff, 0x800, 0xfff, 0x1000, 0xcfff, 0xd7ff, 0xe000,
    0xfffe, 0xffff,
];

impl Alphabet {
    // Any letter that a name may have.
    pub(crate) fn any(&self, dice: &mut Dice) -> u32 {
        any_letter(dice, self.utf8)
    }

    // One of the letters; any where there are none.
    pub(crate) fn one(&self, dice: &mut Dice) -> u32 {
        let place = dice.below(self.letters.len());
        match self.letters.get(place) {
            Some(letter) => *letter,
            None => self.any(dice),
        }
    }

    // One of the runs, if there are any.
    fn long(&self, dice: &mut Dice) -> Option<Joined> {
        let place = dice.below(self.longs.len());
        self.longs.get(place).copied()
    }
}

// The letters of a name, one after the other: any of the alphabet, or the next of a run, which may be broken off.
#[derive(Clone, Copy)]
pub(crate) struct Spelling {
    run: Option<Joined>,
    at: usize,
}

impl Spelling {
    pub(crate) fn new() -> Spelling {
        Spelling { run: None, at: 0 }
    }

    pub(crate) fn next(&mut self, dice: &mut Dice, alphabet: &Alphabet) -> u32 {
        if dice.once_in(4) {
            self.run = alphabet.long(dice);
            self.at = 0;
        }
        let at = self.at;
        self.at = at.saturating_add(1);
        match self.run.and_then(|run| run.letters().get(at).copied()) {
            Some(letter) => letter,
            None => alphabet.one(dice),
        }
    }
}

// Any letter of a byte, or of UTF-8.
pub(crate) fn any_letter(dice: &mut Dice, utf8: bool) -> u32 {
    if !utf8 {
        return dice.below(256) as u32;
    }
    match dice.below(6) {
        0 => dice.below(128) as u32,
        1 => dice.below(256) as u32,
        2 => 256 + dice.below(2000) as u32,
        3 => dice.below(0xd800) as u32,
        4 => 0xe000 + dice.below(0x2000) as u32,
        _ => BORDERS[dice.below(16)],
    }
}
