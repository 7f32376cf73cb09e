// A text cut at a mark: words at spaces, lines at their ends.
ghost use Rattle.std.specs.Prelude.{◌≡◌, ℕ, ◌+◌, ◌≤◌, List, ◌∷◌, length};
ghost use Rattle.std.specs.Iterator.{YieldsFirstRef, item_count};
ghost use Rattle.std.specs.Option.{option_map};
ghost use Rattle.texts.specs.Parts.{behind, front, parts, parts_left, without_return};

use std::marker::Model;

// A text cut at its first mark. `Parts` goes on from there.
#[derive(Clone, Copy)]
pub struct Cut<'a> {
    // Up to the first mark.
    pub part: &'a [u8],
    // What stands behind that mark, where there is one.
    pub rest: Option<&'a [u8]>,
}

// The first part of a text and the rest of it.
pub fn first_part<'a>(text: &'a [u8], mark: u8) -> Cut<'a>
    ensures part { result.part.now ≡ front mark text.now }
    ensures rest { option_map (λ x. x.now) result.rest ≡ behind mark text.now }
{
    match text.iter().position(|byte| *byte == mark) {
        Some(place) => Cut {
            part: &text[..place],
            rest: Some(&text[place + 1..]),
        },
        None => Cut {
            part: text,
            rest: None,
        },
    }
}

// The parts of a text, from the first on: the list of those that are left.
#[derive(Drop)]
pub struct Parts<'a> {
    // What is not cut yet; nothing behind the last part.
    rest: Option<&'a [u8]>,
    mark: u8,
}

impl<'a> Model for Parts<'a> {
    ghost Value = { List (List ℕ) };

    ghost view = { λ it. parts_left it.mark (option_map (λ x. x.now) it.rest) };
}

impl<'a> Parts<'a> {
    #[tactic(auto, using(crate::proofs::Cutting::parts_most))]
    pub fn new(text: &'a [u8], mark: u8) -> Parts<'a>
        ensures all { result ≡ parts mark text.now }
        ensures count { length result ≤ length text.now + 1 }
    {
        Parts {
            rest: Some(text),
            mark,
        }
    }
}

impl<'a> Iterator for Parts<'a> {
    type Item = &'a [u8];

    ghost next_gives = { YieldsFirstRef (λ left. left) };

    ghost remaining = { item_count (λ left. left) };

    #[tactic(auto, using(crate::proofs::Cutting::parts_first))]
    fn next(&mut self) -> Option<&'a [u8]> {
        let cut = first_part(self.rest?, self.mark);
        self.rest = cut.rest;
        Some(cut.part)
    }
}

// A line without the carriage return at its end.
pub fn without_return<'a>(line: &'a [u8]) -> &'a [u8]
    ensures { result.now ≡ without_return line.now }
{
    line.strip_suffix(b"\r").unwrap_or(line)
}
