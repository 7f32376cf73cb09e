// What lines say of letters that weigh as two or three, and how such letters are written.
use crate::read::{Case, ONE, hold, name};
use std::test::Fail;
use table::{Expanded, LetterEntry, Triples, Weights};
use texts::{Command, Entry, Line};

const ZERO: Weights = Weights {
    primary: 0,
    secondary: 0,
    tertiary: 0,
};

const LARGE: Weights = Weights {
    primary: 65535,
    secondary: 0,
    tertiary: 10,
};

fn letter(letter: u32, weights: Triples) -> Command<'static> {
    Command::Enter(Entry::Letter(LetterEntry { letter, weights }))
}

fn two(number: u32, first: Weights, second: Weights) -> Command<'static> {
    letter(
        number,
        Triples::Several(Expanded {
            first,
            second,
            third: None,
        }),
    )
}

fn three(number: u32, first: Weights, second: Weights, third: Weights) -> Command<'static> {
    letter(
        number,
        Triples::Several(Expanded {
            first,
            second,
            third: Some(third),
        }),
    )
}

#[test]
fn two_or_three(rt: HostRuntime) {
    hold(
        &rt,
        &[
            Case(
                b"letter \xc3\x9f 1 2 3 65535 0 10",
                Line::Says(two(0xdf, ONE, LARGE)),
            ),
            Case(
                b"letter U+00DF 65535 00 010 001 2 3",
                Line::Says(two(0xdf, LARGE, ONE)),
            ),
            Case(
                b"letter 1 2 3 4 5 6 7",
                Line::Says(two(
                    49,
                    Weights {
                        primary: 2,
                        secondary: 3,
                        tertiary: 4,
                    },
                    Weights {
                        primary: 5,
                        secondary: 6,
                        tertiary: 7,
                    },
                )),
            ),
            Case(b"letter a 0 0 0 0 0 0", Line::Says(two(97, ZERO, ZERO))),
            Case(
                b"letter \xef\xac\x83 1 2 3 65535 0 10 0 0 0",
                Line::Says(three(0xfb03, ONE, LARGE, ZERO)),
            ),
            Case(
                b"letter U+1F600 0 0 0 1 2 3 65535 0 10",
                Line::Says(three(0x1f600, ZERO, ONE, LARGE)),
            ),
            Case(
                b"letter a 0 0 0 0 0 0 0 0 0",
                Line::Says(three(97, ZERO, ZERO, ZERO)),
            ),
        ],
    );
}

// Four triples and more have the form of a letter, and are none of a table.
#[test]
fn more_than_three(rt: HostRuntime) {
    let excess = Line::Says(letter(97, Triples::Excess));
    hold(
        &rt,
        &[
            Case(b"letter a 1 2 3 1 2 3 1 2 3 1 2 3", excess),
            Case(b"letter a 1 2 3 4 5 6 7 8 9 10 11 12 13 14 15", excess),
            Case(b"letter a 0 0 0 0 0 0 0 0 0 0 0 0 0 0 0 0 0 0", excess),
            Case(b"letter a 1 2 3 1 2 3 1 2 3 1 2 65536", Line::Unreadable),
            Case(b"letter a 1 2 3 1 2 3 1 2 3 1 2 x", Line::Unreadable),
            Case(b"letter a 1 2 3 1 2 3 1 2 3 1 2 3 4", Line::Unreadable),
            Case(b"letter a 1 2 3 1 2 3 1 2 3 1 2 3 4 5", Line::Unreadable),
            Case(b"letter a 1 2 3 1 2 3 1 2 3 1 2 3 ", Line::Unreadable),
            Case(b"letter ab 1 2 3 1 2 3 1 2 3 1 2 3", Line::Unreadable),
        ],
    );
}

#[test]
fn no_triples(rt: HostRuntime) {
    hold(
        &rt,
        &[
            Case(b"letter a", Line::Unreadable),
            Case(b"letter a ", Line::Unreadable),
            Case(b"letter a 1", Line::Unreadable),
            Case(b"letter a 1 2", Line::Unreadable),
            Case(b"letter a 1 2 3 4", Line::Unreadable),
            Case(b"letter a 1 2 3 4 5", Line::Unreadable),
            Case(b"letter a 1 2 3 4 5 6 7", Line::Unreadable),
            Case(b"letter a 1 2 3 4 5 6 7 8", Line::Unreadable),
            Case(b"letter a 1 2 3 4 5 6 7 8 9 10", Line::Unreadable),
            Case(b"letter a 1 2 3 65536 5 6", Line::Unreadable),
            Case(b"letter a 1 2 3 4 65536 6", Line::Unreadable),
            Case(b"letter a 1 2 3 4 5 65536", Line::Unreadable),
            Case(b"letter a 1 2 3 4 5 6 7 8 65536", Line::Unreadable),
            Case(b"letter a 1 2 3 x 5 6", Line::Unreadable),
            Case(b"letter a 1 2 3 -4 5 6", Line::Unreadable),
            Case(b"letter a 1 2 3  4 5 6", Line::Unreadable),
            Case(b"letter a  1 2 3 4 5 6", Line::Unreadable),
            Case(b"letter a 1 2 3 4 5 6 ", Line::Unreadable),
            Case(b"letter a 1 2 3, 4 5 6", Line::Unreadable),
            Case(b"letter a 1 2 3 4 5\t6", Line::Unreadable),
            Case(b"letter ab 1 2 3 4 5 6", Line::Unreadable),
            Case(b"letter a b 1 2 3 4 5 6", Line::Unreadable),
        ],
    );
}

// Runs weigh as one.
#[test]
fn runs(rt: HostRuntime) {
    hold(
        &rt,
        &[
            Case(b"pair c h 1 2 3 4 5 6", Line::Unreadable),
            Case(b"pair c h 1 2 3 4 5 6 7 8 9", Line::Unreadable),
            Case(b"run c h 1 2 3 4 5 6", name(b"run c h 1 2 3 4 5 6")),
            Case(b"run d z s 1 2 3 4 5 6", name(b"run d z s 1 2 3 4 5 6")),
        ],
    );
}

// A command, and the line that says it.
#[derive(Clone, Copy)]
struct Said(Command<'static>, &'static [u8]);

#[test]
fn written(rt: HostRuntime) -> Result<(), Fail> {
    for Said(command, line) in [
        Said(letter(97, Triples::One(LARGE)), b"letter a 65535 0 10"),
        Said(two(0xdf, ONE, ONE), b"letter U+00DF 1 2 3 1 2 3"),
        Said(two(97, ZERO, LARGE), b"letter a 0 0 0 65535 0 10"),
        Said(
            three(0xfb03, LARGE, ONE, ZERO),
            b"letter U+FB03 65535 0 10 1 2 3 0 0 0",
        ),
        Said(
            three(0xffffff, ZERO, ZERO, ZERO),
            b"letter U+FFFFFF 0 0 0 0 0 0 0 0 0",
        ),
    ] {
        let written = command.to_line(rt.alloc())?;
        assert_eq!(rt; written.as_slice(), line);
        assert_eq!(rt; Line::read(&written), Line::Says(command));
    }
    let excess = letter(97, Triples::Excess).to_line(rt.alloc())?;
    assert_eq!(rt; excess.as_slice(), b"letter a".as_slice());
    assert_eq!(rt; Line::read(&excess), Line::Unreadable);
    Ok(())
}
