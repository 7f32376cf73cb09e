// What lines say.
use std::process::Abort;
use table::{LetterEntry, Pair, Triples, Weights};
use texts::{Command, Entry, Line, Parts, whole_number, without_return};

pub(crate) const ONE: Weights = Weights {
    primary: 1,
    secondary: 2,
    tertiary: 3,
};

fn letter(letter: u32, weights: Weights) -> Line<'static> {
    Line::Says(Command::Enter(Entry::Letter(LetterEntry {
        letter,
        weights: Triples::One(weights),
    })))
}

pub(crate) fn pair(first: u32, second: u32) -> Line<'static> {
    Line::Says(Command::Enter(Entry::Pair(Pair {
        first,
        second,
        weights: ONE,
    })))
}

// A line, and what it says.
#[derive(Clone, Copy)]
pub(crate) struct Case(pub &'static [u8], pub Line<'static>);

pub(crate) fn hold(rt: &impl Abort, cases: &[Case]) {
    for Case(line, meaning) in cases {
        assert_eq!(rt; Line::read(line), *meaning);
    }
}

#[test]
fn letters(rt: HostRuntime) {
    hold(
        &rt,
        &[
            Case(b"", Line::Blank),
            Case(b"letter a 1 2 3", letter(97, ONE)),
            Case(b"letter U 1 2 3", letter(85, ONE)),
            Case(b"letter \t 1 2 3", letter(9, ONE)),
            Case(b"letter + 1 2 3", letter(43, ONE)),
            Case(b"letter \x7f 1 2 3", letter(127, ONE)),
            Case(b"letter \xc2\x80 1 2 3", letter(128, ONE)),
            Case(
                b"letter \xc3\xbc 215 2 1",
                letter(
                    252,
                    Weights {
                        primary: 215,
                        secondary: 2,
                        tertiary: 1,
                    },
                ),
            ),
            Case(b"letter \xe2\x82\xac 1 2 3", letter(0x20ac, ONE)),
            Case(b"letter \xef\xbf\xbf 1 2 3", letter(0xffff, ONE)),
            Case(
                b"letter U+00Fa 001 0000000000000000000002 3",
                letter(250, ONE),
            ),
            Case(
                b"letter a 0 65535 10",
                letter(
                    97,
                    Weights {
                        primary: 0,
                        secondary: 65535,
                        tertiary: 10,
                    },
                ),
            ),
        ],
    );
}

// A number is four to six digits, also where the table has no such letter.
#[test]
fn letters_by_number(rt: HostRuntime) {
    hold(
        &rt,
        &[
            Case(b"letter U+0000 1 2 3", letter(0, ONE)),
            Case(b"letter U+00ff 1 2 3", letter(255, ONE)),
            Case(b"letter U+0100 1 2 3", letter(256, ONE)),
            Case(b"letter U+00041 1 2 3", letter(65, ONE)),
            Case(b"letter U+000041 1 2 3", letter(65, ONE)),
            Case(
                b"letter U+1F600 1 1 1",
                letter(
                    0x1f600,
                    Weights {
                        primary: 1,
                        secondary: 1,
                        tertiary: 1,
                    },
                ),
            ),
            Case(b"letter U+D800 1 2 3", letter(0xd800, ONE)),
            Case(b"letter U+dFfF 1 2 3", letter(0xdfff, ONE)),
            Case(b"letter U+10FFFF 1 2 3", letter(0x10ffff, ONE)),
            Case(b"letter U+ffffff 1 2 3", letter(0xffffff, ONE)),
            Case(b"letter U+0000041 1 2 3", Line::Unreadable),
            Case(b"letter U+1000000 1 2 3", Line::Unreadable),
            Case(b"letter U+041 1 2 3", Line::Unreadable),
            Case(b"letter U+ 1 2 3", Line::Unreadable),
            Case(b"letter u+0041 1 2 3", Line::Unreadable),
            Case(b"letter U-0041 1 2 3", Line::Unreadable),
            Case(b"letter U+00G1 1 2 3", Line::Unreadable),
            Case(b"letter U+00\xc3\xbc 1 2 3", Line::Unreadable),
        ],
    );
}

#[test]
fn pairs(rt: HostRuntime) {
    hold(
        &rt,
        &[
            Case(b"pair c h 1 2 3", pair(99, 104)),
            Case(b"pair U+0020 U+FFFF 1 2 3", pair(32, 65535)),
            Case(b"pair \xc3\xa4 \xe2\x82\xac 1 2 3", pair(228, 0x20ac)),
            Case(b"pair U+1F600 \xef\xbf\xbf 1 2 3", pair(0x1f600, 0xffff)),
            Case(b"pair U+dc00 U+FFFFFF 1 2 3", pair(0xdc00, 0xffffff)),
            Case(b"pair \xc3\xa4\xe2\x82\xac 1 2 3", Line::Unreadable),
            Case(b"pair a U+0000041 1 2 3", Line::Unreadable),
            Case(b"pair letter h 1 2 3", Line::Unreadable),
            Case(b"pair c 1 2 3", Line::Unreadable),
            Case(b"pair c h i 1 2 3", Line::Unreadable),
            Case(b"pair c h 1 2", Line::Unreadable),
            Case(b"pair", Line::Unreadable),
        ],
    );
}

pub(crate) fn find(ask: &[u8]) -> Line<'_> {
    Line::Says(Command::Find(ask))
}

fn key(name: &[u8]) -> Line<'_> {
    Line::Says(Command::Key(name))
}

pub(crate) fn name(name: &[u8]) -> Line<'_> {
    Line::Says(Command::Name(name))
}

// What stands behind the word and one space is taken as it is.
#[test]
fn questions(rt: HostRuntime) {
    hold(
        &rt,
        &[
            Case(b"key cab", key(b"cab")),
            Case(b"key", key(b"")),
            Case(b"key ", key(b"")),
            Case(b"key  a b ", key(b" a b ")),
            Case(b"key letter a 1 2 3", key(b"letter a 1 2 3")),
            Case(b"key \x00\xc3\xbc\r", key(b"\x00\xc3\xbc\r")),
            Case(b"find cab", find(b"cab")),
            Case(b"find", find(b"")),
            Case(b"find ", find(b"")),
            Case(b"find  c ", find(b" c ")),
            Case(b"find \xef\xbf\xbf", find(b"\xef\xbf\xbf")),
            Case(b"find find", find(b"find")),
        ],
    );
}

// A line that begins with none of the words is a name, with all that stands in it.
#[test]
fn names(rt: HostRuntime) {
    hold(
        &rt,
        &[
            Case(b"name cab", name(b"cab")),
            Case(b"name", name(b"")),
            Case(b"name ", name(b"")),
            Case(b"name  cab ", name(b" cab ")),
            Case(b"name find cab", name(b"find cab")),
            Case(b"name name", name(b"name")),
            Case(b"cab", name(b"cab")),
            Case(b" ", name(b" ")),
            Case(b"  cab ", name(b"  cab ")),
            Case(b" key a", name(b" key a")),
            Case(b"keys", name(b"keys")),
            Case(b"ke", name(b"ke")),
            Case(b"Key a", name(b"Key a")),
            Case(b"key\ta", name(b"key\ta")),
            Case(b"finder", name(b"finder")),
            Case(b"letters a 1 2 3", name(b"letters a 1 2 3")),
            Case(b"Letter a 1 2 3", name(b"Letter a 1 2 3")),
            Case(b" letter a 1 2 3", name(b" letter a 1 2 3")),
            Case(b"K\xc3\xa4se", name(b"K\xc3\xa4se")),
            Case(b"\xe2\x82\xac 5", name(b"\xe2\x82\xac 5")),
            Case(b"\x00", name(b"\x00")),
            Case(b"\r", name(b"\r")),
        ],
    );
}

#[test]
fn unreadable(rt: HostRuntime) {
    hold(
        &rt,
        &[
            Case(b"letter", Line::Unreadable),
            Case(b"letter ", Line::Unreadable),
            Case(b"letter ab 1 2 3", Line::Unreadable),
            Case(b"letter \xc3\xa4\xc3\xb6 1 2 3", Line::Unreadable),
            Case(b"letter a\xe2\x82\xac 1 2 3", Line::Unreadable),
            Case(b"letter  1 2 3", Line::Unreadable),
            Case(b"letter a  1 2 3", Line::Unreadable),
            Case(b"letter a 1 2 3 ", Line::Unreadable),
            Case(b"letter a 1 2 3 4", Line::Unreadable),
            Case(b"letter a 1 2", Line::Unreadable),
            Case(b"letter a 1  3", Line::Unreadable),
            Case(b"letter a 1 2 3\r", Line::Unreadable),
        ],
    );
}

#[test]
fn bad_numbers(rt: HostRuntime) {
    hold(
        &rt,
        &[
            Case(b"letter a 65536 2 3", Line::Unreadable),
            Case(b"letter a 1 18446744073709551617 3", Line::Unreadable),
            Case(b"letter a +1 2 3", Line::Unreadable),
            Case(b"letter a -1 2 3", Line::Unreadable),
            Case(b"letter a 1.0 2 3", Line::Unreadable),
        ],
    );
}

// The first byte at which no letter can be read, whatever the line is, and whatever else is wrong with it.
#[test]
fn damaged(rt: HostRuntime) {
    hold(
        &rt,
        &[
            Case(b"\xff", Line::NotUtf8(0)),
            Case(b" \x80", Line::NotUtf8(1)),
            Case(b"letter \xff 1 2 3", Line::NotUtf8(7)),
            Case(b"letter \xc3 1 2 3", Line::NotUtf8(7)),
            Case(b"letter \xc3\xbc 1 2 3\x80", Line::NotUtf8(15)),
            Case(b"letter ab 1 \xed\xa0\x80", Line::NotUtf8(12)),
            Case(b"pair \xe2\x82 h 1 2 3", Line::NotUtf8(5)),
            Case(b"pair \xff", Line::NotUtf8(5)),
            Case(b"find c\xf0\x9f\x98\x80", Line::NotUtf8(6)),
            Case(b"key \xe2\x82\xac\xe2\x82", Line::NotUtf8(7)),
            Case(b"name \xc0\xaf\xff", Line::NotUtf8(5)),
            Case(b"name\xff", Line::NotUtf8(4)),
            Case(b"K\xc3\xa4s\xe4", Line::NotUtf8(4)),
        ],
    );
}

// Digits alone, as many as a `usize` holds.
#[test]
fn whole_numbers(rt: HostRuntime) {
    assert_eq!(rt; whole_number(b"0"), Some(0));
    assert_eq!(rt; whole_number(b"0070"), Some(70));
    assert_eq!(rt; whole_number(b"18446744073709551615"), Some(usize::MAX));
    assert_eq!(rt; whole_number(b"18446744073709551616"), None);
    assert_eq!(rt; whole_number(b""), None);
    assert_eq!(rt; whole_number(b"+1"), None);
    assert_eq!(rt; whole_number(b"-1"), None);
    assert_eq!(rt; whole_number(b"1a"), None);
    assert_eq!(rt; whole_number(b" 1"), None);
}

// One carriage return at the end is no part of the line.
#[test]
fn carriage_returns(rt: HostRuntime) {
    assert_eq!(rt; without_return(b"ab\r"), b"ab".as_slice());
    assert_eq!(rt; without_return(b"ab\r\r"), b"ab\r".as_slice());
    assert_eq!(rt; without_return(b"\rab"), b"\rab".as_slice());
    assert_eq!(rt; without_return(b"\r"), b"".as_slice());
    assert_eq!(rt; without_return(b""), b"".as_slice());
}

// The parts of a text at its line feeds, each at its place.
fn cut(rt: &impl Abort, text: &[u8], parts: &[&[u8]]) {
    for (place, part) in Parts::new(text, b'\n').enumerate() {
        assert!(rt; parts.get(place) == Some(&part));
    }
    assert_eq!(rt; Parts::new(text, b'\n').count(), parts.len());
}

#[test]
fn lines(rt: HostRuntime) {
    cut(&rt, b"key a\n\nkey b", &[b"key a", b"", b"key b"]);
    cut(&rt, b"", &[b""]);
    cut(&rt, b"key a\n", &[b"key a", b""]);
}
