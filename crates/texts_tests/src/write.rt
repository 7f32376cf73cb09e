// How commands, messages and numbers are written.
use keys::{Level, NameRefusal};
use order::{Change, Piece};
use std::test::Fail;
use table::{LetterEntry, Long, LongRun, Pair, Refusal, Triples, Weights};
use texts::{Command, Entry, Fault, Line, Numbers, Told, without_return};

const ONE: Weights = Weights {
    primary: 1,
    secondary: 0,
    tertiary: 65535,
};

#[test]
fn entries(rt: HostRuntime) -> Result<(), Fail> {
    let heap = rt.alloc();
    for Text(number, text) in [
        Text(0, "letter U+0000 1 0 65535"),
        Text(33, "letter ! 1 0 65535"),
        Text(255, "letter U+00FF 1 0 65535"),
        Text(0xabc, "letter U+0ABC 1 0 65535"),
        Text(0xffff, "letter U+FFFF 1 0 65535"),
        Text(0x10000, "letter U+10000 1 0 65535"),
        Text(0x10ffff, "letter U+10FFFF 1 0 65535"),
        Text(u32::MAX, "letter U+FFFFFFFF 1 0 65535"),
    ] {
        let written = letter(number).to_string(heap)?;
        assert_eq!(rt; written.as_str(), text);
    }
    let near = pair(32, 126).to_string(heap)?;
    assert_eq!(rt; near.as_str(), "pair U+0020 ~ 1 0 65535");
    let wide = pair(127, 43981).to_string(heap)?;
    assert_eq!(rt; wide.as_str(), "pair U+007F U+ABCD 1 0 65535");
    let large = pair(0x20ac, 0x1f600).to_string(heap)?;
    assert_eq!(rt; large.as_str(), "pair U+20AC U+1F600 1 0 65535");
    let three = long(100, 0x20ac, 115, None).to_string(heap)?;
    assert_eq!(rt; three.as_str(), "run d U+20AC s 1 0 65535");
    let four = long(32, 126, 0x1f600, Some(43)).to_string(heap)?;
    assert_eq!(rt; four.as_str(), "run U+0020 ~ U+1F600 + 1 0 65535");
    Ok(())
}

// A letter, and the line that enters it.
#[derive(Clone, Copy)]
struct Text(u32, &'static str);

fn letter(letter: u32) -> Entry {
    Entry::Letter(LetterEntry {
        letter,
        weights: Triples::One(ONE),
    })
}

fn pair(first: u32, second: u32) -> Entry {
    Entry::Pair(Pair {
        first,
        second,
        weights: ONE,
    })
}

fn long(first: u32, second: u32, third: u32, fourth: Option<u32>) -> Entry {
    Entry::Long(Long {
        run: LongRun {
            first,
            second,
            third,
            fourth,
        },
        weights: ONE,
    })
}

// A command, and the line that says it.
#[derive(Clone, Copy)]
struct Case(Command<'static>, &'static [u8]);

// Commands are written as lines, which are read again as the same.
#[test]
fn commands(rt: HostRuntime) -> Result<(), Fail> {
    for Case(command, line) in [
        Case(Command::Find(b"c h"), b"find c h"),
        Case(Command::Find(b""), b"find "),
        Case(Command::Key(b" "), b"key  "),
        Case(Command::Name(b"cab"), b"name cab"),
        Case(Command::Name(b"find c"), b"name find c"),
        Case(Command::Name(b"\x00\xc3\xbc\r "), b"name \x00\xc3\xbc\r "),
        Case(Command::Find(b"\xef\xbf\xbf"), b"find \xef\xbf\xbf"),
        Case(Command::Enter(letter(32)), b"letter U+0020 1 0 65535"),
        Case(Command::Enter(letter(0xd800)), b"letter U+D800 1 0 65535"),
        Case(
            Command::Enter(letter(0xffffff)),
            b"letter U+FFFFFF 1 0 65535",
        ),
        Case(
            Command::Enter(pair(0x20ac, 0x1f600)),
            b"pair U+20AC U+1F600 1 0 65535",
        ),
        Case(
            Command::Enter(pair(10, 13)),
            b"pair U+000A U+000D 1 0 65535",
        ),
        Case(
            Command::Enter(long(49, 50, 51, None)),
            b"run 1 2 3 1 0 65535",
        ),
        Case(
            Command::Enter(long(85, 32, 0x20ac, None)),
            b"run U U+0020 U+20AC 1 0 65535",
        ),
        Case(
            Command::Enter(long(100, 122, 115, Some(116))),
            b"run d z s t 1 0 65535",
        ),
        Case(
            Command::Enter(long(10, 13, 0xffffff, Some(0xd800))),
            b"run U+000A U+000D U+FFFFFF U+D800 1 0 65535",
        ),
        Case(Command::Name(b"run d z s 45 1 1"), b"name run d z s 45 1 1"),
        Case(Command::Name(b"run"), b"name run"),
    ] {
        let written = command.to_line(rt.alloc())?;
        assert_eq!(rt; written.as_slice(), line);
        assert_eq!(rt; Line::read(without_return(&written)), Line::Says(command));
    }
    Ok(())
}

// What can't stand in a line is written, and not read again.
#[test]
fn not_read_again(rt: HostRuntime) -> Result<(), Fail> {
    let heap = rt.alloc();
    let seven = Command::Enter(letter(0x1000000)).to_line(heap)?;
    assert_eq!(rt; seven.as_slice(), b"letter U+1000000 1 0 65535".as_slice());
    assert_eq!(rt; Line::read(&seven), Line::Unreadable);
    let run = Command::Enter(long(100, 122, 0x1000000, None)).to_line(heap)?;
    let text = b"run d z U+1000000 1 0 65535".as_slice();
    assert_eq!(rt; run.as_slice(), text);
    assert_eq!(rt; Line::read(&run), Line::Says(Command::Name(text)));
    let damaged = Command::Key(b"a\xff").to_line(heap)?;
    assert_eq!(rt; damaged.as_slice(), b"key a\xff".as_slice());
    assert_eq!(rt; Line::read(&damaged), Line::NotUtf8(5));
    Ok(())
}

// What is turned away, and the message.
#[derive(Clone, Copy)]
struct Said(Fault, &'static str);

#[test]
fn messages(rt: HostRuntime) -> Result<(), Fail> {
    let heap = rt.alloc();
    for Said(fault, text) in [
        Said(
            Fault::Table(Refusal::Twice(17)),
            "turned away with 1 at 17: these letters are one together already",
        ),
        Said(
            Fault::Table(Refusal::TooMany),
            "turned away with 1 at 0: a table has at most 200 pairs and longer runs",
        ),
        Said(
            Fault::Table(Refusal::Foreign(2)),
            "turned away with 1 at 2: the letters of a pair or a longer run are at most U+FFFF, and U+00FF where each byte is one",
        ),
        Said(
            Fault::Table(Refusal::RunLength(3)),
            "turned away with 6 at 3: a run has two to four letters",
        ),
        Said(
            Fault::Table(Refusal::TooManyTriples(4)),
            "turned away with 7 at 4: a letter weighs as three at the most",
        ),
        Said(
            Fault::Table(Refusal::TooManyLetters),
            "turned away with 4 at 2000: a table has at most 2000 letters that weigh something",
        ),
        Said(
            Fault::Table(Refusal::NoLetter(5)),
            "turned away with 4 at 5: letters are U+0000 to U+FFFF, without U+D800 to U+DFFF",
        ),
        Said(
            Fault::Table(Refusal::LetterTwice(7)),
            "turned away with 4 at 7: this letter weighs something already",
        ),
        Said(
            Fault::Name(NameRefusal::TooLong(1001)),
            "turned away with 2 at 1001: a name has at most 1000 letters",
        ),
        Said(
            Fault::Name(NameRefusal::NotUtf8(3)),
            "turned away with 5 at 3: names are bytes in UTF-8, with letters up to U+FFFF",
        ),
        Said(
            Fault::Question(NameRefusal::TooLong(2000)),
            "turned away with 2 at 2000: a name that is asked about has at most 1000 letters",
        ),
        Said(
            Fault::Question(NameRefusal::NotUtf8(0)),
            "turned away with 5 at 0: names are bytes in UTF-8, with letters up to U+FFFF",
        ),
        Said(
            Fault::Text(1),
            "turned away with 3 at 1: a line that begins so is 'letter X a b c', with six or nine weights where X weighs as two or three, or 'pair X Y a b c', one space between, letters as themselves or as U+ and four to six hexadecimal digits, weights up to 65535; a name that begins so needs 'name ' in front",
        ),
        Said(
            Fault::Bytes(9),
            "turned away with 5 at 9: names are bytes in UTF-8, with letters up to U+FFFF",
        ),
    ] {
        let message = fault.to_string(heap)?;
        assert_eq!(rt; message.as_str(), text);
    }
    assert_eq!(rt; Fault::Text(0).number(), 3);
    assert_eq!(rt; Fault::Text(9).place(), 9);
    assert_eq!(rt; Fault::Bytes(0).number(), 5);
    assert_eq!(rt; Fault::Bytes(7).place(), 7);
    Ok(())
}

#[test]
fn numbers(rt: HostRuntime) -> Result<(), Fail> {
    let heap = rt.alloc();
    assert_eq!(rt; Numbers(&[]).to_string(heap)?.as_str(), "");
    assert_eq!(rt; Numbers(&[0]).to_string(heap)?.as_str(), "0");
    assert_eq!(rt;
        Numbers(&[30, 0, 4294967295]).to_string(heap)?.as_str(),
        "30 0 4294967295"
    );
    Ok(())
}

#[test]
fn changes(rt: HostRuntime) -> Result<(), Fail> {
    let heap = rt.alloc();
    let pair = Piece::Pair(99, 32);
    let mark = Piece::Letter(0x20ac);
    let reads = Told(Change::Utf8).to_string(heap)?;
    assert_eq!(rt;
        reads.as_str(),
        "names are in UTF-8 under only one of the tables"
    );
    let together = Told(Change::Joins(pair)).to_string(heap)?;
    assert_eq!(rt;
        together.as_str(),
        "c U+0020 are one together in only one of the tables"
    );
    let counts = Told(Change::Counts(mark, Level::Secondary)).to_string(heap)?;
    assert_eq!(rt;
        counts.as_str(),
        "U+20AC weighs 0 on level 2 in only one of the tables"
    );
    let order = Told(Change::Order(mark, pair, Level::Tertiary)).to_string(heap)?;
    assert_eq!(rt;
        order.as_str(),
        "U+20AC and c U+0020 stand otherwise on level 3"
    );
    let three = Piece::Three(100, 122, 115);
    let four = Piece::Four(116, 32, 0x20ac, 104);
    let runs = Told(Change::Order(four, three, Level::Primary)).to_string(heap)?;
    assert_eq!(rt;
        runs.as_str(),
        "t U+0020 U+20AC h and d z s stand otherwise on level 1"
    );
    let joined = Told(Change::Joins(three)).to_string(heap)?;
    assert_eq!(rt;
        joined.as_str(),
        "d z s are one together in only one of the tables"
    );
    let expands = Told(Change::Expands(Piece::Letter(0xdf))).to_string(heap)?;
    assert_eq!(rt;
        expands.as_str(),
        "U+00DF weighs as another number of letters than before"
    );
    Ok(())
}
