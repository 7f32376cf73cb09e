// Reads a table and names, line after line, and answers with the names that begin so, in order, and with sort keys; where
// nothing is asked for, it sorts.
#![tactic(auto)]

mod answer;
mod argument;
mod comparing;
mod reading;
mod session;
mod writing;

use anyhow::anyhow;
use argument::{Argument, Options, asks_for, newer_asked, read_arguments};
use comparing::{Source, write_comparison};
use reading::{Tally, read_text, write_end};
use session::Session;
use std::io::{BufWriter, Read, Write};
use std::process::ExitCode;
use std::{env, fs, io};

const VERSION: &str = "nullahbowl 0.1.0\n";

const HELP: &str = "usage: nullahbowl [OPTION ..] [FILE ..]
       nullahbowl --newer OLD NEW

Reads lines from the files, or from standard input where none is named or the name is -:

  letter X a b c     the letter X weighs a, b and c; with six or nine weights it weighs as two or three letters do
  pair X Y a b c     the letters X and Y are one together, and weigh a, b and c
  run X Y Z a b c    the same of two to four letters; the longest met counts. Any other line that begins with run is a name
  find X             writes the names that begin as X, in order
  key X              writes the sort key of the name X
  name X             the name X; so is every other line, whole

Lines are in UTF-8, with letters up to U+FFFF. In lines of a table a letter may be written as U+ and its number: U+00FC.
Where nothing is asked for, writes all names in order. With no letter, pair or run line the built-in table is used: that of the
valley, in which a to z weigh as they stand and ch stands behind c.
What is turned away is said on standard error.

  --count        how many names are found or sorted, in place of the names
  --first N      at most the first N of the names found or sorted; not with --count
  --table        at the end the table, as the lines that make it, in place of all names
  --progress     says on standard error how far reading has come
  --help         this text
  --version      the version

With --newer, tests whether the table of NEW keeps what that of OLD says of the letters in OLD's lines. Where it does, all
names in these letters stand to each other as before; else the first test that fails is told.
";

fn main(rt: HostRuntime) -> anyhow::Result<ExitCode> {
    Ok(if run(&rt)? {
        ExitCode::SUCCESS
    } else {
        ExitCode::FAILURE
    })
}

// Does what the arguments say. Answers whether nothing was turned away, and a newer table keeps what the older says.
fn run(rt: &HostRuntime) -> anyhow::Result<bool> {
    let words = read_words(rt)?;
    if asks_for(&words, Argument::Help) {
        rt.print(HELP)?;
        return Ok(true);
    }
    if asks_for(&words, Argument::Version) {
        rt.print(VERSION)?;
        return Ok(true);
    }
    match newer_asked(&words)? {
        Some((older, newer)) => compare(rt, older, newer),
        None => read_all(rt, words),
    }
}

// The arguments, without the program's name.
fn read_words(rt: &HostRuntime) -> anyhow::Result<Vec<String>> {
    let mut words = Vec::new(rt.alloc());
    let all = env::args(rt).map_err(|why| anyhow!(
        "the arguments can't be read, each has to be UTF-8: {why}"
    ))?;
    for word in all.skip(1) {
        words.push(word)?;
    }
    Ok(words)
}

// Reads the files that the arguments name, and answers what they ask for; writes all names where they ask for nothing.
fn read_all(rt: &HostRuntime, words: Vec<String>) -> anyhow::Result<bool> {
    let (options, files) = read_arguments(words, rt.alloc())?;
    let mut session = Session::new(rt.alloc())?;
    let mut tally = Tally::default();
    if files.is_empty() {
        tally = read_named(rt, &mut session, "-", options)?;
    }
    for name in &files {
        tally = tally.and(read_named(rt, &mut session, name.as_str(), options)?);
    }
    let mut out = BufWriter::new(rt.alloc(), rt.stdout())?;
    write_end(&mut out, &mut session, rt.alloc(), tally.asked, options)?;
    out.flush()?;
    Ok(tally.faults == 0)
}

// Says whether a newer table keeps what the older one says of the letters that its lines name, or what stands otherwise.
fn compare(rt: &HostRuntime, older: &str, newer: &str) -> anyhow::Result<bool> {
    let mut old = Session::new(rt.alloc())?;
    let mut new = Session::new(rt.alloc())?;
    let options = Options::default();
    let tally = read_named(rt, &mut old, older, options)?.and(read_named(
        rt, &mut new, newer, options,
    )?);
    if tally.faults > 0 {
        eprintln!(rt;
            "{older} and {newer} are not compared, since something was turned away or could not be read"
        )?;
        return Ok(false);
    }
    let mut out = BufWriter::new(rt.alloc(), rt.stdout())?;
    let older = Source {
        name: older,
        session: &old,
    };
    let newer = Source {
        name: newer,
        session: &new,
    };
    let keeps = write_comparison(&mut out, older, newer)?;
    out.flush()?;
    Ok(keeps)
}

// Reads a file and answers what it asks for.
fn read_named(
    rt: &HostRuntime,
    session: &mut Session,
    name: &str,
    options: Options,
) -> anyhow::Result<Tally> {
    match read_bytes(rt, name) {
        Ok(text) => {
            let mut out = BufWriter::new(rt.alloc(), rt.stdout())?;
            let tally = read_text(rt, session, name, text.as_slice(), options, &mut out)?;
            out.flush()?;
            Ok(tally)
        }
        Err(why) => {
            eprintln!(rt; "{name}: {why}")?;
            Ok(Tally {
                faults: 1,
                asked: 0,
            })
        }
    }
}

// The bytes of a file, or of standard input where its name is `-`.
fn read_bytes(rt: &HostRuntime, name: &str) -> io::Result<Vec<u8>> {
    if name == "-" {
        let mut text = Vec::new(rt.alloc());
        rt.stdin().read_to_end(&mut text)?;
        return Ok(text);
    }
    fs::read(rt, name)
}
