// What the arguments say: how answers are given, and the files that are read.
ghost use Rattle.std.specs.Prelude.{◌≡◌, ◌↔◌, [], IfOk, IsTrue, false, map, vec_items};
ghost use Rattle.std.specs.List.{Any};
ghost use Rattle.std.specs.String.{string_bytes};
ghost use Rattle.nullahbowl.specs.Arguments.{GoTogether, IsCount, NewerAsked, Say, TwoFiles, argument_of, no_options};

use anyhow::anyhow;
use std::alloc::Global;
use texts::whole_number;

#[derive(Clone, Copy, PartialEq, Eq, Debug)]
pub enum Argument {
    Help,
    Version,
    Progress,
    Table,
    Count,
    First,
    Newer,
    // It begins as an option does, and is none.
    Unknown,
    // The name of a file, or `-`.
    File,
}

// How answers are given.
#[derive(Clone, Copy, Default)]
pub struct Options {
    // How many names are found, in place of the names.
    pub count: bool,
    // At most so many names.
    pub first: Option<usize>,
    // The table in place of all names.
    pub table: bool,
    // How far reading has come is said.
    pub progress: bool,
}

impl Argument {
    pub fn of(word: &str) -> Argument
        ensures { result ≡ argument_of word.now }
    {
        match word {
            "--help" => Argument::Help,
            "--version" => Argument::Version,
            "--progress" => Argument::Progress,
            "--table" => Argument::Table,
            "--count" => Argument::Count,
            "--first" => Argument::First,
            "--newer" => Argument::Newer,
            _ if word.starts_with("--") => Argument::Unknown,
            _ => Argument::File,
        }
    }
}

// Whether a word is this argument.
fn is(word: &String, wanted: Argument) -> bool
    ensures { IsTrue result ↔ argument_of (string_bytes word.now) ≡ wanted }
{
    Argument::of(word.as_str()) == wanted
}

// Whether one of the words is this argument.
pub fn asks_for(words: &[String], wanted: Argument) -> bool
    ensures { IsTrue result ↔ Any (λ word. argument_of (string_bytes word) ≡ wanted) words.now }
{
    words.iter().any(|word| is(word, wanted))
}

// The two tables that `--newer` names, where it is the first argument.
pub fn newer_asked(words: &[String]) -> anyhow::Result<Option<(&str, &str)>>
    ensures { NewerAsked (map string_bytes words.now) result }
{
    match words {
        [first, others @ ..] if is(first, Argument::Newer) => Ok(Some(two_files(others)?)),
        _ => Ok(None),
    }
}

// Two files and nothing else, and only one of them from standard input.
fn two_files(words: &[String]) -> anyhow::Result<(&str, &str)>
    ensures { TwoFiles (map string_bytes words.now) result }
{
    match words {
        [older, newer] if is(older, Argument::File) && is(newer, Argument::File) => {
            if older.as_str() == "-" && newer.as_str() == "-" {
                return Err(anyhow!("--newer can read only one of the two from standard input"));
            }
            Ok((older.as_str(), newer.as_str()))
        }
        _ => Err(anyhow!("--newer wants two files and no other option: OLD NEW")),
    }
}

// What the arguments say of the answers, and the files that they name.
pub fn read_arguments(words: Vec<String>, heap: Global) -> anyhow::Result<(Options, Vec<String>)>
    ensures { IfOk result (λ r. Say no_options [] (map string_bytes (vec_items words)) false r.0 (map string_bytes (vec_items r.1)) × GoTogether r.0) }
{
    let mut options = Options::default();
    let mut files = Vec::new(heap);
    let mut words = words.into_iter();
    while let Some(word) = words.next() {
        options = match Argument::of(word.as_str()) {
            Argument::File => {
                files.push(word)?;
                options
            }
            Argument::Count => Options {
                count: true,
                ..options
            },
            Argument::Table => Options {
                table: true,
                ..options
            },
            Argument::Progress => Options {
                progress: true,
                ..options
            },
            Argument::First => Options {
                first: Some(number_behind(words.next())?),
                ..options
            },
            Argument::Newer => return Err(anyhow!("--newer has to be the first argument")),
            Argument::Unknown => return Err(anyhow!("{word} is no option; --help lists them")),
            // These were looked for before.
            Argument::Help | Argument::Version => options,
        };
    }
    if options.count && options.first.is_some() {
        return Err(anyhow!("--count and --first don't go together"));
    }
    Ok((options, files))
}

// The number behind `--first`.
fn number_behind(word: Option<String>) -> anyhow::Result<usize>
    ensures { IfOk result (λ n. (w : _) × (word ≡ Some w) × IsCount (string_bytes w) n) }
{
    if let Some(word) = word
        && let Some(number) = whole_number(word.as_bytes())
    {
        return Ok(number);
    }
    Err(anyhow!("--first wants a number of at most 18446744073709551615 behind it, in digits"))
}
