// What lines with the word `run` say.
use crate::read::{Case, ONE, find, hold, name, pair};
use std::process::Abort;
use table::{Long, LongRun, Pair, Weights};
use texts::{Command, Entry, Line};

fn three(first: u32, second: u32, third: u32) -> Line<'static> {
    long(first, second, third, None, ONE)
}

fn four(first: u32, second: u32, third: u32, fourth: u32) -> Line<'static> {
    long(first, second, third, Some(fourth), ONE)
}

fn long(
    first: u32,
    second: u32,
    third: u32,
    fourth: Option<u32>,
    weights: Weights,
) -> Line<'static> {
    let run = LongRun {
        first,
        second,
        third,
        fourth,
    };
    Line::Says(Command::Enter(Entry::Long(Long { run, weights })))
}

// A run of two letters is a pair.
#[test]
fn two_letters(rt: HostRuntime) {
    hold(
        &rt,
        &[
            Case(b"run c h 1 2 3", pair(99, 104)),
            Case(b"run c c 001 2 03", pair(99, 99)),
            Case(b"run U+0063 U+000068 1 2 3", pair(99, 104)),
            Case(b"run U + 1 2 3", pair(85, 43)),
            Case(b"run \xc3\xa4 \xe2\x82\xac 1 2 3", pair(228, 0x20ac)),
            Case(b"run U+dc00 U+FFFFFF 1 2 3", pair(0xdc00, 0xffffff)),
            Case(b"run U+0020 \t 1 2 3", pair(32, 9)),
            Case(
                b"run 1 2 3 4 5",
                Line::Says(Command::Enter(Entry::Pair(Pair {
                    first: 49,
                    second: 50,
                    weights: Weights {
                        primary: 3,
                        secondary: 4,
                        tertiary: 5,
                    },
                }))),
            ),
        ],
    );
}

#[test]
fn more_letters(rt: HostRuntime) {
    hold(
        &rt,
        &[
            Case(b"run d z s 1 2 3", three(100, 122, 115)),
            Case(b"run s z d 1 2 3", three(115, 122, 100)),
            Case(b"run a a a 1 2 3", three(97, 97, 97)),
            Case(b"run U+0064 U+007a s 1 2 3", three(100, 122, 115)),
            Case(
                b"run \xc3\xa4 \xe2\x82\xac \xef\xbf\xbf 1 2 3",
                three(228, 0x20ac, 0xffff),
            ),
            Case(
                b"run U+1F600 U+D800 U+ffffff 1 2 3",
                three(0x1f600, 0xd800, 0xffffff),
            ),
            Case(b"run d z s t 1 2 3", four(100, 122, 115, 116)),
            Case(b"run t s z d 001 2 3", four(116, 115, 122, 100)),
            Case(
                b"run U+0064 \xc5\xbe U+0073 U+0020 1 2 3",
                four(100, 0x17e, 115, 32),
            ),
            Case(
                b"run 1 2 3 45 65535 0",
                long(
                    49,
                    50,
                    51,
                    None,
                    Weights {
                        primary: 45,
                        secondary: 65535,
                        tertiary: 0,
                    },
                ),
            ),
            Case(
                b"run 1 2 3 4 5 6 7",
                long(
                    49,
                    50,
                    51,
                    Some(52),
                    Weights {
                        primary: 5,
                        secondary: 6,
                        tertiary: 7,
                    },
                ),
            ),
        ],
    );
}

// Lines that are names, whole.
fn hold_names(rt: &impl Abort, lines: &[&'static [u8]]) {
    for line in lines {
        assert_eq!(rt; Line::read(line), name(line));
    }
}

#[test]
fn too_few_or_many_words(rt: HostRuntime) {
    hold_names(
        &rt,
        &[
            b"run",
            b"run ",
            b"run  ",
            b"run 45 1 1",
            b"run 1 2 3 4",
            b"run d 45 1 1",
            b"run d z",
            b"run d z s t",
            b"run d z 45 1",
            b"run d z s 45 1",
            b"run d z s t 45 1",
            b"run d z s t u 45 1 1",
            b"run 1 2 3 4 5 6 7 8",
            b"run d z s t u v w x y 45 1 1",
        ],
    );
}

#[test]
fn other_forms(rt: HostRuntime) {
    hold_names(
        &rt,
        &[
            b"running",
            b"running d z s 45 1 1",
            b"ru d z s 45 1 1",
            b"Run d z s 45 1 1",
            b" run d z s 45 1 1",
            b"run\td z s 45 1 1",
            b"run  d z s 45 1 1",
            b"run d  z s 45 1 1",
            b"run d z  45 1 1",
            b"run d z s 45  1",
            b"run d z s 45 1 1 ",
            b"run d z s 45 1 1\r",
            b"run d z s t 45 1 1 ",
            b"run dz s 45 1 1",
            b"run d zs 45 1 1",
            b"run d z st 45 1 1",
            b"run d z s tu 45 1 1",
            b"run d z \xc3\xa4\xc3\xb6 45 1 1",
            b"run d U+041 45 1 1",
            b"run d z U+0000041 45 1 1",
            b"run d z s U-0041 45 1 1",
            b"run d z 65536 1 1",
            b"run d z s 45 65536 1",
            b"run d z s t 45 1 18446744073709551617",
            b"run d z +45 1 1",
            b"run d z s 45 -1 1",
            b"run d z s t 45 1 +1",
            b"run d z s 45 1.0 1",
            b"run d z s 45 x 1",
        ],
    );
}

// A run behind another word is what that word says.
#[test]
fn behind_words(rt: HostRuntime) {
    hold(
        &rt,
        &[
            Case(b"name run d z s 45 1 1", name(b"run d z s 45 1 1")),
            Case(b"name run", name(b"run")),
            Case(b"find run d z 45 1 1", find(b"run d z 45 1 1")),
            Case(b"pair run h 1 2 3", Line::Unreadable),
        ],
    );
}

#[test]
fn damaged(rt: HostRuntime) {
    hold(
        &rt,
        &[
            Case(b"run\xff", Line::NotUtf8(3)),
            Case(b"run d \xff 45 1 1", Line::NotUtf8(6)),
            Case(b"run d z \xed\xa0\x80 45 1 1", Line::NotUtf8(8)),
            Case(b"run d z \xf0\x9f\x98\x80 45 1 1", Line::NotUtf8(8)),
            Case(b"run d z s 45 1 1\x80", Line::NotUtf8(16)),
        ],
    );
}
