// The borders of the ranges of bytes, and of letters.
use std::process::Abort;
use utf8::{count_letters, first_letter, follows, is_letter};

// Bytes that are one letter, and which.
#[derive(Clone, Copy)]
struct Letter(&'static [u8], u32);

// The whole letter is read, and is all that is counted.
fn is_read(rt: &impl Abort, cases: &[Letter]) {
    for case in cases {
        assert_eq!(rt; first_letter(case.0), Some((case.1, case.0.len())));
        assert_eq!(rt; count_letters(case.0), Ok(1));
    }
}

#[test]
fn letters(rt: HostRuntime) {
    is_read(
        &rt,
        &[
            Letter(b"\x00", 0),
            Letter(b"\x7f", 0x7f),
            Letter(b"\xc2\x80", 0x80),
            Letter(b"\xc2\xbf", 0xbf),
            Letter(b"\xc3\x80", 0xc0),
            Letter(b"\xdf\xbf", 0x7ff),
            Letter(b"\xe0\xa0\x80", 0x800),
            Letter(b"\xe0\xbf\xbf", 0xfff),
            Letter(b"\xe1\x80\x80", 0x1000),
            Letter(b"\xec\xbf\xbf", 0xcfff),
            Letter(b"\xed\x80\x80", 0xd000),
            Letter(b"\xed\x9f\xbf", 0xd7ff),
            Letter(b"\xee\x80\x80", 0xe000),
            Letter(b"\xef\xbf\xbf", 0xffff),
        ],
    );
}

// No letter can be read at the first byte, which is taken alone.
#[test]
fn no_letters(rt: HostRuntime) {
    let cases: [&[u8]; 35] = [
        b"\x80",
        b"\xbf",
        b"\xbf\x80",
        b"\xc0\x80",
        b"\xc1\xbf",
        b"\xc2",
        b"\xc2\x7f",
        b"\xc2\xc0",
        b"\xdf",
        b"\xdf\x7f\x80",
        b"\xdf\xc0",
        b"\xe0",
        b"\xe0\x9f",
        b"\xe0\x9f\xbf",
        b"\xe0\xa0",
        b"\xe0\xa0\x7f",
        b"\xe0\xc0\x80",
        b"\xe1\x7f\x80",
        b"\xe1\x80",
        b"\xe1\x80\x7f",
        b"\xe1\x80\xc0",
        b"\xe1\xc0\x80",
        b"\xec\xbf",
        b"\xed\x7f\x80",
        b"\xed\x9f",
        b"\xed\x9f\xc0",
        b"\xed\xa0\x80",
        b"\xed\xbf\xbf",
        b"\xee\x7f\x80",
        b"\xef\xbf",
        b"\xef\xbf\xc0",
        b"\xf0\x90\x80\x80",
        b"\xf4\x8f\xbf\xbf",
        b"\xf8\x88\x80\x80",
        b"\xff\xbf\xbf",
    ];
    for case in &cases {
        for byte in case.iter().take(1) {
            assert_eq!(rt; first_letter(case), Some((0x10000 + *byte as u32, 1)));
        }
        assert_eq!(rt; count_letters(case), Err(0));
    }
}

#[test]
fn bytes_behind(rt: HostRuntime) {
    for byte in [0x80u8, 0x9f, 0xa0, 0xbf] {
        assert!(rt; follows(byte));
    }
    for byte in [0u8, 0x7f, 0xc0, 0xc2, 0xe0, 0xf0, 0xff] {
        assert!(rt; !follows(byte));
    }
}

#[test]
fn numbers(rt: HostRuntime) {
    for letter in [0u32, 0x7f, 0x80, 0xd7ff, 0xe000, 0xffff] {
        assert!(rt; is_letter(letter));
    }
    for number in [
        0xd800u32, 0xdbff, 0xdc00, 0xdfff, 0x10000, 0x10080, 0xffffffff,
    ] {
        assert!(rt; !is_letter(number));
    }
}
