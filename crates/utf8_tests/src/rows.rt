// Letters behind one another.
use utf8::{count_letters, first_letter};

// Bytes, and how many letters they are, or the first place at which none can be read.
#[derive(Clone, Copy)]
struct Row(&'static [u8], Result<usize, usize>);

#[test]
fn counted(rt: HostRuntime) {
    let rows = [
        Row(b"", Ok(0)),
        Row(b"ab", Ok(2)),
        // a, a with dots, the euro sign, z
        Row(b"a\xc3\xa4\xe2\x82\xacz", Ok(4)),
        Row(b"\xed\x9f\xbf\xee\x80\x80\x7f\xc2\x80", Ok(4)),
        // a byte that stands behind the first of a letter, alone
        Row(b"a\xc3\xa4\x80z", Err(3)),
        Row(b"\x80\xc3\xa4", Err(0)),
        // cut off at the end
        Row(b"a\xc3", Err(1)),
        Row(b"\xc3\xa4\xe2\x82", Err(2)),
        Row(b"\xe2\x82\xac\xe2", Err(3)),
        // cut off by another letter
        Row(b"a\xe2\x82z", Err(1)),
        Row(b"a\xe2\xc3\xa4", Err(1)),
        // longer than the shortest form, a surrogate, four bytes
        Row(b"ab\xc0\xaf", Err(2)),
        Row(b"ab\xe0\x80\xaf", Err(2)),
        Row(b"ab\xed\xa0\x80", Err(2)),
        Row(b"\xe2\x82\xac\xf0\x9f\x98\x80", Err(3)),
    ];
    for row in &rows {
        assert_eq!(rt; count_letters(row.0), row.1);
    }
}

// Reading goes on behind what was taken: of two letters, the bytes of one cut off one by one, and another letter.
#[test]
fn read_on(rt: HostRuntime) {
    let bytes = b"\xc3\xa4\xe2\x82\xac\xe2\x82z";
    assert_eq!(rt; first_letter(&bytes[0..8]), Some((0xe4, 2)));
    assert_eq!(rt; first_letter(&bytes[2..8]), Some((0x20ac, 3)));
    assert_eq!(rt; first_letter(&bytes[5..8]), Some((0x100e2, 1)));
    assert_eq!(rt; first_letter(&bytes[6..8]), Some((0x10082, 1)));
    assert_eq!(rt; first_letter(&bytes[7..8]), Some((0x7a, 1)));
    assert_eq!(rt; first_letter(&bytes[8..8]), None);
}
