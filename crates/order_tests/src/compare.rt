// Which of two names is before the other.
use crate::entries::entry;
use keys::SortKeys;
use order::Collate;
use std::alloc::Global;
use std::cmp::Ordering;
use std::process::Abort;
use std::test::Fail;
use table::{Table, TableBuf};

// Of these names each is before all those behind it, and their keys say so too.
pub(crate) fn in_order(
    rt: &impl Abort,
    heap: Global,
    table: &Table,
    names: &[&[u8]],
) -> Result<(), Fail> {
    for (i, one) in names.iter().enumerate() {
        for (j, other) in names.iter().enumerate() {
            assert_eq!(rt; table.compare(one, other), i.cmp(&j));
            let keys = (table.sort_key(heap, one)?, table.sort_key(heap, other)?);
            assert_eq!(rt; keys.0.cmp(&keys.1), i.cmp(&j));
        }
    }
    Ok(())
}

#[test]
fn valley(rt: HostRuntime) -> Result<(), Fail> {
    in_order(
        &rt,
        rt.alloc(),
        &Table::valley(),
        &[
            b"", b"\x00", b" \xff", b"'", b"a", b"a ", b"a'", b"cab", b"Cab", b"cab'", b"cad",
            b"cz", b"chad", b"da", b"z",
        ],
    )
}

// Of names with the same key neither is before the other, whatever their letters.
#[test]
fn same_keys(rt: HostRuntime) {
    let table = Table::valley();
    for (one, other) in [(b"\x00", b"\xff"), (b"!", b"?")] {
        assert_eq!(rt; table.compare(one, other), Ordering::Equal);
        assert_eq!(rt; table.compare(other, one), Ordering::Equal);
    }
    assert_eq!(rt; table.compare(b"a-b", b"a b"), Ordering::Equal);
    assert_eq!(rt; table.compare(b"-ab", b"ab-"), Ordering::Equal);
    assert_eq!(rt; table.compare(b"A-", b"A."), Ordering::Equal);
    assert_eq!(rt; table.compare(b"a", b"a"), Ordering::Equal);
    assert_eq!(rt; table.compare(b"", b""), Ordering::Equal);
}

// Letters that count nowhere may stand at either end, and alone.
#[test]
fn ignored_letters(rt: HostRuntime) -> Result<(), Fail> {
    let mut own = TableBuf::new(rt.alloc())?;
    for (letter, weights) in [(97, [1, 1, 1]), (98, [2, 0, 0])] {
        own.add_letter(entry(letter, weights))?;
    }
    let table = own.table();
    assert_eq!(rt; table.compare(b"xa", b"a"), Ordering::Equal);
    assert_eq!(rt; table.compare(b"ax", b"a"), Ordering::Equal);
    assert_eq!(rt; table.compare(b"x", b""), Ordering::Equal);
    assert_eq!(rt; table.compare(b"xyz", b"y"), Ordering::Equal);
    assert_eq!(rt; table.compare(b"xax", b"axb"), Ordering::Less);
    assert_eq!(rt; table.compare(b"b", b"bx"), Ordering::Equal);
    assert_eq!(rt; table.compare(b"ba", b"bb"), Ordering::Less);
    assert_eq!(rt; table.compare(b"b", b"xa"), Ordering::Greater);
    Ok(())
}

// A level counts only where those before it are the same all along both names.
#[test]
fn level_after_level(rt: HostRuntime) {
    let table = Table::valley();
    assert_eq!(rt; table.compare(b"Ab", b"aC"), Ordering::Less);
    assert_eq!(rt; table.compare(b"a'b", b"ac"), Ordering::Less);
    assert_eq!(rt; table.compare(b"aB", b"Ab"), Ordering::Less);
    assert_eq!(rt; table.compare(b"A'b", b"ab'"), Ordering::Greater);
    assert_eq!(rt; table.compare(b"a'b", b"Ab'"), Ordering::Greater);
}
