// Where names stand to what is asked.
use crate::entries::entry;
use order::{Collate, Standing};
use std::test::Fail;
use table::{Pair, Table, TableBuf, Weights};

// What is asked, and how many names are before it and how many begin with it.
#[derive(Clone, Copy)]
struct Case(&'static [u8], usize, usize);

#[test]
fn valley(rt: HostRuntime) {
    let table = Table::valley();
    let names: [&[u8]; 7] = [b"cab", b"Cab", b"cab'", b"cad", b"cz", b"chad", b"da"];
    for case in [
        Case(b"", 0, 7),
        Case(b"'", 0, 7),
        Case(b"a", 0, 0),
        Case(b"c", 0, 5),
        Case(b"C", 0, 5),
        Case(b"ca", 0, 4),
        Case(b"CAB", 0, 3),
        Case(b"cab'", 0, 3),
        Case(b"c-a-b", 0, 3),
        Case(b"cabc", 3, 0),
        Case(b"cac", 3, 0),
        Case(b"cad", 3, 1),
        Case(b"cb", 4, 0),
        Case(b"cz", 4, 1),
        Case(b"ch", 5, 1),
        Case(b"c'h", 4, 0),
        Case(b"d", 6, 1),
        Case(b"da", 6, 1),
        Case(b"daa", 7, 0),
        Case(b"z", 7, 0),
    ] {
        for (i, name) in names.iter().enumerate() {
            let standing = if i < case.1 {
                Standing::Before
            } else if i - case.1 < case.2 {
                Standing::Begins
            } else {
                Standing::After
            };
            assert_eq!(rt; table.standing(name, case.0), standing);
        }
    }
}

// Names and questions that are empty on level one, and a pair that counts there where its letters don't.
#[test]
fn own_table(rt: HostRuntime) -> Result<(), Fail> {
    let mut own = TableBuf::new(rt.alloc())?;
    for (letter, weights) in [(97, [2, 0, 0]), (98, [0, 1, 1])] {
        own.add_letter(entry(letter, weights))?;
    }
    own.add_pair(Pair {
        first: 98,
        second: 98,
        weights: Weights::from([1, 0, 0]),
    })?;
    let table = own.table();
    assert_eq!(rt; table.standing(b"", b""), Standing::Begins);
    assert_eq!(rt; table.standing(b"", b"b"), Standing::Begins);
    assert_eq!(rt; table.standing(b"b", b"x"), Standing::Begins);
    assert_eq!(rt; table.standing(b"", b"a"), Standing::Before);
    assert_eq!(rt; table.standing(b"bx", b"bb"), Standing::Before);
    assert_eq!(rt; table.standing(b"bb", b"b"), Standing::Begins);
    assert_eq!(rt; table.standing(b"bb", b"a"), Standing::Before);
    assert_eq!(rt; table.standing(b"a", b"bb"), Standing::After);
    assert_eq!(rt; table.standing(b"bab", b"ab"), Standing::Begins);
    assert_eq!(rt; table.standing(b"bbb", b"xbxb"), Standing::Begins);
    assert_eq!(rt; table.standing(b"bbb", b"bbx"), Standing::Begins);
    assert_eq!(rt; table.standing(b"bb", b"bbbb"), Standing::Before);
    Ok(())
}
