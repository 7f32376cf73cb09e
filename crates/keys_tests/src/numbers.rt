// Which numbers a name's key has.
use keys::{KeyNumbers, Level, Row, Short, SortKeys};
use std::alloc::Global;
use std::process::Abort;
use std::test::Fail;
use table::{Letter, Pair, Table, TableBuf, Weights};

// A name and its key.
#[derive(Clone, Copy)]
pub(crate) struct Case(pub(crate) &'static [u8], pub(crate) &'static [u32]);

// Such are the keys of these names.
pub(crate) fn hold(
    rt: &impl Abort,
    heap: Global,
    table: &Table,
    cases: &[Case],
) -> Result<(), Fail> {
    for case in cases {
        hold_key(rt, heap, table, case.0, case.1)?;
    }
    Ok(())
}

// The numbers come one after the other, are as many as measured, and are those that are made and written, where there is room;
// and the rows are those of the key.
pub(crate) fn hold_key(
    rt: &impl Abort,
    heap: Global,
    table: &Table,
    name: &[u8],
    key: &[u32],
) -> Result<(), Fail> {
    assert!(rt; KeyNumbers::new(table, name).eq(key.iter().copied()));
    assert_eq!(rt; table.key_len(name), key.len());
    assert!(rt; table.sort_key(heap, name)?.as_slice() == key);
    let mut room = vec![in heap; 70000u32; key.len()]?;
    if let Some((_, short)) = room.split_last_mut() {
        assert_eq!(rt;
            table.write_key(name, short),
            Err(Short { needs: key.len() })
        );
    }
    assert!(rt; room.iter().all(|number| *number == 70000));
    assert_eq!(rt; table.write_key(name, &mut room), Ok(key.len()));
    assert!(rt; room.as_slice() == key);
    let mut rows = Vec::new(heap);
    for level in Level::ALL {
        if level != Level::Primary {
            rows.push(0)?;
        }
        for weight in Row::new(table, level, name) {
            rows.push(weight)?;
        }
    }
    assert!(rt; rows.as_slice() == key);
    Ok(())
}

#[test]
fn valley(rt: HostRuntime) -> Result<(), Fail> {
    hold(
        &rt,
        rt.alloc(),
        &Table::valley(),
        &[
            Case(b"cab", &[30, 10, 20, 0, 1, 1, 1, 0, 1, 1, 1]),
            Case(b"Cab", &[30, 10, 20, 0, 1, 1, 1, 0, 2, 1, 1]),
            Case(b"cab'", &[30, 10, 20, 0, 1, 1, 1, 2, 0, 1, 1, 1, 1]),
            Case(b"chad", &[35, 10, 40, 0, 1, 1, 1, 0, 1, 1, 1]),
            Case(b"da", &[40, 10, 0, 1, 1, 0, 1, 1]),
            Case(b"", &[0, 0]),
            Case(b"'", &[0, 2, 0, 1]),
            Case(b" ", &[0, 0, 1]),
            Case(b"\xff\x00", &[0, 0, 1, 1]),
            Case(b"z", &[260, 0, 1, 0, 1]),
            Case(b"CH", &[30, 80, 0, 1, 1, 0, 2, 2]),
        ],
    )?;
    Ok(())
}

// A pair is taken where it is met from the left, never from the right or within another.
#[test]
fn pairs_from_the_left(rt: HostRuntime) -> Result<(), Fail> {
    hold(
        &rt,
        rt.alloc(),
        &Table::valley(),
        &[
            Case(b"ch", &[35, 0, 1, 0, 1]),
            Case(b"cch", &[30, 35, 0, 1, 1, 0, 1, 1]),
            Case(b"chh", &[35, 80, 0, 1, 1, 0, 1, 1]),
            Case(b"ccch", &[30, 30, 35, 0, 1, 1, 1, 0, 1, 1, 1]),
            Case(b"chch", &[35, 35, 0, 1, 1, 0, 1, 1]),
            Case(b"c'h", &[30, 80, 0, 1, 2, 1, 0, 1, 1, 1]),
            Case(b"c", &[30, 0, 1, 0, 1]),
            Case(b"hc", &[80, 30, 0, 1, 1, 0, 1, 1]),
        ],
    )?;
    Ok(())
}

// Pairs that lap over each other, a pair that counts on one level only, and the largest weight.
#[test]
fn own_table(rt: HostRuntime) -> Result<(), Fail> {
    let heap = rt.alloc();
    let mut own = TableBuf::new(heap)?;
    for (letter, weights) in [(97, [1, 2, 3]), (98, [0, 0, 65535])] {
        own.add_letter(Letter {
            letter,
            weights: Weights::from(weights),
        }
        .into())?;
    }
    for (first, second, weights) in [
        (97, 97, [0, 7, 0]),
        (97, 98, [9, 0, 0]),
        (98, 98, [0, 0, 0]),
    ] {
        own.add_pair(Pair {
            first,
            second,
            weights: Weights::from(weights),
        })?;
    }
    hold(
        &rt,
        heap,
        &own.table(),
        &[
            Case(b"a", &[1, 0, 2, 0, 3]),
            Case(b"aa", &[0, 7, 0]),
            Case(b"aaa", &[1, 0, 7, 2, 0, 3]),
            Case(b"aab", &[0, 7, 0, 65535]),
            Case(b"ab", &[9, 0, 0]),
            Case(b"abb", &[9, 0, 0, 65535]),
            Case(b"bb", &[0, 0]),
            Case(b"bbb", &[0, 0, 65535]),
            Case(b"bbba", &[1, 0, 2, 0, 65535, 3]),
            Case(b"cd", &[0, 0]),
        ],
    )?;
    Ok(())
}

fn hold_row(rt: &impl Abort, table: &Table, name: &[u8], weights: &[u32]) {
    let mut row = Row::new(table, Level::Primary, name);
    for weight in weights {
        assert_eq!(rt; row.next(), Some(*weight));
    }
    assert_eq!(rt; row.next(), None);
    assert_eq!(rt; row.next(), None);
}

// A name from the middle of a text: letters before it and behind it are not seen.
#[test]
fn middle_of_a_text(rt: HostRuntime) {
    let table = Table::valley();
    let text = b"xxchadch";
    hold_row(&rt, &table, &text[2..6], &[35, 10, 40]);
    hold_row(&rt, &table, &text[0..3], &[240, 240, 30]);
    hold_row(&rt, &table, &text[0..4], &[240, 240, 35]);
    hold_row(&rt, &table, &text[3..7], &[80, 10, 40, 30]);
    hold_row(&rt, &table, &text[8..8], &[]);
}
