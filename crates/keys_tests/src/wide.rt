// Names in UTF-8.
use crate::numbers::{Case, hold};
use keys::{KeyError, NameRefusal, SortKeys, count_in, first_in, one_byte};
use std::alloc::Global;
use std::test::Fail;
use table::{Letter, Pair, Table, TableBuf, Weights};

// e, l, m, r, u; 252 (C3 BC), which weighs as u but on the second level; 353 (C5 A1), 8364 (E2 82 AC) and 65535 (EF BF BF); 769
// (CC 81) weighs nothing. Two letters 353 are one together, 8364 with u, and the letters 195 and 188.
fn own(heap: Global) -> Result<TableBuf, Fail> {
    let mut own = TableBuf::in_utf8(heap)?;
    for (letter, weights) in [
        (101, [40, 1, 1]),
        (108, [30, 1, 1]),
        (109, [10, 1, 1]),
        (114, [50, 1, 1]),
        (117, [20, 1, 1]),
        (252, [20, 2, 1]),
        (65535, [70, 0, 0]),
        (353, [60, 1, 1]),
        (8364, [0, 3, 0]),
    ] {
        own.add_letter(Letter {
            letter,
            weights: Weights::from(weights),
        }
        .into())?;
    }
    for (first, second, weights) in [
        (353, 353, [65, 1, 2]),
        (8364, 117, [0, 0, 9]),
        (195, 188, [99, 9, 9]),
    ] {
        own.add_pair(Pair {
            first,
            second,
            weights: Weights::from(weights),
        })?;
    }
    Ok(own)
}

#[test]
fn letters(rt: HostRuntime) -> Result<(), Fail> {
    let own = own(rt.alloc())?;
    hold(
        &rt,
        rt.alloc(),
        &own.table(),
        &[
            Case(b"", &[0, 0]),
            Case(
                b"muller",
                &[
                    10, 20, 30, 30, 40, 50, 0, 1, 1, 1, 1, 1, 1, 0, 1, 1, 1, 1, 1, 1,
                ],
            ),
            Case(
                b"m\xc3\xbcller",
                &[
                    10, 20, 30, 30, 40, 50, 0, 1, 2, 1, 1, 1, 1, 0, 1, 1, 1, 1, 1, 1,
                ],
            ),
            Case(b"\xc3\xbc", &[20, 0, 2, 0, 1]),
            Case(b"\xc5\xa1", &[60, 0, 1, 0, 1]),
            Case(b"\xe2\x82\xac", &[0, 3, 0]),
            Case(b"\xef\xbf\xbf", &[70, 0, 0]),
            Case(b"\xcc\x81", &[0, 0]),
            Case(b"x\xef\xbf\xbe\xc3\xbd", &[0, 0]),
            Case(
                b"u\xe2\x82\xac\xef\xbf\xbfl",
                &[20, 70, 30, 0, 1, 3, 1, 0, 1, 1],
            ),
        ],
    )?;
    Ok(())
}

// A pair is of letters, and not of their bytes.
#[test]
fn pairs(rt: HostRuntime) -> Result<(), Fail> {
    let own = own(rt.alloc())?;
    hold(
        &rt,
        rt.alloc(),
        &own.table(),
        &[
            Case(b"\xc5\xa1\xc5\xa1", &[65, 0, 1, 0, 2]),
            Case(b"\xc5\xa1\xc5\xa1\xc5\xa1", &[65, 60, 0, 1, 1, 0, 2, 1]),
            Case(
                b"\xc5\xa1\xc5\xa1\xc5\xa1\xc5\xa1m",
                &[65, 65, 10, 0, 1, 1, 1, 0, 2, 2, 1],
            ),
            Case(b"\xc5\xa1\xcc\x81\xc5\xa1", &[60, 60, 0, 1, 1, 0, 1, 1]),
            Case(b"\xe2\x82\xacu", &[0, 0, 9]),
            Case(b"u\xe2\x82\xac", &[20, 0, 1, 3, 0, 1]),
            Case(b"u\xe2\x82\xacuu", &[20, 20, 0, 1, 1, 0, 1, 9, 1]),
            Case(b"\xe2\x82\xac\xc3\xbc", &[20, 0, 3, 2, 0, 1]),
            Case(b"\xc3\x83\xc2\xbc", &[99, 0, 9, 0, 9]),
            Case(b"\xc3\x83\xc3\xbc", &[20, 0, 2, 0, 1]),
        ],
    )?;
    Ok(())
}

// A name, the first byte at which no letter can be read, and the key of the letters that can.
#[derive(Clone, Copy)]
struct Damaged(&'static [u8], usize, &'static [u32]);

// Such a byte weighs nothing and is one with no letter; a key of its own is not made of such a name.
#[test]
fn damaged_names(rt: HostRuntime) -> Result<(), Fail> {
    let own = own(rt.alloc())?;
    let table = own.table();
    for case in [
        Damaged(b"\xff", 0, &[0, 0]),
        Damaged(b"m\xc3", 1, &[10, 0, 1, 0, 1]),
        Damaged(b"m\xc3u", 1, &[10, 20, 0, 1, 1, 0, 1, 1]),
        Damaged(b"\xbcm", 0, &[10, 0, 1, 0, 1]),
        Damaged(b"\xc3\xc3\xbc", 0, &[20, 0, 2, 0, 1]),
        Damaged(b"\xc3\xbc\xbc", 2, &[20, 0, 2, 0, 1]),
        Damaged(b"u\xe2\x82", 1, &[20, 0, 1, 0, 1]),
        Damaged(b"\xe2\x82u", 0, &[20, 0, 1, 0, 1]),
        Damaged(b"\xe2\x82\xac\xe2\x82", 3, &[0, 3, 0]),
        Damaged(b"\xc5\xa1\x80\xc5\xa1", 2, &[60, 60, 0, 1, 1, 0, 1, 1]),
        Damaged(
            b"\xc5\xa1\xff\xc5\xa1\xc5\xa1",
            2,
            &[60, 65, 0, 1, 1, 0, 1, 2],
        ),
        Damaged(b"\xc1\xb5u", 0, &[20, 0, 1, 0, 1]),
        Damaged(b"\xe0\x83\xbcu", 0, &[20, 0, 1, 0, 1]),
        Damaged(b"m\xed\xa0\x80", 1, &[10, 0, 1, 0, 1]),
        Damaged(b"\xf0\x9f\x98\x80l", 0, &[30, 0, 1, 0, 1]),
    ] {
        let why = NameRefusal::NotUtf8(case.1);
        assert_eq!(rt; NameRefusal::of(true, case.0), Some(why));
        assert_eq!(rt; NameRefusal::of(false, case.0), None);
        assert_eq!(rt; why.number(), 5);
        assert_eq!(rt; why.place(), case.1);
        assert_eq!(rt;
            table.sort_key(rt.alloc(), case.0).err(),
            Some(KeyError::Refused(why))
        );
        assert_eq!(rt; table.key_len(case.0), case.2.len());
        let mut room = [7u32; 16];
        assert_eq!(rt; table.write_key(case.0, &mut room), Ok(case.2.len()));
        for (number, there) in room.iter().zip(case.2.iter().chain(&[7; 16])) {
            assert_eq!(rt; *number, *there);
        }
    }
    Ok(())
}

// The first letter, and how many letters there are, by bytes and in UTF-8.
#[test]
fn read(rt: HostRuntime) {
    let name = b"\xc3\xbcx\xe2\x82\xac";
    assert_eq!(rt; first_in(false, name), Some((195, 1)));
    assert_eq!(rt; first_in(true, name), Some((252, 2)));
    assert_eq!(rt; first_in(true, &name[1..]), Some((65724, 1)));
    assert_eq!(rt; first_in(true, &name[2..]), Some((120, 1)));
    assert_eq!(rt; first_in(true, &name[3..]), Some((8364, 3)));
    assert_eq!(rt; first_in(true, &name[3..5]), Some((65762, 1)));
    assert_eq!(rt; first_in(false, b""), None);
    assert_eq!(rt; first_in(true, b""), None);
    for byte in 0..=255u8 {
        assert!(rt; one_byte(false, byte));
        assert_eq!(rt; one_byte(true, byte), byte < 128);
    }
    assert_eq!(rt; count_in(false, name), Ok(6));
    assert_eq!(rt; count_in(true, name), Ok(3));
    assert_eq!(rt; count_in(false, &name[0..5]), Ok(5));
    assert_eq!(rt; count_in(true, &name[0..5]), Err(3));
    assert_eq!(rt; count_in(true, b""), Ok(0));
}

// Names of letters below 128 have the same key either way; those up to 255 are written in two bytes.
#[test]
fn as_in_bytes(rt: HostRuntime) -> Result<(), Fail> {
    let heap = rt.alloc();
    let bytes = Table::valley();
    let utf8 = bytes.in_utf8();
    let mut all = [0u8; 128];
    for byte in 0..128u8 {
        all[byte as usize] = byte;
    }
    let names: [&[u8]; 10] = [
        b"",
        b"cab",
        b"Cab",
        b"cab'",
        b"chad",
        b"CH",
        b"cch",
        b"\x00\x7f",
        b"c'h-O''Neill",
        &all,
    ];
    for name in names {
        let key = bytes.sort_key(heap, name)?;
        assert!(rt; utf8.sort_key(heap, name)?.as_slice() == key.as_slice());
        assert_eq!(rt; utf8.key_len(name), key.len());
        assert_eq!(rt; NameRefusal::of(true, name), None);
    }
    assert!(rt; bytes.sort_key(heap, b"\xc3\xbc")?.as_slice() == [0, 0, 1, 1].as_slice());
    assert!(rt; utf8.sort_key(heap, b"\xc3\xbc")?.as_slice() == [0, 0, 1].as_slice());
    assert!(rt; utf8.sort_key(heap, b"\xc4\x80")?.as_slice() == [0, 0].as_slice());
    Ok(())
}

// 1,000 letters of three bytes each are taken, 1,001 are not, and are told as so many; a byte at which no letter can be read is told
// before.
#[test]
fn longest_name(rt: HostRuntime) -> Result<(), Fail> {
    let heap = rt.alloc();
    let mut own = TableBuf::in_utf8(heap)?;
    own.add_letter(Letter {
        letter: 8364,
        weights: Weights::from([1, 2, 3]),
    }
    .into())?;
    let table = own.table();
    let mut name = Vec::new(heap);
    for _ in 0..1000 {
        name.extend_from_slice(b"\xe2\x82\xac")?;
    }
    assert_eq!(rt; NameRefusal::of(true, &name), None);
    assert_eq!(rt;
        NameRefusal::of(false, &name),
        Some(NameRefusal::TooLong(3000))
    );
    let key = table.sort_key(heap, &name)?;
    assert_eq!(rt; key.len(), 3002);
    for (place, number) in key.iter().enumerate() {
        let there = if place < 1000 {
            1
        } else if place == 1000 || place == 2001 {
            0
        } else if place < 2001 {
            2
        } else {
            3
        };
        assert_eq!(rt; *number, there);
    }
    name.extend_from_slice(b"\xe2\x82")?;
    assert_eq!(rt;
        NameRefusal::of(true, &name),
        Some(NameRefusal::NotUtf8(3000))
    );
    name.push(0xac)?;
    let long = NameRefusal::TooLong(1001);
    assert_eq!(rt; NameRefusal::of(true, &name), Some(long));
    assert_eq!(rt;
        table.sort_key(heap, &name).err(),
        Some(KeyError::Refused(long))
    );
    assert_eq!(rt; table.key_len(&name), 3005);
    name.push(0xac)?;
    assert_eq!(rt;
        NameRefusal::of(true, &name),
        Some(NameRefusal::NotUtf8(3003))
    );
    assert!(rt; NameRefusal::NotUtf8(1001) == NameRefusal::NotUtf8(1001));
    assert!(rt; NameRefusal::NotUtf8(1001) != NameRefusal::NotUtf8(1002));
    assert!(rt; NameRefusal::NotUtf8(1001) != NameRefusal::TooLong(1001));
    Ok(())
}

// Steps over letters, pairs and bytes that do not count use up no stack.
#[test]
fn any_bytes(rt: HostRuntime) -> Result<(), Fail> {
    let heap = rt.alloc();
    let mut own = TableBuf::in_utf8(heap)?;
    own.add_letter(Letter {
        letter: 127,
        weights: Weights::from([7, 8, 9]),
    }
    .into())?;
    own.add_pair(Pair {
        first: 8364,
        second: 8364,
        weights: Weights::from([0, 0, 0]),
    })?;
    let table = own.table();
    let mut name = vec![in heap; 0xffu8; 9000000]?;
    assert_eq!(rt; table.key_len(&name), 2);
    name.fill(0);
    assert_eq!(rt; table.key_len(&name), 2);
    let mut name = Vec::with_capacity(heap, 9000001)?;
    for _ in 0..3000000 {
        name.extend_from_slice(b"\xe2\x82\xac")?;
    }
    name.push(127)?;
    let mut room = [3u32; 6];
    assert_eq!(rt; table.write_key(&name, &mut room), Ok(5));
    assert!(rt; room == [7, 0, 8, 0, 9, 3]);
    Ok(())
}
