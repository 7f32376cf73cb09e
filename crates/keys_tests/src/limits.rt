// Names at the limit and past it, and what is turned away.
use keys::{Done, KeyError, NameRefusal, Short, SortKeys, make_key};
use std::test::Fail;
use table::{Letter, Pair, Table, TableBuf, Weights, valley_letters, valley_pairs};

// 1,000 letters are taken, 1,001 are not.
#[test]
fn longest_name(rt: HostRuntime) {
    let name = [b'a'; 1001];
    let mut room = [7u16; 3003];
    assert_eq!(rt;
        make_key(valley_letters(), valley_pairs(), 1, &name, &mut room),
        Done::Refused(2)
    );
    assert!(rt; room[0] == 7 && room[3002] == 7);
    assert_eq!(rt;
        make_key(
            valley_letters(),
            valley_pairs(),
            1,
            &name[0..1000],
            &mut room[0..3001],
        ),
        Done::Short(3002)
    );
    assert!(rt; room[0] == 7 && room[3002] == 7);
    assert_eq!(rt;
        make_key(
            valley_letters(),
            valley_pairs(),
            1,
            &name[0..1000],
            &mut room[0..3002],
        ),
        Done::Keyed(3002)
    );
    assert!(rt; room[0] == 10 && room[999] == 10 && room[1000] == 0);
    assert!(rt; room[1001] == 1 && room[2001] == 0 && room[3001] == 1 && room[3002] == 7);
    assert_eq!(rt;
        NameRefusal::of(false, &name),
        Some(NameRefusal::TooLong(1001))
    );
    assert_eq!(rt; NameRefusal::of(false, &name[0..1000]), None);
    assert_eq!(rt; NameRefusal::TooLong(1001).number(), 2);
    assert_eq!(rt; NameRefusal::TooLong(1001).place(), 1001);
    assert!(rt; NameRefusal::TooLong(1001) == NameRefusal::TooLong(1001));
    assert!(rt; NameRefusal::TooLong(1001) != NameRefusal::TooLong(1002));
}

#[test]
fn made_in_memory(rt: HostRuntime) -> Result<(), Fail> {
    let table = Table::valley();
    let name = [b'\''; 1001];
    assert_eq!(rt; table.sort_key(rt.alloc(), &name[0..1000])?.len(), 2002);
    assert_eq!(rt;
        table.sort_key(rt.alloc(), &name).err(),
        Some(KeyError::Refused(NameRefusal::TooLong(1001)))
    );
    Ok(())
}

// The table is looked at before the name, and both before the room.
#[test]
fn order_of_checks(rt: HostRuntime) {
    let long = [b'a'; 1001];
    let mut room = [7u16; 4];
    let twice = [99u16, 104, 35, 1, 1, 99, 104, 36, 1, 1];
    assert_eq!(rt; make_key(&[], &[], 0, &long, &mut room), Done::Refused(1));
    assert_eq!(rt;
        make_key(valley_letters(), &twice, 2, &long, &mut room),
        Done::Refused(1)
    );
    assert_eq!(rt;
        make_key(valley_letters(), &twice, 1, b"a", &mut room),
        Done::Refused(1)
    );
    assert_eq!(rt;
        make_key(valley_letters(), &[], 0, &long, &mut room),
        Done::Refused(2)
    );
    assert_eq!(rt;
        make_key(valley_letters(), &[], 0, b"a", &mut room),
        Done::Short(5)
    );
    assert!(rt; room == [7; 4]);
}

// A checked table takes any bytes; steps over letters and pairs that do not count use up no stack.
#[test]
fn any_bytes(rt: HostRuntime) -> Result<(), Fail> {
    let heap = rt.alloc();
    let mut own = TableBuf::new(heap)?;
    own.add_letter(Letter {
        letter: 1,
        weights: Weights::from([7, 8, 9]),
    }
    .into())?;
    own.add_pair(Pair {
        first: 0,
        second: 0,
        weights: Weights::from([0, 0, 0]),
    })?;
    let mut name = vec![in heap; 0u8; 20000001]?;
    assert_eq!(rt; Table::valley().key_len(name.as_slice()), 20000003);
    name[20000000] = 1;
    let mut room = [3u32; 6];
    assert_eq!(rt; own.table().write_key(name.as_slice(), &mut room), Ok(5));
    assert!(rt; room == [7, 0, 8, 0, 9, 3]);
    Ok(())
}
