// The room that keys are written into.
use keys::{Done, Short, SortKeys, make_key};
use table::{Table, valley_letters, valley_pairs};

// A name, how many numbers of the room are lent, what is answered, and the first numbers of the room then.
#[derive(Clone, Copy)]
struct Case(&'static [u8], usize, Done, &'static [u16]);

// What is not in the case's numbers is as it was.
#[test]
fn entry(rt: HostRuntime) {
    let cases = [
        Case(
            b"cab",
            11,
            Done::Keyed(11),
            &[30, 10, 20, 0, 1, 1, 1, 0, 1, 1, 1],
        ),
        Case(
            b"cab",
            12,
            Done::Keyed(11),
            &[30, 10, 20, 0, 1, 1, 1, 0, 1, 1, 1],
        ),
        Case(
            b"cab",
            16,
            Done::Keyed(11),
            &[30, 10, 20, 0, 1, 1, 1, 0, 1, 1, 1],
        ),
        Case(b"cab", 10, Done::Short(11), &[]),
        Case(b"cab", 1, Done::Short(11), &[]),
        Case(b"cab", 0, Done::Short(11), &[]),
        Case(
            b"chad",
            11,
            Done::Keyed(11),
            &[35, 10, 40, 0, 1, 1, 1, 0, 1, 1, 1],
        ),
        Case(b"chad", 10, Done::Short(11), &[]),
        Case(
            b"cab'",
            13,
            Done::Keyed(13),
            &[30, 10, 20, 0, 1, 1, 1, 2, 0, 1, 1, 1, 1],
        ),
        Case(b"cab'", 12, Done::Short(13), &[]),
        Case(b"", 2, Done::Keyed(2), &[0, 0]),
        Case(b"", 1, Done::Short(2), &[]),
        Case(b"", 0, Done::Short(2), &[]),
    ];
    for case in &cases {
        let mut room = [777u16; 16];
        let lent = case.1.min(16);
        assert_eq!(rt;
            make_key(
                valley_letters(),
                valley_pairs(),
                1,
                case.0,
                &mut room[0..lent],
            ),
            case.2
        );
        for (number, there) in room.iter().zip(case.3.iter().chain(&[777; 16])) {
            assert_eq!(rt; *number, *there);
        }
    }
}

// The same into numbers of 32 bits, under a checked table.
#[test]
fn checked_table(rt: HostRuntime) {
    let table = Table::valley();
    let mut room = [777u32; 16];
    assert_eq!(rt;
        table.write_key(b"da", &mut room[0..7]),
        Err(Short { needs: 8 })
    );
    assert_eq!(rt;
        table.write_key(b"da", &mut room[0..0]),
        Err(Short { needs: 8 })
    );
    assert!(rt; room == [777; 16]);
    assert_eq!(rt; table.write_key(b"da", &mut room[0..8]), Ok(8));
    assert!(rt;
        room == [
            40, 10, 0, 1, 1, 0, 1, 1, 777, 777, 777, 777, 777, 777, 777, 777,
        ]
    );
    assert_eq!(rt; table.write_key(b"", &mut room), Ok(2));
    assert!(rt;
        room == [
            0, 0, 0, 1, 1, 0, 1, 1, 777, 777, 777, 777, 777, 777, 777, 777,
        ]
    );
}
