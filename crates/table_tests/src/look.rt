// What letters and pairs weigh.
use crate::hold::{
    hold_begins, hold_expansion_places, hold_expansions, hold_letters, hold_long_places,
    hold_pairs, hold_places,
};
use std::test::Fail;
use table::{Pair, Table, Weights};

#[test]
fn valley(rt: HostRuntime) {
    let valley = Table::valley();
    hold_letters(
        &rt,
        &valley,
        &[
            (b'a' as u32, Weights::from([10, 1, 1])),
            (b'z' as u32, Weights::from([260, 1, 1])),
            (b'A' as u32, Weights::from([10, 1, 2])),
            (b'Z' as u32, Weights::from([260, 1, 2])),
            (b'\'' as u32, Weights::from([0, 2, 1])),
            (b' ' as u32, Weights::from([0, 0, 1])),
            (b'`' as u32, Weights::from([0, 0, 1])),
            (b'{' as u32, Weights::from([0, 0, 1])),
            (0, Weights::from([0, 0, 1])),
            (255, Weights::from([0, 0, 1])),
        ],
    );
    hold_pairs(
        &rt,
        &valley,
        &[
            (b'c' as u32, b'h' as u32, Some(Weights::from([35, 1, 1]))),
            (b'h' as u32, b'c' as u32, None),
            (b'c' as u32, b'c' as u32, None),
            (b'C' as u32, b'h' as u32, None),
        ],
    );
    hold_places(
        &rt,
        &valley,
        &[
            (
                0,
                Some(Pair {
                    first: 99,
                    second: 104,
                    weights: Weights::from([35, 1, 1]),
                }),
            ),
            (1, None),
        ],
    );
    assert_eq!(rt; valley.pair_count(), 1);
    hold_long_places(&rt, &valley, &[]);
    hold_expansion_places(&rt, &valley, &[]);
    hold_expansions(&rt, &valley, &[(0, None), (97, None), (255, None)]);
}

// The first letter and the last, with another weight on each level.
#[test]
fn letters(rt: HostRuntime) -> Result<(), Fail> {
    let mut numbers = [7u16; 768];
    numbers[0] = 1;
    numbers[1] = 2;
    numbers[2] = 3;
    numbers[765] = 4;
    numbers[766] = 5;
    numbers[767] = 65535;
    let table = Table::check(&numbers, &[], 0)?;
    hold_letters(
        &rt,
        &table,
        &[
            (0, Weights::from([1, 2, 3])),
            (1, Weights::from([7, 7, 7])),
            (254, Weights::from([7, 7, 7])),
            (255, Weights::from([4, 5, 65535])),
        ],
    );
    Ok(())
}

// Pairs that begin with the first letter, with the last, and several with the same.
#[test]
fn pairs(rt: HostRuntime) -> Result<(), Fail> {
    let letters = [9u16; 768];
    let numbers = [
        0, 0, 1, 2, 3, 255, 0, 2, 3, 4, 0, 255, 3, 4, 5, 255, 255, 4, 5, 6, 0, 7, 5, 6, 7,
    ];
    let table = Table::check(&letters, &numbers, 5)?;
    hold_pairs(
        &rt,
        &table,
        &[
            (0, 0, Some(Weights::from([1, 2, 3]))),
            (255, 0, Some(Weights::from([2, 3, 4]))),
            (0, 255, Some(Weights::from([3, 4, 5]))),
            (255, 255, Some(Weights::from([4, 5, 6]))),
            (0, 7, Some(Weights::from([5, 6, 7]))),
            (0, 8, None),
            (7, 0, None),
            (1, 0, None),
        ],
    );
    hold_places(
        &rt,
        &table,
        &[
            (
                0,
                Some(Pair {
                    first: 0,
                    second: 0,
                    weights: Weights::from([1, 2, 3]),
                }),
            ),
            (
                3,
                Some(Pair {
                    first: 255,
                    second: 255,
                    weights: Weights::from([4, 5, 6]),
                }),
            ),
            (
                4,
                Some(Pair {
                    first: 0,
                    second: 7,
                    weights: Weights::from([5, 6, 7]),
                }),
            ),
            (5, None),
            (18446744073709551615, None),
        ],
    );
    Ok(())
}

// In place of what is turned away there is a table in which nothing weighs anything.
#[test]
fn blank(rt: HostRuntime) {
    let letters = [9u16; 768];
    let table = Table::check(&letters, &[1, 2, 3, 4, 5, 1, 2, 3, 4, 5], 2).unwrap_or_default();
    hold_letters(
        &rt,
        &table,
        &[
            (0, Weights::from([0, 0, 0])),
            (255, Weights::from([0, 0, 0])),
        ],
    );
    hold_pairs(&rt, &table, &[(1, 2, None)]);
    hold_places(&rt, &table, &[(0, None)]);
    hold_long_places(&rt, &table, &[]);
    hold_expansion_places(&rt, &table, &[]);
    hold_expansions(&rt, &table, &[(0, None), (255, None)]);
    hold_begins(&rt, &table, &[(0, false), (1, false), (255, false)]);
}
