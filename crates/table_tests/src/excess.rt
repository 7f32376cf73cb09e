// Letters that weigh as more than three, and as many letters that expand as a table may have.
use crate::hold::{
    DOUBLE, MIXED, NONE, ONE, TRIPLE, TWO, add_entries, entry, excess, expansion,
    hold_expansion_places, hold_expansions, hold_letters, several,
};
use std::test::Fail;
use table::{Refusal, TableBuf};

// It is turned away behind every other fault, in a table of either kind, and nothing changes.
#[test]
fn added(rt: HostRuntime) -> Result<(), Fail> {
    for mut table in [TableBuf::new(rt.alloc())?, TableBuf::in_utf8(rt.alloc())?] {
        add_entries(
            &rt,
            &mut table,
            &[
                (excess(38), Some(Refusal::TooManyTriples(0))),
                (several(38, DOUBLE), None),
                (entry(223, ONE), None),
                (excess(38), Some(Refusal::LetterTwice(2))),
                (excess(223), Some(Refusal::LetterTwice(2))),
                (excess(65536), Some(Refusal::NoLetter(2))),
                (excess(0), Some(Refusal::TooManyTriples(2))),
                (excess(255), Some(Refusal::TooManyTriples(2))),
                (entry(255, TWO), None),
            ],
        );
        let table = table.table();
        hold_expansion_places(&rt, &table, &[expansion(38, DOUBLE)]);
        hold_letters(&rt, &table, &[(0, NONE), (223, ONE), (255, TWO)]);
    }
    Ok(())
}

// The 2,000th letter is taken, the 2,001st is not, and a table that is full says so first.
#[test]
fn many_added(rt: HostRuntime) -> Result<(), Fail> {
    let mut table = TableBuf::in_utf8(rt.alloc())?;
    for k in 0..1999u32 {
        let letter = 20000 - 10 * k;
        let entry = match k % 3 {
            0 => entry(letter, ONE),
            1 => several(letter, MIXED),
            _ => several(letter, TRIPLE),
        };
        assert_eq!(rt; table.add_letter(entry), Ok(()));
    }
    let full = Some(Refusal::TooManyLetters);
    add_entries(
        &rt,
        &mut table,
        &[
            (excess(7), Some(Refusal::TooManyTriples(1999))),
            (excess(20000), Some(Refusal::LetterTwice(1999))),
            (excess(55296), Some(Refusal::NoLetter(1999))),
            (several(7, DOUBLE), None),
            (several(8, DOUBLE), full),
            (entry(8, ONE), full),
            (excess(8), full),
            (excess(7), full),
            (excess(55296), full),
        ],
    );
    assert_eq!(rt; table.letter_count(), 2000);
    let table = table.table();
    assert_eq!(rt; table.expansion_count(), 1333);
    for k in 0..1999u32 {
        let expanded = match k % 3 {
            0 => None,
            1 => Some(MIXED),
            _ => Some(TRIPLE),
        };
        hold_expansions(
            &rt,
            &table,
            &[(20000 - 10 * k, expanded), (20001 - 10 * k, None)],
        );
    }
    hold_expansions(&rt, &table, &[(7, Some(DOUBLE)), (8, None)]);
    Ok(())
}
