// Places in lists of letters.
use crate::list::few_letters;
use pieces::place_for;

// The first of those that have a rank, and else where it would stand.
#[test]
fn places(rt: HostRuntime) {
    let letters = few_letters();
    let cases = [
        (0u64, 0usize),
        (1, 1),
        (7, 1),
        (8, 4),
        (300, 4),
        (301, 5),
        (4294967294, 5),
        (4294967295, 5),
        (4294967296, 6),
        (18446744073709551615, 6),
    ];
    for (rank, place) in cases {
        assert_eq!(rt; place_for(&letters, rank), place);
    }
}
