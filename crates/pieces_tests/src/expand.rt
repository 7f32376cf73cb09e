// Triples of weights: whether one of them counts, and entries that have them.
use pieces::{Expanded, Expansion, Letter, LetterEntry, Triples, Weights};

// A letter that weighs as two or three, the last of which is this.
pub(crate) fn expansion(letter: u32, third: Option<Weights>) -> Expansion {
    Expansion {
        letter,
        weights: Expanded {
            first: Weights::from([190, 1, 1]),
            second: Weights::from([60, 1, 1]),
            third,
        },
    }
}

// One weight on one level is enough, in whichever triple it stands.
#[test]
fn counts(rt: HostRuntime) {
    let cases = [
        ([0u16, 0, 0], [0u16, 0, 0], None, false),
        ([0, 0, 0], [0, 0, 0], Some([0u16, 0, 0]), false),
        ([1, 0, 0], [0, 0, 0], None, true),
        ([0, 1, 0], [0, 0, 0], Some([0, 0, 0]), true),
        ([0, 0, 1], [0, 0, 0], Some([0, 0, 0]), true),
        ([0, 0, 0], [1, 0, 0], None, true),
        ([0, 0, 0], [0, 1, 0], Some([0, 0, 0]), true),
        ([0, 0, 0], [0, 0, 1], Some([0, 0, 0]), true),
        ([0, 0, 0], [0, 0, 0], Some([1, 0, 0]), true),
        ([0, 0, 0], [0, 0, 0], Some([0, 1, 0]), true),
        ([0, 0, 0], [0, 0, 0], Some([0, 0, 65535]), true),
        ([190, 1, 1], [190, 1, 1], Some([190, 1, 1]), true),
    ];
    for (first, second, third, counts) in cases {
        let expanded = Expanded {
            first: Weights::from(first),
            second: Weights::from(second),
            third: third.map(Weights::from),
        };
        assert_eq!(rt; expanded.counts(), counts);
        assert_eq!(rt; Triples::Several(expanded).counts(), counts);
    }
    for (weights, counts) in [
        ([0u16, 0, 0], false),
        ([1, 0, 0], true),
        ([0, 1, 0], true),
        ([0, 0, 1], true),
    ] {
        assert_eq!(rt; Triples::One(Weights::from(weights)).counts(), counts);
    }
    assert!(rt; Triples::Excess.counts());
}

// A letter is entered as one triple, and one that expands as several, be it two or three.
#[test]
fn entries(rt: HostRuntime) {
    let weights = Weights::from([1, 2, 3]);
    assert_eq!(rt;
        LetterEntry::from(Letter {
            letter: 4294967295,
            weights,
        }),
        LetterEntry {
            letter: 4294967295,
            weights: Triples::One(weights),
        }
    );
    for third in [None, Some(weights), Some(Weights::from([0, 0, 0]))] {
        let expansion = expansion(230, third);
        let entry: LetterEntry = expansion.into();
        assert_eq!(rt; entry.letter, 230);
        assert_eq!(rt; entry.weights, Triples::Several(expansion.weights));
    }
}

// What differs in one triple, or in whether there is a third, is not the same.
#[test]
fn same(rt: HostRuntime) {
    let one = Weights::from([190, 1, 1]);
    let two = expansion(223, None).weights;
    let three = expansion(223, Some(one)).weights;
    let none = expansion(223, Some(Weights::from([0, 0, 0]))).weights;
    let turned = Expanded {
        first: two.second,
        second: two.first,
        third: None,
    };
    let all = [
        Triples::One(one),
        Triples::Several(two),
        Triples::Several(three),
        Triples::Several(none),
        Triples::Several(turned),
        Triples::Excess,
    ];
    for (place, triples) in all.iter().enumerate() {
        for (other_place, other) in all.iter().enumerate() {
            assert_eq!(rt; triples == other, place == other_place);
        }
    }
}
