// Lists in the order of a rank.
use pieces::{Letter, Long, Weights, place_for};
use std::alloc::AllocError;

// One run more, at its place among the others.
pub(crate) fn add(longs: &mut Vec<Long>, long: Long) -> Result<(), AllocError> {
    let place = place_for(longs.as_slice(), long.run.rank());
    longs.insert(place, long)?;
    Ok(())
}

// Entries of letters, the first and the last of all among them, and one letter three times.
pub(crate) fn few_letters() -> [Letter; 6] {
    let weights = Weights {
        primary: 1,
        secondary: 2,
        tertiary: 3,
    };
    [
        Letter { letter: 0, weights },
        Letter { letter: 7, weights },
        Letter { letter: 7, weights },
        Letter { letter: 7, weights },
        Letter {
            letter: 300,
            weights,
        },
        Letter {
            letter: 4294967295,
            weights,
        },
    ]
}
