// The entries of letters above 255, in the order of their letters.
ghost use Rattle.std.specs.Prelude.{◌≡◌, length, true};
ghost use Rattle.pieces.specs.Ranks.{climbs};
ghost use Rattle.pieces.specs.Runs.{letter_rank};
ghost use Rattle.table.specs.Rules.{letter_weighs, weights_among};

use crate::layout::weights_at;
use pieces::{Letter, Weights, find_ranked};

// What a letter weighs, by the weights of letters below 256 and the entries of others.
pub(crate) fn letter_weights(letters: &[u16], others: &[Letter], letter: u32) -> Weights
    requires whole { length letters.now ≡ 768 }
    requires climbs { climbs letter_rank others.now ≡ true }
    ensures { result ≡ letter_weighs letters.now others.now letter }
{
    if letter < 256 {
        return weights_at(letters, 3 * letter as usize);
    }
    weights_among(others, letter)
}

// What a letter weighs; nothing where it has no entry.
#[inline(never)]
fn weights_among(others: &[Letter], letter: u32) -> Weights
    requires { climbs letter_rank others.now ≡ true }
    ensures { result ≡ weights_among others.now letter }
{
    match find_ranked(others, letter as u64) {
        Some(other) => other.weights,
        None => Weights::from([0, 0, 0]),
    }
}
