// How weights and pairs lie in the numbers of a table.
ghost use Rattle.std.specs.Prelude.{◌≡◌, ◌+◌, ◌*◌, ◌<◌, length, vec_len};
ghost use Rattle.table.specs.Numbers.{numbers_of, pair_at, weights_set};
ghost use Rattle.pieces.specs.Runs.{long_letters, weights_at};
ghost use Rattle.table.specs.Refusals.{last_letter, unknown, unknown_run};

use pieces::{LongRun, Pair, Weights};

// The three weights that stand from `at` on.
pub(crate) fn weights_at(numbers: &[u16], at: usize) -> Weights
    requires { at + 2 < length numbers.now }
    ensures { result ≡ weights_at numbers.now at }
{
    Weights::from([numbers[at], numbers[at + 1], numbers[at + 2]])
}

// Three weights written from `at` on.
pub(crate) fn set_weights(numbers: &mut Vec<u16>, at: usize, weights: Weights)
    requires { at + 2 < vec_len numbers.old }
    ensures { numbers.new.items ≡ weights_set numbers.old.items at weights }
{
    numbers[at] = weights.primary;
    numbers[at + 1] = weights.secondary;
    numbers[at + 2] = weights.tertiary;
}

// The pair at a place.
pub(crate) fn read_pair(numbers: &[u16], place: usize) -> Pair
    requires { 5 * place + 4 < length numbers.now }
    ensures { result ≡ pair_at numbers.now place }
{
    let first = numbers[5 * place] as u32;
    let second = numbers[5 * place + 1] as u32;
    let weights = weights_at(numbers, 5 * place + 2);
    Pair {
        first,
        second,
        weights,
    }
}

// The five numbers of a pair, whose letters are below 65,536.
pub(crate) fn numbers_of(pair: Pair) -> [u16; 5]
    requires { (pair.first < 65536) × (pair.second < 65536) }
    ensures { result ≡ numbers_of pair }
{
    let w = pair.weights;
    [
        pair.first as u16,
        pair.second as u16,
        w.primary,
        w.secondary,
        w.tertiary,
    ]
}

// Whether one of two letters is above those that a pair may have. Two numbers, as they lie in a pair.
pub(crate) fn unknown(utf8: bool, first: u32, second: u32) -> bool
    ensures { result ≡ unknown utf8 first second }
{
    let last = last_letter(utf8);
    first > last || second > last
}

// The same of the letters of a longer run.
pub(crate) fn unknown_long(utf8: bool, run: LongRun) -> bool
    ensures { result ≡ unknown_run utf8 (long_letters run) }
{
    let last = last_letter(utf8);
    run.first > last
        || run.second > last
        || run.third > last
        || run.fourth.is_some_and(|fourth| fourth > last)
}

// The last letter that a run may have.
fn last_letter(utf8: bool) -> u32
    ensures { result ≡ last_letter utf8 }
{
    if utf8 { 65535 } else { 255 }
}
