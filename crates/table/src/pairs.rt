// The pairs of a table, five numbers each: two letters and three weights. Those of the same bucket are chained from the last to
// the first, so that looking one up meets few others.
ghost use Rattle.std.specs.Prelude.{◌≡◌, ℕ, ◌*◌, ◌<◌, ◌≤◌, length, map, None, slice_index_or};
ghost use Rattle.table.specs.Chain.{counted_place, heads_of, link_of, marks_of};
ghost use Rattle.table.specs.Refusals.{first_place, repeated};

mod chain;
mod find;

#[derive(Clone, Copy)]
pub struct Pairs<'a> {
    numbers: &'a [u16],
    // How many of them are chained: the first so many, and all in a table. While they are chained it says how far that is.
    count: usize,
    // For each remainder by 256 whether a pair begins with a letter that has it, so that most letters cost one look.
    begins: [bool; 256],
    // For each bucket the last pair that is in it, counted from 1, and 0 where there is none: half of what an `Option` takes, since
    // `make_key` has a table's index made anew for each key. In arrays, and not lists, since a table asks for no memory.
    heads: [u8; 256],
    // For each pair the one before it that is in the same bucket, counted so too.
    links: [u8; 200],
    ghost within: { 5 * count ≤ length numbers.now },
    ghost few: { count ≤ 200 },
    ghost apart: { first_place (repeated numbers.now) count ≡ None },
    ghost marked: { begins ≡ marks_of numbers.now count },
    ghost begun: { map counted_place heads ≡ heads_of numbers.now count },
    ghost linked: { (k : ℕ) → k < count → counted_place (slice_index_or links k 0) ≡ link_of numbers.now k },
}
