// Lists in the order of a rank.
ghost use Rattle.std.specs.Prelude.{◌≡◌, ◌≤◌, ℕ, length, true};
ghost use Rattle.pieces.specs.Ranks.{at_rank, below, climbs, rises};

// What has a rank.
pub trait Ranked: Copy {
    ghost rank: { Self → ℕ };

    fn rank(self) -> u64
        ensures { result ≡ rank self };
}

// How many are below a rank, and so where the first that has it stands, or would stand; some place, where the list is in no order.
// What is left is halved with each look.
pub fn place_for<T: Ranked>(items: &[T], rank: u64) -> usize
    ensures place { rises T.rank items.now ≡ true → result ≡ below T.rank items.now rank }
    ensures within { result ≤ length items.now }
{
    let mut low = 0;
    let mut high = items.len();
    while low < high {
        let middle = low + (high - low) / 2;
        if items[middle].rank() < rank {
            low = middle + 1;
        } else {
            high = middle;
        }
    }
    low
}

// What has a rank, where each is above those in front of it; it may be missed where they are in no order.
pub fn find_ranked<T: Ranked>(items: &[T], rank: u64) -> Option<T>
    ensures { climbs T.rank items.now ≡ true → result ≡ at_rank T.rank items.now rank }
{
    match items.get(place_for(items, rank)) {
        Some(item) if item.rank() == rank => Some(*item),
        _ => None,
    }
}
