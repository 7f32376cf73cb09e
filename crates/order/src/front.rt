// What two names both begin with.
ghost use Rattle.std.specs.Prelude.{◌≡◌, ◌<◌, ◌≤◌, drop, length, take, true};
ghost use Rattle.keys.specs.Letters.{letters_in};
ghost use Rattle.order.specs.Fronts.{EndsWith, LastBeginNone, MayCut, Shared};
ghost use Rattle.table.specs.Meaning.{longs_of, rules_of};

use keys::{first_in, one_byte};
use table::Table;

// How many bytes two names both begin with, such that no letter is cut in two there, and no run that is one together.
// These bytes have the same rows in both, so that what is behind them decides.
pub(crate) fn shared(table: &Table, a: &[u8], b: &[u8]) -> usize
    ensures { Shared (rules_of table.now) a.now b.now result }
{
    let mut n = same_bytes(a, b);
    while n > 0 && !(may_cut(table, a, n) && may_cut(table, b, n)) {
        n -= 1;
    }
    n
}

// How many bytes are the same.
fn same_bytes(a: &[u8], b: &[u8]) -> usize
    ensures within { (result ≤ length a.now) × (result ≤ length b.now) }
    ensures same { take result a.now ≡ take result b.now }
{
    let mut n = 0;
    while n < a.len() && n < b.len() && a[n] == b[n] {
        n += 1;
    }
    n
}

// Whether a name can be cut at a place. Most letters are one byte, and most tables have pairs alone.
fn may_cut(table: &Table, name: &[u8], place: usize) -> bool
    requires { (0 < place) × (place ≤ length name.now) }
    ensures { result ≡ true → MayCut (rules_of table.now) name.now place }
{
    if place == name.len() {
        return true;
    }
    if table.long_count() > 0 {
        return may_cut_runs(table, name, place);
    }
    let last = name[place - 1];
    let next = name[place];
    if one_byte(table.utf8(), last) && one_byte(table.utf8(), next) {
        return table.pair(last as u32, next as u32).is_none();
    }
    may_cut_letters(table, name, place)
}

// The same where a letter may be several bytes. Where no letter can be read on one side of the place, the answer is no.
#[inline(never)]
fn may_cut_letters(table: &Table, name: &[u8], place: usize) -> bool
    requires pairs { length (longs_of table.now) ≡ 0 }
    requires within { place ≤ length name.now }
    ensures { result ≡ true → MayCut (rules_of table.now) name.now place }
{
    let utf8 = table.utf8();
    match (
        last_in(utf8, &name[..place]),
        first_in(utf8, &name[place..]),
    ) {
        (Some((last, _)), Some((next, _))) => next < 65536 && table.pair(last, next).is_none(),
        _ => false,
    }
}

// The same where three and four letters may be one. Where a run begins with one of the last three letters the answer is no, whether
// it goes on over the place or not.
#[inline(never)]
fn may_cut_runs(table: &Table, name: &[u8], place: usize) -> bool
    requires { place ≤ length name.now }
    ensures { result ≡ true → MayCut (rules_of table.now) name.now place }
{
    match first_in(table.utf8(), &name[place..]) {
        Some((next, _)) => next < 65536 && none_begins(table, &name[..place]),
        None => false,
    }
}

// Whether no run begins with one of the last three letters. Where one of these can't be read, the answer is no.
fn none_begins(table: &Table, front: &[u8]) -> bool
    ensures { result ≡ true → LastBeginNone (rules_of table.now) (letters_in table.now.utf8 front.now) }
{
    let mut rest = front;
    for _ in 0..3usize {
        if rest.is_empty() {
            return true;
        }
        match last_in(table.utf8(), rest) {
            Some((letter, length)) if !table.may_begin(letter) => {
                rest = &rest[..rest.len() - length];
            }
            _ => return false,
        }
    }
    true
}

// The last letter of bytes and how many of them it takes; nothing where the last bytes are none.
fn last_in(utf8: bool, front: &[u8]) -> Option<(u32, usize)>
    ensures { EndsWith utf8 front.now result }
{
    for length in 1..4 {
        if length > front.len() {
            return None;
        }
        let (letter, taken) = first_in(utf8, &front[front.len() - length..])?;
        if taken == length && letter < 65536 {
            return Some((letter, length));
        }
    }
    None
}
