//! The items of pools, which are values with their stays, by cell, beside how many each page has.

ghost use Rattle.std.specs.Prelude.{◌≡◌, ◌+◌, ◌*◌, ◌<◌, ◌≤◌, ℕ, IfSome, List, length};
ghost use Rattle.pal8_pools.specs.Asks.{Ask, item_of};
ghost use Rattle.pal8_pools.specs.Values.{HoldsValues};
ghost use Rattle.pal8_pools.specs.Steps.{Ranks, rank_below};

/// The rank of a value on a page with this last cell, where so many values are, if it is one of them.
fn rank_below(values: &[u64], last: usize, count: usize, value: u64) -> Option<usize>
    requires last { last < length values.now }
    requires count { count ≤ last + 1 }
    ensures rank { result ≡ rank_below values.now last count value }
    ensures range { IfSome result (λ rank. rank < count) }
{
    let mut rank = count;
    while rank > 0 {
        rank -= 1;
        if values[last - rank] == value {
            return Some(rank);
        }
    }
    None
}

/// The rank of a value that is asked of the page of this number, or nothing where the page is full.
pub fn rank_in(values: &mut [u64], counts: &mut [u8], page: usize, value: u64) -> Option<usize>
    requires page { page < 0o400 }
    requires values { length values.old ≡ 0o100000 }
    requires counts { length counts.old ≡ 0o400 }
    ensures range { IfSome result (λ rank. rank < 0o200) }
    ensures rank { (a : Ask) (asks : List Ask) → page ≡ 32 * a.field + a.page → a.field < 8
        → a.page < 32 → a.value < 0o10000 → value ≡ item_of a → HoldsValues values.old counts.old asks
        → Ranks a asks values.old counts.old values.new counts.new result }
{
    let last = 0o200 * page + 0o177;
    let count = usize::from(counts[page]);
    if count > 0o200 {
        return None;
    }
    match rank_below(values, last, count, value) {
        Some(rank) => Some(rank),
        None => {
            if count == 0o200 {
                return None;
            }
            values[last - count] = value;
            counts[page] = count as u8 + 1;
            Some(count)
        }
    }
}
