// The keys of a block of the earlier format, read alone and left where they lie: the first key, with which all others share, and the search over the keys of all rows.
// Follows slatedb 0.16.0, src/block_iterator.rs (Apache License 2.0), and is changed: no key is copied, a row's key is held against the target in its two parts,
// the search is recursive and counts the keys that it reads, and what a block's bytes can break is a refusal.
#![tactic(auto)]

ghost use Rattle.std.specs.Prelude.{◌≡◌, ◌≤◌, ◌<◌, ◌+◌, ◌-◌, ◌*◌, length};
ghost use Rattle.layout.specs.Laws.Search.{search_on};
ghost use Rattle.layout_v1.specs.Seek.{keeps_upper, key_passes};
ghost use Rattle.basics.specs.Answers.{says_same};
ghost use Rattle.basics.specs.Says.{says_order};
ghost use Rattle.trailer.specs.Says.{trailer_from};
ghost use Rattle.block_keys_v1.specs.Parts.{Stands};
ghost use Rattle.block_keys_v1.specs.Promise.{ReadsFirst, MayShare, FindsRow};
ghost use Rattle.block_keys_v1.specs.Says.{says_search};

use basics::{IterationOrder, Refusal};
use row_decode_v2::KeyPlace;
use trailer::Trailer;

// Where the search's span closed, and how many keys it read.
#[derive(Clone, Copy)]
pub struct Search {
    pub place: usize,
    pub reads: usize,
}

// How a key stands to the target: how many bytes they begin with in common, and whether the search keeps the part above it.
#[derive(Clone, Copy)]
struct Stand {
    common: usize,
    keeps: bool,
}

// Where row 0's key lies: 15 for its offset and the next, then the key alone, which shares nothing. 18 for a trailer that is not the block's.
// (`decode_first_key` in the Rust.)
pub fn first_key(block: &[u8], t: Trailer) -> Result<KeyPlace, Refusal>
    ensures { ReadsFirst block.now t result }
{
    let region = trailer::region_of(block, t, 0)?;
    row_decode_v0::decode_key_only(&block[..t.size], region.start, region.end, 0)
}

// How many bytes row `index` may share with a first key of `first_len` bytes: row 0 shares nothing.
pub fn may_share(index: usize, first_len: usize) -> usize
    ensures { MayShare index first_len result }
{
    row_decode_v2::may_share(index == 0, first_len)
}

// Ascending, the search keeps the part above a key that is below the target; descending, above one that is at or below it.
fn held_against(order: IterationOrder, key: &[u8], target: &[u8]) -> Stand
    ensures { Stands (says_order order) key.now target.now result }
{
    match order {
        IterationOrder::Ascending => {
            let m = match_keys::match_of(key, target);
            Stand {
                common: m.len,
                keeps: m.below,
            }
        }
        IterationOrder::Descending => {
            let m = match_keys::match_of(target, key);
            Stand {
                common: m.len,
                keeps: !m.below,
            }
        }
    }
}

// Whether the search keeps the part above row `index`. A key that shares more with the first key than that has in common with the target stands to it as the
// first key does; of another, the suffix is held against what is left of the target. (`decode_key_at_index` in the Rust.)
fn keeps_above(
    block: &[u8],
    t: Trailer,
    order: IterationOrder,
    first: &[u8],
    whole: Stand,
    target: &[u8],
    index: usize,
) -> Result<bool, Refusal>
    requires count_value { (t.size + (2 + 2 * t.count) ≡ length block.now) × (index < t.count) }
    requires stands { Stands (says_order order) first.now target.now whole }
    ensures { says_same result ≡ key_passes block.now (trailer_from t) first.now (keeps_upper (says_order order) target.now) index }
{
    let region = trailer::region_of(block, t, index)?;
    let rows = &block[..t.size];
    let most = may_share(index, first.len());
    let key = row_decode_v0::decode_key_only(rows, region.start, region.end, most)?;
    let shared = key.shared;
    if whole.common < shared {
        return Ok(whole.keeps);
    }
    let from = key.suffix_at;
    let to = from + key.suffix_len;
    let rest = held_against(order, &rows[from..to], &target[shared..]);
    Ok(rest.keeps)
}

// The first row from `low` on, and before `high`, that the search does not keep the part above of; `high` where there is none. `reads` keys were read before.
fn search_rows(
    block: &[u8],
    t: Trailer,
    order: IterationOrder,
    first: &[u8],
    whole: Stand,
    target: &[u8],
    low: usize,
    high: usize,
    reads: usize,
) -> Result<Search, Refusal>
    requires count_value { (t.size + (2 + 2 * t.count) ≡ length block.now) × (high ≤ t.count) }
    requires low_bound { reads + (high - low) ≤ t.count }
    requires stands { Stands (says_order order) first.now target.now whole }
    ensures { says_search result ≡ search_on (key_passes block.now (trailer_from t) first.now (keeps_upper (says_order order) target.now)) low high reads }
{
    if high <= low {
        return Ok(Search { place: low, reads });
    }
    let mid = low + (high - low) / 2;
    let upper = keeps_above(block, t, order, first, whole, target, mid)?;
    if upper {
        search_rows(
            block,
            t,
            order,
            first,
            whole,
            target,
            mid + 1,
            high,
            reads + 1,
        )
    } else {
        search_rows(block, t, order, first, whole, target, low, mid, reads + 1)
    }
}

// The first row that is not below the target, descending the first above it; the count where there is none. Row 0's key comes first, and is not counted.
// Answers 18 for a trailer that is not the block's, and what reading a key answers.
pub fn find_row(
    block: &[u8],
    t: Trailer,
    order: IterationOrder,
    target: &[u8],
) -> Result<Search, Refusal>
    ensures { FindsRow block.now t order target.now result }
{
    let key = first_key(block, t)?;
    let rows = &block[..t.size];
    let from = key.suffix_at;
    let to = from + key.suffix_len;
    let first = &rows[from..to];
    let whole = held_against(order, first, target);
    search_rows(block, t, order, first, whole, target, 0, t.count, 0)
}
