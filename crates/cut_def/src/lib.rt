// What a cut, a write in place, a join and a new item make of a file's items: definitions and laws, and the tests of one
// item in code.
#![tactic(auto)]

ghost use Rattle.std.specs.Prelude.{◌≡◌};
ghost use Rattle.item.specs.Items.{fields, hole};
ghost use Rattle.cut_def.specs.Cuts.{touched, covered, split};
ghost use Rattle.cut_def.specs.Joins.{plain, joinable};

use item::{Item, Kind};
use records::{sum_at_most, sum_is, sum_past};

// An item that names no extent.
pub fn is_hole(item: Item) -> bool
    ensures { result ≡ hole (fields item) }
{
    item.extent_start() == 0
}

// Whether cutting [lo, hi) changes an item or takes it away.
pub fn is_touched(lo: u64, hi: u64, item: Item) -> bool
    ensures { result ≡ touched lo hi (fields item) }
{
    lo < hi && sum_past(item.key, item.length(), lo) && item.key < hi
}

// Whether it takes it away.
pub fn is_covered(lo: u64, hi: u64, item: Item) -> bool
    ensures { result ≡ covered lo hi (fields item) }
{
    is_touched(lo, hi, item) && lo <= item.key && sum_at_most(item.key, item.length(), hi)
}

// Whether it leaves a front and a back of an item that is no hole.
pub fn is_split(lo: u64, hi: u64, item: Item) -> bool
    ensures { result ≡ split lo hi (fields item) }
{
    lo < hi && item.key < lo && sum_past(item.key, item.length(), hi) && !is_hole(item)
}

// A regular item that is neither compressed nor encoded.
fn is_plain(item: Item) -> bool
    ensures { result ≡ plain (fields item) }
{
    item.kind() == Kind::Regular
        && item.compression() == 0
        && item.encryption() == 0
        && item.other() == 0
}

// Whether two items may become one: both plain, touching, of one extent and with one reference offset.
pub fn is_joinable(front: Item, behind: Item) -> bool
    ensures { result ≡ joinable (fields front) (fields behind) }
{
    is_plain(front)
        && is_plain(behind)
        && sum_is(front.key, front.length(), behind.key)
        && front.extent_start() == behind.extent_start()
        && front.reference() == behind.reference()
}
