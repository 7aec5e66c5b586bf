// Items of a segment joined with those beside them (`join_segment`, `join_around`): those of the buffer, and the list's on
// either side.
#![tactic(auto)]

ghost use Rattle.std.specs.Prelude.{◌≡◌, true, ◌++◌, ◌+◌, ◌-◌, ◌≤◌, ◌<◌, length, take, drop};
ghost use Rattle.records.specs.Lent.{old, new};
ghost use Rattle.records.specs.Stages.{every};
ghost use Rattle.item.specs.Items.{fields, items};
ghost use Rattle.cut_segment.specs.Segments.{item_at, bounded, Good, Around};
ghost use Rattle.cut_segment.specs.Making.{Stays};
ghost use Rattle.cut_joins.specs.Joins.{Joined, Within, Behind, Before, Joining, JoinedAround, Reaching};

use cut_segment::{Making, Segment, put_record, record_at, starting_by};
use item::{Item, RECORD};

// Record k of n taken away; those behind it move down. (Record by record, as `slide` in cut_segment.)
fn remove(seg: &mut [u8], k: usize, n: usize)
    requires { (k < n) × (n ≤ length (items seg.old)) }
    ensures { take (n - 1) (items seg.new) ≡ take k (items seg.old) ++ drop (k + 1) (take n (items seg.old)) }
{
    for i in k..n - 1 {
        let next = record_at(seg, i + 1);
        put_record(seg, i, next);
    }
}

// Two items joined, if they are joinable.
fn joined(front: Item, behind: Item, generation: u64) -> Option<Item>
    requires { bounded (fields behind) ≡ true }
    ensures { Joined generation (fields front) (fields behind) result }
{
    if !cut_def::is_joinable(front, behind) {
        return None;
    }
    Some(front.joined(behind, generation))
}

// Record k of n joined with the next one, if they are joinable.
fn join_within(seg: &mut [u8], k: usize, n: usize, generation: u64) -> usize
    requires { (k + 1 < n) × (n ≤ length (items seg.old)) × (every bounded (take n (items seg.old)) ≡ true) }
    ensures { Within generation k n seg.old result seg.new }
{
    let Some(item) = joined(record_at(seg, k), record_at(seg, k + 1), generation) else {
        return n;
    };
    put_record(seg, k, item);
    remove(seg, k + 1, n);
    n - 1
}

// ---- `join_end` and `join_start`, `join_behind` and `join_before` move different bounds of the segment; what they share is
// `joined` and `join_within`

// Record k of a segment, the last one, joined with the list's record behind it.
fn join_end(list: &[u8], seg: &mut [u8], s: Segment, k: usize, generation: u64) -> Segment
    requires { Good list.now s seg.old × (k + 1 ≡ s.count) }
    ensures { Behind generation list.now s seg.old k result seg.new }
{
    if s.to == list.len() / RECORD {
        return s;
    }
    let Some(item) = joined(record_at(seg, k), record_at(list, s.to), generation) else {
        return s;
    };
    put_record(seg, k, item);
    Segment { to: s.to + 1, ..s }
}

// Record k of a segment joined with what is behind it.
fn join_behind(list: &[u8], seg: &mut [u8], s: Segment, k: usize, generation: u64) -> Segment
    requires { Good list.now s seg.old × (k < s.count) }
    ensures { Behind generation list.now s seg.old k result seg.new }
{
    if k + 1 == s.count {
        return join_end(list, seg, s, k, generation);
    }
    let n = join_within(seg, k, s.count, generation);
    Segment { count: n, ..s }
}

// The first record of a segment joined with the list's record before it.
fn join_start(list: &[u8], seg: &mut [u8], s: Segment, generation: u64) -> Segment
    requires { Good list.now s seg.old × (0 < s.count) }
    ensures { Before generation list.now s seg.old 0 result seg.new }
{
    if s.from == 0 {
        return s;
    }
    let before = s.from - 1;
    let Some(item) = joined(record_at(list, before), record_at(seg, 0), generation) else {
        return s;
    };
    put_record(seg, 0, item);
    Segment { from: before, ..s }
}

// Record k of a segment joined with what is before it.
fn join_before(list: &[u8], seg: &mut [u8], s: Segment, k: usize, generation: u64) -> Segment
    requires { Good list.now s seg.old × (k < s.count) }
    ensures { Before generation list.now s seg.old k result seg.new }
{
    if k == 0 {
        return join_start(list, seg, s, generation);
    }
    let n = join_within(seg, k - 1, s.count, generation);
    Segment { count: n, ..s }
}

// Around a sector written in place: the last item at or before it joined with the one behind it, and then with the one
// before it. The list's records need not run one behind the other.
pub fn join_segment(
    list: &[u8],
    seg: &mut [u8],
    s: Segment,
    generation: u64,
    sector: u64,
) -> Segment
    requires { Good list.now s seg.old × Around sector list.now s × (0 < s.count) × ((item_at seg.old 0).key ≤ sector) }
    ensures { Joining generation sector list.now s seg.old result seg.new }
{
    let k = starting_by(seg, 0, s.count, sector) - 1;
    let t = join_behind(list, seg, s, k, generation);
    join_before(list, seg, t, k, generation)
}

// The same of a list of which a segment is in the making.
pub fn join_around(m: &mut Making, generation: u64, sector: u64)
    requires { Reaching sector m.old }
    ensures joined { JoinedAround generation sector m.old m.new }
    ensures stays { Stays m.old m.new }
{
    m.segment = join_segment(m.list.records, m.buffer, m.segment, generation, sector);
}
