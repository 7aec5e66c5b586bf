// A segment of a file's list in code: the few items that a change makes anew stand in a small buffer of records, beside
// the lent list, which is not copied.
#![tactic(auto)]

pub mod making;
pub mod remade;

ghost use Rattle.std.specs.Prelude.{◌≡◌, Bool, [], ◌∷◌, ◌++◌, ◌+◌, ◌-◌, ◌*◌, ◌≤◌, ◌<◌, ◌^◌, ltb, length, set, take, drop};
ghost use Rattle.records.specs.Lent.{old, new};
ghost use Rattle.records.specs.Select.{only};
ghost use Rattle.item.specs.Items.{Fields, fields, items, end};
ghost use Rattle.cut_def.specs.Cuts.{front, back};
ghost use Rattle.cut_segment.specs.Segments.{item_at, Added, leading, ends_by, starts_by, Leads, Answers, Runs, runs_prop, Touching, Cutting, Inserted};

use item::{Item, RECORD};
pub use making::Making;
use records::{sum_at_most, sum_past};
pub use remade::Remade;
use std::ops::Range;

// Records from..to of a list make way for the first `count` records of a buffer. They are no `Range`: that is not `Copy`, and
// a segment is handed on from step to step.
#[derive(Clone, Copy)]
pub struct Segment {
    pub from: usize,
    pub to: usize,
    pub count: usize,
}

// Records that run one behind the other: none reaches the next, and none ends past 2^63.
#[derive(Clone, Copy)]
pub struct Running<'a> {
    pub records: &'a [u8],
    ghost runs: { Runs 0 (items records.now) } by { runs_prop 0 (items records.now) },
}

// Such records, each with its shared byte.
#[derive(Clone, Copy)]
pub struct RunningLeaves<'a> {
    pub list: Running<'a>,
    pub shared: &'a [u8],
    ghost one_each: { length shared.now ≡ length (items list.records.now) },
}

// ---- a buffer of records: the caller's, of a fixed size (the library has no heap), so how many there are stands beside it

// Record n of a list.
pub fn record_at(list: &[u8], n: usize) -> Item
    requires { n < length (items list.now) }
    ensures { fields result ≡ item_at list.now n }
{
    item::item_at(list, n)
}

// Records from..to of a list.
pub fn records_in<'a>(list: &'a [u8], from: usize, to: usize) -> &'a [u8]
    requires { (from ≤ to) × (to ≤ length (items list.now)) }
    ensures { items result.now ≡ take (to - from) (drop from (items list.now)) }
{
    &list[from * RECORD..to * RECORD]
}

// An item as record n of a buffer.
pub fn put_record(seg: &mut [u8], n: usize, item: Item)
    requires { n < length (items seg.old) }
    ensures { items seg.new ≡ set (items seg.old) n (fields item) }
{
    item::put_item(seg, n * RECORD, item);
}

// One item behind the n records of a buffer.
fn append(seg: &mut [u8], n: usize, item: Item) -> usize
    requires { n < length (items seg.old) }
    ensures { Added n (fields item ∷ []) seg.old result seg.new }
{
    put_record(seg, n, item);
    n + 1
}

// ---- cutting a range out of a list

// What of an item lies before lo.
pub fn front_of(lo: u64, item: Item) -> Item
    requires { ((fields item).key ≤ lo) × (end (fields item) < 2 ^ 64) }
    ensures { fields result ≡ front lo (fields item) }
{
    let top = (item.key + item.length()).min(lo);
    let position = item.position();
    item.windowed(item.file, item.key, position, top - item.key)
}

// What of it lies from hi on: its position is advanced by as much as its key.
pub fn back_of(hi: u64, item: Item) -> Item
    requires { (hi ≤ end (fields item)) × (end (fields item) < 2 ^ 64) × ((fields item).position + (fields item).length < 2 ^ 64) }
    ensures { fields result ≡ back hi (fields item) }
{
    let end = item.key + item.length();
    let key = item.key.max(hi);
    let start = item.position();
    let position = start + (key - item.key);
    item.windowed(item.file, key, position, end - key)
}

// An item's front behind the n records of a buffer, if it starts before lo.
fn put_front(seg: &mut [u8], n: usize, lo: u64, item: Item) -> usize
    requires { (n < length (items seg.old)) × (end (fields item) < 2 ^ 64) }
    ensures { Added n (only (ltb (fields item).key lo) (front lo (fields item))) seg.old result seg.new }
{
    if item.key >= lo {
        return n;
    }
    append(seg, n, front_of(lo, item))
}

// Its back, if it ends past hi.
fn put_back(seg: &mut [u8], n: usize, hi: u64, item: Item) -> usize
    requires { (n < length (items seg.old)) × (end (fields item) < 2 ^ 64) × ((fields item).position + (fields item).length < 2 ^ 64) }
    ensures { Added n (only (ltb hi (end (fields item))) (back hi (fields item))) seg.old result seg.new }
{
    if !sum_past(item.key, item.length(), hi) {
        return n;
    }
    append(seg, n, back_of(hi, item))
}

// How many records of a list pass a test, where those that do stand in front of all others: by halves.
fn leading<P: Fn(Item) -> bool>(list: &[u8], passes: P) -> usize
    requires { P.IsAlwaysCallable passes }
    ensures { (p : Fields → Bool) → Answers P.Fn passes p → Leads p (items list.now) → result ≡ leading p (items list.now) }
{
    let (records, _) = list.as_chunks::<RECORD>();
    records.partition_point(|record| passes(item::item_at(record, 0)))
}

// The number of the first of n records, from `start` on, that starts past a key; n where there is none.
pub fn starting_by(list: &[u8], start: usize, n: usize, key: u64) -> usize
    requires { (start ≤ n) × (n ≤ length (items list.now)) }
    ensures { result ≡ start + leading (starts_by key) (drop start (take n (items list.now))) }
{
    (start..n)
        .find(|i| record_at(list, *i).key > key)
        .unwrap_or(n)
}

impl<'a> Running<'a> {
    // How many records end at most at lo.
    pub fn ending_by(self, lo: u64) -> usize
        ensures { result ≡ leading (ends_by lo) (items self.entry.records.now) }
    {
        leading(
            self.records,
            |item| sum_at_most(item.key, item.length(), lo),
        )
    }

    // How many start at most at a key.
    fn started_by(self, key: u64) -> usize
        ensures { result ≡ leading (starts_by key) (items self.entry.records.now) }
    {
        leading(self.records, |item| item.key <= key)
    }

    // The records that [lo, hi) touches, which stand one behind the other.
    pub fn touched(self, lo: u64, hi: u64) -> Range<usize>
        ensures { Touching lo hi (items self.entry.records.now) result }
    {
        if hi <= lo {
            return 0..0;
        }
        self.ending_by(lo)..self.started_by(hi - 1)
    }

    // [lo, hi) taken out of a list: the records that it touches make way for the first one's front and the last one's back.
    fn cut_segment(self, lo: u64, hi: u64, seg: &mut [u8]) -> Segment
        requires { 140 ≤ length seg.old }
        ensures { Cutting lo hi self.entry.records.now result seg.new }
    {
        let found = self.touched(lo, hi);
        let from = found.start;
        let to = found.end;
        if from == to {
            return Segment { from, to, count: 0 };
        }
        let n = put_front(seg, 0, lo, record_at(self.records, from));
        let m = put_back(seg, n, hi, record_at(self.records, to - 1));
        Segment { from, to, count: m }
    }
}

// ---- putting an item in

// An item in front of record k of n, which moves up with those behind it. (Record by record: `rotate_right` would call memcpy and
// memmove, which the library for C does without.)
fn slide(seg: &mut [u8], k: usize, n: usize, item: Item)
    requires { (k ≤ n) × (n < length (items seg.old)) }
    ensures { take (n + 1) (items seg.new) ≡ take k (items seg.old) ++ fields item ∷ drop k (take n (items seg.old)) }
{
    let mut carried = item;
    for i in k..n {
        let next = record_at(seg, i);
        put_record(seg, i, carried);
        carried = next;
    }
    put_record(seg, n, carried);
}

// An item put among a segment's, at its key: any item, and a segment of any list.
pub fn insert_item(seg: &mut [u8], s: Segment, item: Item) -> Segment
    requires { (s.count + 1) * 70 ≤ length seg.old }
    ensures { Inserted (fields item) s seg.old result seg.new }
{
    let k = starting_by(seg, 0, s.count, item.key);
    slide(seg, k, s.count, item);
    Segment {
        count: s.count + 1,
        ..s
    }
}
