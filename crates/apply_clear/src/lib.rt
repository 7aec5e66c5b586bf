// Refusal 3 of the table after a plan: the rows of adds are tested one by one, then by pairs, and nothing is written.
#![tactic(auto)]

ghost use Rattle.std.specs.Prelude.{◌≡◌, map, ◌≤◌, length};
ghost use Rattle.records.specs.Refusals.{why};
ghost use Rattle.records.specs.Stages.{unless, every, pairs};
ghost use Rattle.table.specs.Rows.{rows};
ghost use Rattle.plan_def.specs.ReadBack.{add_in, adds_in};
ghost use Rattle.apply_clear.specs.Clear.{clear_staying, clear_of, add_alone, adds_apart, adds_fit};

use apply_counts::Marked;
use plan_places::is_clear;
use records::refusal::{Refusal, check};
use records::sum_fits;

// Whether a new extent shares no byte with a row that stays, row by row.
fn is_clear_by_row(m: Marked, start: u64, len: u64) -> bool
    ensures { result ≡ clear_staying m.entry.counts.gone.now start len (rows m.entry.table.numbers.now) }
{
    let mut marked = table::rows(m.table.numbers).zip(m.counts.gone);
    marked.all(|(row, gone)| *gone || is_clear(start, len, row.start, row.length))
}

// The same: an extent that is clear of all rows, as a search by halves says, is clear of those that stay.
fn is_clear_of_rows(m: Marked, start: u64, len: u64) -> bool
    ensures { result ≡ clear_staying m.entry.counts.gone.now start len (rows m.entry.table.numbers.now) }
{
    plan_places::place_clear(m.table, start, len) || is_clear_by_row(m, start, len)
}

// Whether an add is sound and clear of the rows that stay.
#[tactic(auto, unfolding(plan_def::specs::ReadBack::add_in))]
fn add_fits(m: Marked, add: &[u64; 3]) -> bool
    ensures { result ≡ add_alone m.entry.counts.gone.now (rows m.entry.table.numbers.now) (add_in add.now) }
{
    let [start, len, _] = *add;
    start != 0 && len != 0 && sum_fits(start, len) && is_clear_of_rows(m, start, len)
}

// Whether each add fits by itself.
fn each_fits(m: Marked, adds: &[[u64; 3]]) -> bool
    ensures { result ≡ every (add_alone m.entry.counts.gone.now (rows m.entry.table.numbers.now)) (map add_in adds.now) }
{
    adds.iter().all(|add| add_fits(m, add))
}

// Whether a new extent shares no byte with some adds.
fn is_clear_of_adds(adds: &[[u64; 3]], start: u64, len: u64) -> bool
    ensures { result ≡ every (clear_of start len) (map add_in adds.now) }
{
    adds.iter().all(|add| is_clear(add[0], add[1], start, len))
}

// Whether every two adds share no byte, by pairs: a loop over what is left, as each add is compared with those behind it.
#[tactic(auto, unfolding(records::specs::Stages::pairs, plan_def::specs::ReadBack::add_in))]
fn plain_apart(adds: &[[u64; 3]]) -> bool
    ensures { result ≡ pairs adds_apart (map add_in adds.now) }
{
    let mut left = adds;
    while let Some((add, behind)) = left.split_first() {
        if !is_clear_of_adds(behind, add[0], add[1]) {
            return false;
        }
        left = behind;
    }
    true
}

// Whether up to N adds share no byte, every two of them: their extents, sorted in a buffer of its own: a small one takes less time
// to zero. It stays out of its callers, whose every call would pay for it.
#[inline(never)]
fn apart_within<const N: usize>(adds: &[[u64; 3]]) -> bool
    requires { (length adds.now ≤ N) × (N ≤ 65536) }
    ensures { result ≡ pairs adds_apart (map add_in adds.now) }
{
    let mut extents = [(0u64, 0u64); N];
    apply_rows::add_pairs(adds, &mut extents);
    plan_apart::are_apart(&mut extents[..adds.len()])
}

// Whether every two adds share no byte. Few are compared by pairs; so are very many, if the first half passes.
fn are_adds_apart(adds: &[[u64; 3]]) -> bool
    ensures { result ≡ pairs adds_apart (map add_in adds.now) }
{
    let n = adds.len();
    if n <= 16 {
        return plain_apart(adds);
    }
    if n <= 1024 {
        return apart_within::<1024>(adds);
    }
    if n <= 8192 {
        return apart_within::<8192>(adds);
    }
    if n <= 65536 {
        return apart_within::<65536>(adds);
    }
    are_adds_apart(&adds[..n / 2]) && plain_apart(adds)
}

// Refusal 3 of the adds, which need not be clear of the rows that go.
pub fn adds_refusal(m: Marked, adds: &[u64]) -> Result<(), Refusal>
    ensures { why result ≡ unless (adds_fit m.entry.counts.gone.now (rows m.entry.table.numbers.now) (adds_in adds.now)) 3 }
{
    let (adds, _) = adds.as_chunks::<3>();
    check(each_fits(m, adds) && are_adds_apart(adds), Refusal::Table)
}
