// What a cut splits and drops, looked for among the records that it touches: no others can be split or dropped.
#![tactic(auto)]

ghost use Rattle.std.specs.Prelude.{◌≡◌, List, [], ◌∷◌, map, ℕ, ◌+◌, ◌<◌, ◌≤◌, ◌^◌, length};
ghost use Rattle.records.specs.Lent.{old, new};
ghost use Rattle.records.specs.Refusals.{why};
ghost use Rattle.records.specs.Select.{keep};
ghost use Rattle.records.specs.Stages.{stage};
ghost use Rattle.item.specs.Items.{items};
ghost use Rattle.table.specs.Rows.{rows, one_more_reference};
ghost use Rattle.cut_def.specs.Cuts.{split};
ghost use Rattle.cut_def.specs.Refs.{Ref, ref_of};
ghost use Rattle.ref_def.specs.Drops.{drops_refusal, releases as all_releases, unrefs as all_unrefs};
ghost use Rattle.plan_def.specs.Outputs.{ref_numbers};
ghost use Rattle.plan_lines.specs.Lines.{Laid};
ghost use Rattle.drop_chains.specs.Counts.{Countable};
ghost use Rattle.drop_lines.specs.Dropped.{drops_in};
ghost use Rattle.cut_splits.specs.Splits.{elsewhere};
ghost use Rattle.cut_touched.specs.Parts.{TouchedPart};

use cut_segment::{Running, RunningLeaves, records_in};
use drop_lines::Cut;
pub use drop_lines::DropCounts;
use records::refusal::Refusal;
use ref_def::Leaves;
use table::Table;

// Those that the cut of [lo, hi) touches.
fn touched_part<'a>(list: Running<'a>, lo: u64, hi: u64) -> &'a [u8]
    ensures { TouchedPart lo hi (items list.entry.records.now) (items result.now) }
{
    let found = list.touched(lo, hi);
    records_in(list.records, found.start, found.end)
}

// `cut_splits::splits_refusal` of a list whose records run one behind the other.
pub fn splits_refusal(list: Running, table: Table, lo: u64, hi: u64) -> Result<(), Refusal>
    ensures { why result ≡ stage (λ (q : Ref). one_more_reference q.start (rows table.entry.numbers.now)) (map ref_of (keep (split lo hi) (items list.entry.records.now))) }
{
    cut_splits::splits_refusal(touched_part(list, lo, hi), table, lo, hi)
}

// `cut_splits::put_splits` of such a list.
pub fn put_splits(k: Cut, list: Running, out: &mut [u64], n: usize) -> usize
    requires { n + length (items list.records.now) < 2 ^ 64 }
    ensures { Laid ref_numbers 2 n (keep (elsewhere (k.one ∷ k.two ∷ [])) (map ref_of (keep (split k.lo k.hi) (items list.entry.records.now)))) out.old result out.new }
{
    cut_splits::put_splits(k, touched_part(list, k.lo, k.hi), out, n)
}

// `drop_lines::drops_refusal` of such a list.
pub fn drops_refusal(k: Cut, list: Running, table: Table) -> Result<(), Refusal>
    ensures { (bs : List ℕ) → length bs ≡ length (items list.entry.records.now) → why result ≡ drops_refusal (rows table.entry.numbers.now) (drops_in k (items list.entry.records.now) bs) }
{
    drop_lines::drops_refusal(k, touched_part(list, k.lo, k.hi), table)
}

// `drop_lines::put_drops` of such a list.
pub fn put_drops(
    k: Cut,
    leaves: RunningLeaves,
    table: Table,
    unrefs: &mut [u64],
    releases: &mut [u64],
    at: DropCounts,
) -> DropCounts
    requires { Countable at (length (items leaves.list.records.now)) }
    ensures unrefs { Laid ref_numbers 2 at.unrefs (all_unrefs (rows table.entry.numbers.now) (drops_in k (items leaves.entry.list.records.now) leaves.entry.shared.now)) unrefs.old result.unrefs unrefs.new }
    ensures releases { Laid ref_numbers 2 at.releases (all_releases (rows table.entry.numbers.now) (drops_in k (items leaves.entry.list.records.now) leaves.entry.shared.now)) releases.old result.releases releases.new }
{
    let found = leaves.list.touched(k.lo, k.hi);
    let list = records_in(leaves.list.records, found.start, found.end);
    let shared = &leaves.shared[found];
    drop_lines::put_drops(k, Leaves { list, shared }, table, unrefs, releases, at)
}
