// A cut's splits and the byte count, over lent slices.
#![tactic(auto, unfolding(records::specs::Stages::first, records::specs::Stages::stage, records::specs::Select::any))]

ghost use Rattle.std.specs.Prelude.{◌≡◌, [], ◌∷◌, map, ◌+◌, ◌<◌, ◌^◌, length};
ghost use Rattle.records.specs.Lent.{old, new};
ghost use Rattle.records.specs.Select.{keep};
ghost use Rattle.records.specs.Refusals.{why};
ghost use Rattle.records.specs.Stages.{stage};
ghost use Rattle.item.specs.Items.{fields, items};
ghost use Rattle.table.specs.Rows.{rows, one_more_reference};
ghost use Rattle.cut_def.specs.Cuts.{split};
ghost use Rattle.cut_def.specs.Pieces.{counted_bytes};
ghost use Rattle.cut_def.specs.Refs.{Ref, ref_of};
ghost use Rattle.plan_def.specs.Outputs.{ref_numbers};
ghost use Rattle.plan_lines.specs.Lines.{Laid};
ghost use Rattle.cut_splits.specs.Splits.{split_refusal, elsewhere, shared};

use drop_lines::Cut;
use item::Item;
use records::refusal::Refusal;
use table::Table;

// ---- splits: items that a cut leaves on both sides

// The refusal of one more reference to an item's extent, if the cut of [lo, hi) splits it.
fn split_refusal(table: Table, lo: u64, hi: u64, item: Item) -> Result<(), Refusal>
    ensures { why result ≡ split_refusal lo hi (rows table.entry.numbers.now) (fields item) }
{
    if cut_def::is_split(lo, hi, item) {
        table.one_more_reference(item.extent_start())?;
    }
    Ok(())
}

// The first refusal of a split's share, in the list's order.
#[tactic(auto, using(crate::proofs::Shares::splits_stage), unfolding(records::specs::Stages::first, records::specs::Stages::stage))]
pub fn splits_refusal(list: &[u8], table: Table, lo: u64, hi: u64) -> Result<(), Refusal>
    ensures { why result ≡ stage (λ (q : Ref). one_more_reference q.start (rows table.entry.numbers.now)) (map ref_of (keep (split lo hi) (items list.now))) }
{
    for item in item::items(list) {
        split_refusal(table, lo, hi, item)?;
    }
    Ok(())
}

// Whether an item is split and its extent is none of the cut's two.
fn is_shared(k: Cut, item: Item) -> bool
    ensures { result ≡ shared k.lo k.hi k.one k.two (fields item) }
{
    let start = item.extent_start();
    cut_def::is_split(k.lo, k.hi, item) && !(start == k.one || start == k.two)
}

// The splits' shares, but for those of two extents, whose references are compared; 0 is no extent. That the count has 64 bits is
// asked for: a list has few items, but n counts lines that were there before, of which nothing else is known.
pub fn put_splits(k: Cut, list: &[u8], out: &mut [u64], n: usize) -> usize
    requires { n + length (items list.now) < 2 ^ 64 }
    ensures { Laid ref_numbers 2 n (keep (elsewhere (k.one ∷ k.two ∷ [])) (map ref_of (keep (split k.lo k.hi) (items list.now)))) out.old result out.new }
{
    plan_lines::put_refs(item::items(list).filter(|item| is_shared(k, *item)), out, n)
}

// ---- the byte count

// The lengths of the items that are no holes.
pub fn counted_bytes(list: &[u8]) -> u64
    requires { counted_bytes (items list.now) < 2 ^ 64 }
    ensures { result ≡ counted_bytes (items list.now) }
{
    item::items(list)
        .filter(|item| !cut_def::is_hole(*item))
        .map(|item| item.length())
        .sum()
}
