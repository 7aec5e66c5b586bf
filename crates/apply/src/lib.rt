// Applying a plan to a list and to the extents table, in place. Both are lent with a count and room behind it.
#![tactic(auto)]

ghost use Rattle.std.specs.Prelude.{◌≤◌};
ghost use Rattle.records.specs.Lent.{old};
ghost use Rattle.apply_def.specs.Lent.{lent, plan_lent, apply_lent};
ghost use Rattle.apply.specs.Outcomes.{MetApplying};
ghost use Rattle.apply.specs.Raw.{ReadyFor, apply_to};

pub use apply_def::Parts;
pub use apply_refusals::{Sizes, Target};
use apply_walk::Edited;
use records::refusal::Refusal;
use table::Table;

// A plan applied, where what is lent is accepted; its lines are counted by row in arrays of its own, for at most N rows: to zero 65,536
// counts takes longer than to apply a small plan. It is not built into its caller, so that a call with few rows does not walk over the
// half megabyte of stack that many want.
#[inline(never)]
fn apply_within<const N: usize>(
    target: Target,
    list: &mut [u8],
    table: &mut [u64],
    plan: Parts,
) -> Result<Sizes, Refusal>
    requires { ReadyFor target list.old table.old plan × (target.sizes.rows ≤ N) × (N ≤ 65536) }
    ensures { MetApplying (apply_to target list.old table.old (plan_lent (lent plan.entry))) result list table }
{
    let mut changes = [0i64; N];
    let mut gone = [false; N];
    let Sizes { items, rows } = target.sizes;
    let (end, stop) = (items * item::RECORD, rows * table::WIDTH);
    let room = apply_refusals::room(list, table);
    let edited = Edited {
        list: &list[..end],
        edits: plan.edits,
    };
    let kept = Table {
        numbers: &table[..stop],
    };
    let (marked, missing) = apply_counts::count_lines(kept, plan, &mut changes, &mut gone);
    let counts = marked.counts;
    apply_refusals::result_refusal(target, edited, marked, plan.adds, missing, room)?;
    let items = apply_items::items_after(list, items, plan.edits);
    let rows = apply_rows::rows_after(table, counts, target.generation, plan.adds);
    Ok(Sizes { items, rows })
}

// A plan applied, where what is lent is accepted.
fn apply_ready(
    target: Target,
    list: &mut [u8],
    table: &mut [u64],
    plan: Parts,
) -> Result<Sizes, Refusal>
    requires { ReadyFor target list.old table.old plan }
    ensures { MetApplying (apply_to target list.old table.old (plan_lent (lent plan.entry))) result list table }
{
    if target.sizes.rows <= 64 {
        return apply_within::<64>(target, list, table, plan);
    }
    if target.sizes.rows <= 1024 {
        return apply_within::<1024>(target, list, table, plan);
    }
    apply_within::<65536>(target, list, table, plan)
}

// A plan applied to the first records of a list and the first rows of a table, in place. Where it is refused nothing is changed.
pub fn apply_plan(
    target: Target,
    list: &mut [u8],
    table: &mut [u64],
    plan: Parts,
) -> Result<Sizes, Refusal>
    ensures { MetApplying (apply_lent target.sector target.number target.generation target.sizes.items target.sizes.rows list.old table.old (lent plan.entry)) result list table }
{
    apply_refusals::size_refusal(list, table, target.sizes, plan)?;
    let end = target.sizes.items * item::RECORD;
    let stop = target.sizes.rows * table::WIDTH;
    apply_refusals::lent_refusal(target, &list[..end], &table[..stop], plan.edits)?;
    apply_ready(target, list, table, plan)
}
