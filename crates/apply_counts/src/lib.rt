// The lines of a plan counted by row of the table, in arrays that are lent: by how much each row's count moves, or what it gains
// and what it loses, and which rows go. Refusals 14, an extent without a row, and 3, a net count that leaves 64 bits.
#![tactic(auto)]

ghost use Rattle.std.specs.Prelude.{◌≡◌, true, ◌++◌, ℕ, ◌+◌, ◌-◌, ◌*◌, ◌/◌, ◌≤◌, ◌<◌, ◌^◌, not, cond, count_by, Some, None, length, take};
ghost use Rattle.records.specs.Lent.{old, new};
ghost use Rattle.records.specs.Refusals.{why};
ghost use Rattle.records.specs.Stages.{unless, stage};
ghost use Rattle.table.specs.Rows.{rows};
ghost use Rattle.apply_def.specs.Apply.{row_missing};
ghost use Rattle.apply_def.specs.Lent.{lent, plan_lent};
ghost use Rattle.plan_def.specs.ReadBack.{refs_in};
ghost use Rattle.apply_counts.specs.Counts.{AllTallied, AllMarked, Counted, CountedBothWays, Room, Zeros, net, net_fits, net_count_fits, nets};

use apply_def::Parts;
use records::refusal::{Refusal, check};
use table::Table;

// What was counted of the first rows of a table: by how much the count of each moves, and whether it goes.
#[derive(Clone, Copy)]
pub struct RowCounts<'a> {
    pub rows: usize,
    pub changes: &'a [i64],
    pub gone: &'a [bool],
    ghost each_changes: { rows ≤ length changes.now },
    ghost each_gone: { rows ≤ length gone.now },
}

// A table with what was counted of its rows, each of them.
#[derive(Clone, Copy)]
pub struct Marked<'a, 'b> {
    pub table: Table<'a>,
    pub counts: RowCounts<'b>,
    ghost each_row: { length (rows table.numbers.now) ≡ counts.rows },
}

// The counts of the rows that lines name, moved by `by` for each line; 14 if one has no row, and the others are counted still.
fn tally(table: Table, lines: &[u64], by: i64, changes: &mut [i64]) -> Result<(), Refusal>
    requires { Room (rows table.numbers.now) lines.now by changes.old }
    ensures { AllTallied (rows table.entry.numbers.now) (refs_in lines.now) by changes.old (why result) changes.new }
{
    let mut found = true;
    for line in lines.as_chunks::<2>().0 {
        match table.find_row(line[0]) {
            Some((k, _)) => changes[k] += by,
            None => found = false,
        }
    }
    check(found, Refusal::NoRow)
}

// Marks for the rows that lines name.
fn mark(table: Table, lines: &[u64], gone: &mut [bool])
    requires { length (rows table.numbers.now) ≤ length gone.old }
    ensures { AllMarked (rows table.entry.numbers.now) (refs_in lines.now) gone.old gone.new }
{
    for line in lines.as_chunks::<2>().0 {
        if let Some((k, _)) = table.find_row(line[0]) {
            gone[k] = true;
        }
    }
}

// A table with what a plan's lines do to its rows, counted in arrays of zeros; and 14 if a line has no row.
pub fn count_lines<'a, 'b>(
    table: Table<'a>,
    plan: Parts,
    changes: &'b mut [i64],
    gone: &'b mut [bool],
) -> (Marked<'a, 'b>, Result<(), Refusal>)
    requires { Zeros (length (rows table.numbers.now)) changes.old gone.old }
    ensures { (why result.1 ≡ stage (row_missing (rows table.entry.numbers.now)) (refs_in plan.entry.shares.now ++ (refs_in plan.entry.unrefs.now ++ refs_in plan.entry.releases.now)))
        × Counted (plan_lent (lent plan.entry)) (rows table.entry.numbers.now) result.0.counts.changes.now result.0.counts.gone.now
        × (result.0.table ≡ table.entry) }
{
    mark(table, plan.releases, gone);
    let a = tally(table, plan.shares, 1, changes);
    let b = tally(table, plan.unrefs, -1, changes);
    let c = tally(table, plan.releases, -1, changes);
    let counts = RowCounts {
        rows: table.numbers.len() / table::WIDTH,
        changes,
        gone,
    };
    (Marked { table, counts }, a.and(b).and(c))
}

// What a plan's lines do to the rows of a table, counted in arrays of zeros: the references that each row gains, those that it loses,
// and whether it goes; and 14 if a line has no row.
pub fn count_gains_and_losses(
    table: Table,
    plan: Parts,
    gained: &mut [i64],
    lost: &mut [i64],
    gone: &mut [bool],
) -> Result<(), Refusal>
    requires { Zeros (length (rows table.numbers.now)) gained.old gone.old × Zeros (length (rows table.numbers.now)) lost.old gone.old }
    ensures { (why result ≡ stage (row_missing (rows table.entry.numbers.now)) (refs_in plan.entry.shares.now ++ (refs_in plan.entry.unrefs.now ++ refs_in plan.entry.releases.now)))
        × CountedBothWays (plan_lent (lent plan.entry)) (rows table.entry.numbers.now) gained.new lost.new gone.new }
{
    mark(table, plan.releases, gone);
    let a = tally(table, plan.shares, 1, gained);
    let b = tally(table, plan.unrefs, 1, lost);
    let c = tally(table, plan.releases, 1, lost);
    a.and(b).and(c)
}

impl<'a> RowCounts<'a> {
    // How many rows stay.
    pub fn staying(self) -> usize
        ensures { result ≡ count_by not (take self.entry.rows self.entry.gone.now) }
    {
        self.gone[..self.rows].iter().filter(|gone| !**gone).count()
    }
}

// A count that moves, if it does not leave 64 bits.
pub fn net(references: u64, change: i64) -> Option<u64>
    ensures { result ≡ cond (net_fits references change) (Some (net references change)) None }
{
    references.checked_add_signed(change)
}

// A net count, of what a row gains and what it loses, where it is not below zero and fits 64 bits.
pub fn net_count(references: u64, gained: u64, lost: u64) -> u64
    requires { net_count_fits references gained lost ≡ true }
    ensures { result ≡ references + gained - lost }
{
    if gained <= lost {
        return references - (lost - gained);
    }
    references + (gained - lost)
}

impl<'a, 'b> Marked<'a, 'b> {
    // Refusal 3: a net count that leaves 64 bits.
    pub fn nets_refusal(self) -> Result<(), Refusal>
        ensures { why result ≡ unless (nets self.entry.counts.changes.now (rows self.entry.table.numbers.now)) 3 }
    {
        let fit = table::rows(self.table.numbers)
            .zip(self.counts.changes)
            .all(|(row, change)| net(row.references, *change).is_some());
        check(fit, Refusal::Table)
    }
}
