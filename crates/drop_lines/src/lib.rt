// Items that a cut drops, over a lent list, its shared bytes and the table: what they are refused with, which extents
// are released, and a line for each drop.
#![tactic(auto)]

#[cfg(test)]
mod tests;

ghost use Rattle.std.specs.Prelude.{◌≡◌, ℕ, ◌+◌, ◌/◌, ◌≤◌, ◌<◌, ◌^◌, length};
ghost use mathlib.Core.List.{List};
ghost use Rattle.records.specs.Lent.{old, new};
ghost use Rattle.records.specs.Refusals.{why};
ghost use Rattle.item.specs.Items.{fields, items};
ghost use Rattle.table.specs.Rows.{rows};
ghost use Rattle.plan_def.specs.Outputs.{ref_numbers};
ghost use Rattle.plan_lines.specs.Lines.{Laid};
ghost use Rattle.ref_def.specs.Drops.{drop_refusal, earlier, drops_refusal, released, releases as all_releases, unrefs as all_unrefs};
ghost use Rattle.ref_def.specs.Lent.{leaves_of};
ghost use Rattle.drop_lines.specs.Dropped.{taken, drops_in};
ghost use Rattle.drop_lines.specs.Lent.{cut_drops};
ghost use Rattle.drop_lines.specs.Raw.{due, item_due, drop_of, lines_at, row_unrefs, row_releases};
ghost use Rattle.drop_chains.specs.Counts.{Countable};
ghost use Rattle.drop_chains.specs.Links.{links, Headless, Blank, Chained, Linked};

use drop_chains::Chains;
pub use drop_chains::DropCounts;
use item::Item;
use records::refusal::{Refusal, check};
use ref_def::Leaves;
use table::{Row, Table};

// The range that is cut, and the starts of two extents that are written in place (0: none), whose items are compared
// instead of dropped.
#[derive(Clone, Copy)]
pub struct Cut {
    pub lo: u64,
    pub hi: u64,
    pub one: u64,
    pub two: u64,
}

// A refusal with the start of the extent that it is due at.
#[derive(Clone, Copy)]
pub struct Refused {
    pub start: u64,
    pub why: Refusal,
}

// Whether the cut drops an item.
fn is_dropped(c: Cut, item: Item) -> bool
    ensures { result ≡ taken c (fields item) }
{
    cut_def::is_covered(c.lo, c.hi, item)
        && !cut_def::is_hole(item)
        && !ref_def::is_among(c.one, c.two, item)
}

// Refusals 14 and 17 of one drop.
fn drop_refusal(table: Table, item: Item) -> Result<(), Refusal>
    ensures { why result ≡ drop_refusal (rows table.entry.numbers.now) (fields item) }
{
    let Some((_, row)) = table.find_row(item.extent_start()) else {
        return Err(Refusal::NoRow);
    };
    check(table::window_sound(item, row), Refusal::Window)
}

// What is due for one item.
fn item_due(c: Cut, table: Table, item: Item) -> Option<Refused>
    ensures { due result ≡ item_due c (rows table.entry.numbers.now) (fields item) }
{
    if !is_dropped(c, item) {
        return None;
    }
    let why = drop_refusal(table, item).err()?;
    let start = item.extent_start();
    Some(Refused { start, why })
}

// Of two refusals the one at the lower start.
fn earlier(a: Option<Refused>, b: Option<Refused>) -> Option<Refused>
    ensures { due result ≡ earlier (due a) (due b) }
{
    match (a, b) {
        (Some(first), Some(second)) if second.start < first.start => b,
        (None, _) => b,
        _ => a,
    }
}

// Refusals 14 and 17 of the drops, by extent start. The shared bytes do not count.
pub fn drops_refusal(c: Cut, list: &[u8], table: Table) -> Result<(), Refusal>
    ensures { (bs : List ℕ) → length bs ≡ length (items list.now) → why result ≡ drops_refusal (rows table.entry.numbers.now) (drops_in c (items list.now) bs) }
{
    let mut first: Option<Refused> = None;
    for item in item::items(list) {
        first = earlier(first, item_due(c, table, item));
    }
    match first {
        Some(refused) => Err(refused.why),
        None => Ok(()),
    }
}

// Whether an item is a drop of the extent at `start`.
fn is_drop_of(c: Cut, start: u64, item: Item) -> bool
    ensures { result ≡ drop_of c start (fields item) }
{
    item.extent_start() == start && is_dropped(c, item)
}

// Whether an extent is released: all its references are drops, and none of their leaves is shared.
pub fn is_released(c: Cut, leaves: Leaves, row: Row) -> bool
    ensures { result ≡ released (cut_drops c leaves.entry) row }
{
    let bytes = item::items(leaves.list)
        .zip(leaves.shared)
        .filter(|(item, _)| is_drop_of(c, row.start, *item))
        .map(|(_, byte)| *byte);
    drop_chains::is_freed(row.references, bytes)
}

// A line for each drop of the extent at `start`, in list order.
fn put_lines(c: Cut, start: u64, list: &[u8], out: &mut [u64], n: usize) -> usize
    requires { n + length (lines_at c start (items list.now)) < 2 ^ 64 }
    ensures { Laid ref_numbers 2 n (lines_at c start (items list.now)) out.old result out.new }
{
    let drops = item::items(list).filter(|item| is_drop_of(c, start, *item));
    plan_lines::put_refs(drops, out, n)
}

// The lines of one row's drops: releases if its extent is released, else unrefs.
fn put_row(
    c: Cut,
    leaves: Leaves,
    row: Row,
    unrefs: &mut [u64],
    releases: &mut [u64],
    at: DropCounts,
) -> DropCounts
    requires { (at.unrefs + length (row_unrefs (cut_drops c leaves) row) < 2 ^ 64)
        × (at.releases + length (row_releases (cut_drops c leaves) row) < 2 ^ 64) }
    ensures unrefs { Laid ref_numbers 2 at.unrefs (row_unrefs (cut_drops c leaves.entry) row) unrefs.old result.unrefs unrefs.new }
    ensures releases { Laid ref_numbers 2 at.releases (row_releases (cut_drops c leaves.entry) row) releases.old result.releases releases.new }
{
    if is_released(c, leaves, row) {
        let n = put_lines(c, row.start, leaves.list, releases, at.releases);
        return DropCounts { releases: n, ..at };
    }
    let n = put_lines(c, row.start, leaves.list, unrefs, at.unrefs);
    DropCounts { unrefs: n, ..at }
}

// The lines of all rows, each by passes over the list: for lists and tables that are longer than any that is accepted.
fn put_plain(
    c: Cut,
    leaves: Leaves,
    table: Table,
    unrefs: &mut [u64],
    releases: &mut [u64],
    at: DropCounts,
) -> DropCounts
    requires { Countable at (length (items leaves.list.now)) }
    ensures unrefs { Laid ref_numbers 2 at.unrefs (all_unrefs (rows table.entry.numbers.now) (cut_drops c leaves.entry)) unrefs.old result.unrefs unrefs.new }
    ensures releases { Laid ref_numbers 2 at.releases (all_releases (rows table.entry.numbers.now) (cut_drops c leaves.entry)) releases.old result.releases releases.new }
{
    let mut counts = at;
    for row in table::rows(table.numbers) {
        counts = put_row(c, leaves, row, unrefs, releases, counts);
    }
    counts
}

// ---- drops chained by row

// The drops chained by row, in list order: they are put in from the last to the first, each before those behind it. Where nothing
// stood at any item, each number leads onward.
fn link(c: Cut, leaves: Leaves, table: Table, chains: &mut Chains)
    requires { Headless (rows table.numbers.now) (leaves_of leaves) (links chains.old) }
    ensures chained { Chained (taken c) (rows table.entry.numbers.now) (leaves_of leaves.entry) 0 (links chains.new) }
    ensures linked { Blank (rows table.entry.numbers.now) (leaves_of leaves.entry) (links chains.old)
        → Linked (taken c) (rows table.entry.numbers.now) (leaves_of leaves.entry) 0 (links chains.new) }
{
    // A reader goes forward alone.
    for i in (0..leaves.list.len() / item::RECORD).rev() {
        let item = item::item_at(leaves.list, i);
        if is_dropped(c, item) {
            chains.link(table, item, i);
        }
    }
}

// The lines of all rows, by chains in arrays of a size that suffices. It is not built into its caller, so that a call with few rows
// does not touch the half megabyte of stack that the largest arrays take.
#[inline(never)]
fn put_sized<const N: usize>(
    c: Cut,
    leaves: Leaves,
    table: Table,
    unrefs: &mut [u64],
    releases: &mut [u64],
    at: DropCounts,
) -> DropCounts
    requires countable { Countable at (length (items leaves.list.now)) }
    requires size { (length table.numbers.now / 5 ≤ N) × (length leaves.list.now / 70 ≤ N) × (N ≤ 65536) }
    ensures unrefs { Laid ref_numbers 2 at.unrefs (all_unrefs (rows table.entry.numbers.now) (cut_drops c leaves.entry)) unrefs.old result.unrefs unrefs.new }
    ensures releases { Laid ref_numbers 2 at.releases (all_releases (rows table.entry.numbers.now) (cut_drops c leaves.entry)) releases.old result.releases releases.new }
{
    let mut heads = [0u32; N];
    let mut nexts = [0u32; N];
    let mut chains = Chains {
        heads: &mut heads,
        nexts: &mut nexts,
        span: table.numbers.len() / table::WIDTH..0,
    };
    link(c, leaves, table, &mut chains);
    chains.put_rows(leaves, table.numbers, unrefs, releases, at)
}

// A line for each drop: a release if its extent is released, else an unref; each by extent start, then in list order. That the
// counts have 64 bits is asked for: a list has few items, but `at` counts lines that were there before.
pub fn put_drops(
    c: Cut,
    leaves: Leaves,
    table: Table,
    unrefs: &mut [u64],
    releases: &mut [u64],
    at: DropCounts,
) -> DropCounts
    requires { Countable at (length (items leaves.list.now)) }
    ensures unrefs { Laid ref_numbers 2 at.unrefs (all_unrefs (rows table.entry.numbers.now) (cut_drops c leaves.entry)) unrefs.old result.unrefs unrefs.new }
    ensures releases { Laid ref_numbers 2 at.releases (all_releases (rows table.entry.numbers.now) (cut_drops c leaves.entry)) releases.old result.releases releases.new }
{
    let most = (table.numbers.len() / table::WIDTH).max(leaves.list.len() / item::RECORD);
    if most <= 64 {
        return put_sized::<64>(c, leaves, table, unrefs, releases, at);
    }
    if most <= 1024 {
        return put_sized::<1024>(c, leaves, table, unrefs, releases, at);
    }
    if most <= 65536 {
        return put_sized::<65536>(c, leaves, table, unrefs, releases, at);
    }
    put_plain(c, leaves, table, unrefs, releases, at)
}
