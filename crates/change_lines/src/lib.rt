// `change_range` in code: the lines of a change for each output, read off the list with its segment made anew.
#![tactic(auto)]

ghost use Rattle.std.specs.Prelude.{true, map, option_to_list, ◌≡◌, ◌++◌, ◌+◌, ◌<◌, ◌^◌, length};
ghost use Rattle.records.specs.Lent.{old, new};
ghost use Rattle.item.specs.Items.{items};
ghost use Rattle.table.specs.Rows.{rows};
ghost use Rattle.records.specs.Stages.{pairs};
ghost use Rattle.lists.specs.Lists.{rises};
ghost use Rattle.cut_def.specs.Pieces.{built, items_of, insert_all};
ghost use Rattle.edit_lines.specs.Pieced.{piece_items};
ghost use Rattle.cut_def.specs.Edits.{edits};
ghost use Rattle.cut_segment.specs.Remade.{taken_of, made_of};
ghost use Rattle.ref_def.specs.Drops.{releases as all_releases, unrefs as all_unrefs};
ghost use Rattle.drop_lines.specs.Dropped.{drops_in};
ghost use Rattle.plan_def.specs.Outputs.{edit_bytes, ref_numbers, write_numbers};
ghost use Rattle.plan_lines.specs.Lines.{Laid};
ghost use Rattle.change_rewrites.specs.Raw.{Writable, write_of};
ghost use Rattle.change_segment.specs.Sides.{sides, write_at, writes_of, cut_of, compared_of, shares_of, bytes_of};

use change_def::{RangeChange, Rewrite};
use change_segment::{Parts, Places, back_new, front_new};
use cut_segment::{Remade, RunningLeaves};
use drop_lines::{Cut, DropCounts};
use ref_compare::Compared;
use table::Table;

// ---- writes

// A sector's write to its new extent as line n, if it takes one.
fn put_new_write(r: Option<Rewrite>, place: u64, out: &mut [u64], n: usize) -> usize
    requires { n + 1 < 2 ^ 64 }
    ensures { Laid write_numbers 4 n (map (write_at place) (option_to_list r)) out.old result out.new }
{
    let Some(r) = r else {
        return n;
    };
    plan_lines::put_write(out, n, r.sector, place, r.first, r.end)
}

// The writes in place of a plan.
fn put_writes_in_place(p: Parts, out: &mut [u64]) -> usize
    requires { Writable p.front × Writable p.back }
    ensures { Laid write_numbers 4 0 (sides p.front p.back write_of write_of) out.old result out.new }
{
    let n = change_rewrites::put_in_place(p.front, out, 0);
    change_rewrites::put_in_place(p.back, out, n)
}

// The writes of a plan: those in place first.
pub fn put_writes(c: RangeChange, p: Parts, at: Places, out: &mut [u64]) -> usize
    requires { Writable p.front × Writable p.back }
    ensures { Laid write_numbers 4 0 (writes_of c p at.front at.back) out.old result out.new }
{
    let n = put_writes_in_place(p, out);
    let m = put_new_write(front_new(c, p), at.front, out, n);
    put_new_write(back_new(c, p), at.back, out, m)
}

// ---- shares, unrefs and releases

// What is cut, and the extents written in place.
pub fn cut_of(c: RangeChange, p: Parts) -> Cut
    ensures { result ≡ cut_of c p }
{
    Cut {
        lo: c.lo,
        hi: c.hi,
        one: change_rewrites::extent_in_place(p.front),
        two: change_rewrites::extent_in_place(p.back),
    }
}

// The references of the extents written in place that there are more of after the change than before.
pub fn put_more(k: Cut, m: Remade, out: &mut [u64], n: usize) -> usize
    requires { n + m.segment.count < 2 ^ 64 }
    ensures { Laid ref_numbers 2 n (compared_of k (taken_of m.entry) (made_of m.entry)) out.old result out.new }
{
    let more = Compared {
        x: m.made(),
        y: m.taken(),
        one: k.one,
        two: k.two,
        n,
    };
    ref_compare::put_compared(more, out)
}

// Those that there are fewer of.
fn put_fewer(k: Cut, m: Remade, out: &mut [u64]) -> usize
    ensures { Laid ref_numbers 2 0 (compared_of k (made_of m.entry) (taken_of m.entry)) out.old result out.new }
{
    let fewer = Compared {
        x: m.taken(),
        y: m.made(),
        one: k.one,
        two: k.two,
        n: 0,
    };
    ref_compare::put_compared(fewer, out)
}

// The shares of a plan: splits, then the references that there are more of.
pub fn put_shares(k: Cut, m: Remade, out: &mut [u64]) -> usize
    ensures { Laid ref_numbers 2 0 (shares_of k (items m.entry.list.records.now) m.entry.segment (made_of m.entry)) out.old result out.new }
{
    let n = cut_touched::put_splits(k, m.list, out, 0);
    put_more(k, m, out, n)
}

// The unrefs of a plan: the references that there are fewer of, then the drops that release nothing; and its releases.
pub fn put_drops(
    k: Cut,
    m: Remade,
    leaves: RunningLeaves,
    table: Table,
    unrefs: &mut [u64],
    releases: &mut [u64],
) -> DropCounts
    ensures unrefs { Laid ref_numbers 2 0 (compared_of k (made_of m.entry) (taken_of m.entry) ++ all_unrefs (rows table.entry.numbers.now) (drops_in k (items leaves.entry.list.records.now) leaves.entry.shared.now)) unrefs.old result.unrefs unrefs.new }
    ensures releases { Laid ref_numbers 2 0 (all_releases (rows table.entry.numbers.now) (drops_in k (items leaves.entry.list.records.now) leaves.entry.shared.now)) releases.old result.releases releases.new }
{
    let at = DropCounts {
        unrefs: put_fewer(k, m, unrefs),
        releases: 0,
    };
    cut_touched::put_drops(k, leaves, table, unrefs, releases, at)
}

// ---- edits and bytes

// The edits of a plan, with new pieces among them: adds, three numbers each.
pub fn put_changes(m: Remade, file: u64, generation: u64, pieces: &[u64], out: &mut [u8]) -> usize
    requires { (pairs rises (piece_items file generation pieces.now) ≡ true)
        × (pairs rises (items_of (insert_all (piece_items file generation pieces.now) (map built (made_of m)))) ≡ true) }
    ensures { Laid (edit_bytes file) 71 0 (edits (taken_of m.entry) (insert_all (piece_items file generation pieces.now) (map built (made_of m.entry)))) out.old result out.new }
{
    edit_lines::put_edits(m.taken(), m.made(), pieces, file, generation, out, 0)
}

// The bytes that the file's items count after the change.
pub fn bytes_after(m: Remade) -> u64
    requires { bytes_of (items m.list.records.now) m.segment (made_of m) < 2 ^ 64 }
    ensures { result ≡ bytes_of (items m.entry.list.records.now) m.entry.segment (made_of m.entry) }
{
    cut_splits::counted_bytes(m.before())
        + (cut_splits::counted_bytes(m.made()) + cut_splits::counted_bytes(m.behind()))
}
