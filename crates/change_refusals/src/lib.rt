// All refusals of a change from 13 on, but for those of places and of room, with no place taken.
#![tactic(auto, unfolding(records::specs::Stages::first, records::specs::Stages::stage))]

ghost use Rattle.std.specs.Prelude.{List, ◌≡◌, ℕ, length, option_to_list};
ghost use Rattle.records.specs.Refusals.{why};
ghost use Rattle.records.specs.Stages.{stage};
ghost use Rattle.item.specs.Items.{items};
ghost use Rattle.table.specs.Rows.{rows, one_more_reference};
ghost use Rattle.cut_def.specs.Refs.{Ref};
ghost use Rattle.ref_def.specs.Drops.{in_leaves};
ghost use Rattle.request.specs.declared.File.{File};
ghost use Rattle.change_def.specs.Rewrites.{rewrite_refusal, ground_of as ground_from};
ghost use Rattle.change_def.specs.Changes.{shares_compared, change_refusal};
ghost use Rattle.change_def.specs.Raw.{change_of};
ghost use Rattle.change_ground.specs.Lent.{ground};
ghost use Rattle.change_segment.specs.Raw.{Parting, Ready};
ghost use Rattle.change_lay.specs.Laid.{ground_of, change_in};

use change_def::{RangeChange, Rewrite};
use change_ground::Ground;
use change_lay::Begun;
use change_segment::Parts;
use cut_segment::Running;
use records::refusal::Refusal;
use request::Volume;
use table::Table;

// Refusals 16, 14, 17 and 18 of a sector, if it is rewritten.
#[tactic(auto, using(records::proofs::Tests::first_last), unfolding(records::specs::Stages::stage))]
fn rewrite_if(g: Ground, r: Option<Rewrite>) -> Result<(), Refusal>
    ensures { why result ≡ stage (rewrite_refusal (ground g.entry)) (option_to_list r) }
{
    match r {
        Some(r) => change_rewrites::rewrite_refusal(g, r),
        None => Ok(()),
    }
}

// Those of a change's sectors, the front one first.
#[tactic(auto, using(crate::proofs::Refusing::sides_stage), unfolding(records::specs::Stages::first))]
pub fn rewrites_refusal(g: Ground, c: RangeChange) -> Result<(), Refusal>
    ensures { why result ≡ stage (rewrite_refusal (ground g.entry)) (change_of c g.entry.file.size).rewrites }
{
    rewrite_if(g, c.front)?;
    rewrite_if(g, c.back)
}

// Refusals 14 and 15 of the shares after the joins: of the references of extents written in place that there are more of
// after the change than before. They are at most 4, as the items that are made. It asks nothing of the file but its list.
pub fn shares_refusal(
    v: Volume,
    c: RangeChange,
    p: Parts,
    list: Running,
    table: Table,
) -> Result<(), Refusal>
    requires { Ready v c p }
    ensures { (f : File) (shared : List ℕ) → Parting (in_leaves (items list.entry.records.now) shared) c p → length shared ≡ length (items list.entry.records.now)
        → why result ≡ stage (λ (q : Ref). one_more_reference q.start (rows table.entry.numbers.now)) (shares_compared (ground_from v f (items list.entry.records.now) shared (rows table.entry.numbers.now)) (change_of c f.size)) }
{
    let mut seg = [0u8; 280];
    let mut lines = [0u64; 8];
    let k = change_lines::cut_of(c, p);
    let m = change_segment::joined_of_list(v, list, c, p, &mut seg);
    let n = change_lines::put_more(k, m, &mut lines, 0);
    ref_compare::lines_refusal(&lines[..n * 2], table)
}

// All, in the order of the definition.
pub fn change_refusal(b: Begun) -> Result<(), Refusal>
    ensures { why result ≡ change_refusal (ground_of b.entry) (change_in b.entry) }
{
    let g = b.base;
    if g.volume.generation == u64::MAX {
        return Err(Refusal::Generation);
    }
    let list = g.leaves.list;
    cut_touched::splits_refusal(list, g.table, b.range.lo, b.range.hi)?;
    rewrites_refusal(g, b.range)?;
    shares_refusal(g.volume, b.range, b.parts, list, g.table)?;
    cut_touched::drops_refusal(change_lines::cut_of(b.range, b.parts), list, g.table)
}
