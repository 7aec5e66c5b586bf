// What a clone goes by, and its plan laid over outputs.

ghost use Rattle.std.specs.Prelude.{◌≡◌};
ghost use Rattle.item.specs.Items.{items};
ghost use Rattle.clone_lay.specs.Raw.{Placing};

use change_lay::{Counts, Edited, RefCounts};
use clone_copies::Copies;
use cut_segment::{Remade, RunningLeaves};
use cut_touched::DropCounts;
use plan_def::Outputs;
use table::Table;

// The copies, the destination's items with their shared bytes, and the table: they passed their checks. The size is what the
// destination has after it.
#[derive(Clone, Copy)]
pub struct CloneGround<'a> {
    pub copies: Copies<'a>,
    pub leaves: RunningLeaves<'a>,
    pub table: Table<'a>,
    pub size: u64,
    ghost placing: { Placing copies.copying.range (items leaves.list.records.now) (items copies.source.now) },
}

impl<'a> CloneGround<'a> {
    ghost use Rattle.std.specs.Prelude.{◌++◌, map, ◌+◌, ◌<◌, ◌^◌};
    ghost use Rattle.records.specs.Lent.{old, new};
    ghost use Rattle.cut_def.specs.Pieces.{items_of, counted_bytes};
    ghost use Rattle.plan_def.specs.Outputs.{edit_bytes, ref_numbers, outs_in, Kept};
    ghost use Rattle.plan_lines.specs.Lines.{Laid};
    ghost use Rattle.change_lay.specs.Laid.{RefsLaid, EditsLaid, PlanLaid};
    ghost use Rattle.clone_lay.specs.Lent.{plan_in, number_in, CutOut};

    // The shares of its plan: splits, then the copies.
    fn put_shares(self, out: &mut [u64]) -> usize
        ensures { Laid ref_numbers 2 0 (plan_in self.entry).shares out.old result out.new }
    {
        let k = crate::cut_for(self.copies.copying);
        let n = cut_touched::put_splits(k, self.leaves.list, out, 0);
        self.copies.put_refs(out, n)
    }

    // The shares, unrefs and releases.
    fn lay_refs(self, shares: &mut [u64], unrefs: &mut [u64], releases: &mut [u64]) -> RefCounts
        ensures { RefsLaid (plan_in self.entry) result shares.old unrefs.old releases.old shares.new unrefs.new releases.new }
    {
        let k = crate::cut_for(self.copies.copying);
        let at = DropCounts {
            unrefs: 0,
            releases: 0,
        };
        let shares = self.put_shares(shares);
        let drops = cut_touched::put_drops(k, self.leaves, self.table, unrefs, releases, at);
        RefCounts {
            shares,
            unrefs: drops.unrefs,
            releases: drops.releases,
        }
    }

    // The edits, where `m` is what the cut leaves.
    fn put_changes(self, m: Remade, out: &mut [u8]) -> usize
        requires { CutOut self m }
        ensures { Laid (edit_bytes (number_in self.entry)) 71 0 (plan_in self.entry).edits out.old result out.new }
    {
        self.copies.put_edits(m.made(), m.taken(), out)
    }

    // The bytes that the file's items count after it.
    fn bytes_after(self, m: Remade) -> u64
        requires { CutOut self m }
        ensures { result ≡ (plan_in self.entry).bytes }
    {
        change_lines::bytes_after(m) + self.copies.bytes()
    }

    // The edits, and the byte count.
    fn lay_edits(self, edits: &mut [u8]) -> Edited
        ensures { EditsLaid (number_in self.entry) (plan_in self.entry).edits (plan_in self.entry).bytes result edits.old edits.new }
    {
        let c = self.copies.copying.range;
        let mut seg = [0u8; 140];
        let m = self.leaves.list.cut(c.to, c.to + c.span, &mut seg).read();
        Edited {
            edits: self.put_changes(m, edits),
            bytes: self.bytes_after(m),
        }
    }

    // Its plan laid over the outputs, and its numbers: it has no adds and no writes.
    pub fn lay(self, out: &mut Outputs) -> Counts
        ensures laid { PlanLaid (number_in self.entry) (plan_in self.entry) (plan_in self.entry).edits result (outs_in out.old) (outs_in out.new) }
        ensures kept { Kept out.old out.new }
    {
        let refs = self.lay_refs(out.shares, out.unrefs, out.releases);
        let edits = self.lay_edits(out.edits);
        Counts {
            refs,
            edits,
            writes: 0,
        }
    }
}
