// A plan laid over the outputs of a call, as far as each has room: with outputs of no length it is only counted.
#![tactic(auto)]

ghost use Rattle.std.specs.Prelude.{◌≡◌, ◌+◌, ◌<◌, ◌≤◌, ◌^◌, length, slice_range};
ghost use Rattle.records.specs.Lent.{old, new};
ghost use Rattle.records.specs.Stages.{stage};
ghost use Rattle.change_def.specs.Rewrites.{rewrite_refusal};
ghost use Rattle.change_def.specs.Raw.{change_of};
ghost use Rattle.change_def.proofs.Fair.{Fair};
ghost use Rattle.change_ground.specs.Lent.{ground, leaves_in};
ghost use Rattle.change_segment.specs.Raw.{Parting};

use change_def::RangeChange;
use change_ground::Ground;
use change_segment::{Parts, Places};
use plan_def::Outputs;
use std::ops::Range;

// A change of a file as its laws ask for it, with the preallocated items that hold its two sectors.
#[derive(Clone, Copy)]
pub struct Begun<'a> {
    pub base: Ground<'a>,
    pub range: RangeChange,
    pub parts: Parts,
    ghost fair: { Fair (ground base) (change_of range base.file.size) },
    ghost parting: { Parting (leaves_in base) range parts },
}

// One whose sectors can be written, with a generation to come.
#[derive(Clone, Copy)]
pub struct Started<'a> {
    pub begun: Begun<'a>,
    ghost generation: { begun.base.volume.generation + 1 < 2 ^ 64 },
    ghost written: { stage (rewrite_refusal (ground begun.base)) (change_of begun.range begun.base.file.size).rewrites ≡ 0 },
}

// How many lines of references there are.
#[derive(Clone, Copy)]
pub struct RefCounts {
    pub shares: usize,
    pub unrefs: usize,
    pub releases: usize,
}

// How many edits there are, and the byte count.
#[derive(Clone, Copy)]
pub struct Edited {
    pub edits: usize,
    pub bytes: u64,
}

// How many lines of each kind there are, but for adds, and the byte count.
#[derive(Clone, Copy)]
pub struct Counts {
    pub refs: RefCounts,
    pub edits: Edited,
    pub writes: usize,
}

impl<'a> Started<'a> {
    ghost use Rattle.plan_def.specs.Outputs.{outs_in, Kept};
    ghost use Rattle.cut_def.specs.Pieces.{items_of};
    ghost use Rattle.change_ground.specs.Lent.{items_in};
    ghost use Rattle.change_segment.specs.declared.Places.{Places};
    ghost use Rattle.change_lay.specs.Laid.{Pieced, plan_at, after_at, new_pieces, edits_at, RefsLaid, EditsLaid, PlanLaid};

    // The shares, unrefs and releases of its plan.
    fn lay_refs(self, shares: &mut [u64], unrefs: &mut [u64], releases: &mut [u64]) -> RefCounts
        ensures { (at : Places) → RefsLaid (plan_at self.entry.begun at) result shares.old unrefs.old releases.old shares.new unrefs.new releases.new }
    {
        let mut seg = [0u8; 280];
        let b = self.begun;
        let k = change_lines::cut_of(b.range, b.parts);
        let m = change_segment::joined_segment(b.base, b.range, b.parts, &mut seg);
        let shared = change_lines::put_shares(k, m, shares);
        let drops = change_lines::put_drops(k, m, b.base.leaves, b.base.table, unrefs, releases);
        RefCounts {
            shares: shared,
            unrefs: drops.unrefs,
            releases: drops.releases,
        }
    }

    // The edits of its plan, with the pieces of holes among them, and its byte count without them: the pieces are read from these
    // numbers of adds.
    fn lay_edits(self, at: Places, pieces: &[u64], edits: &mut [u8]) -> Edited
        requires { Pieced (items_in self.begun.base) (items_of (after_at self.begun at)) (new_pieces self.begun pieces.now) }
        ensures { EditsLaid self.entry.begun.base.file.number (edits_at self.entry.begun at pieces.now) (plan_at self.entry.begun at).bytes result edits.old edits.new }
    {
        let mut seg = [0u8; 420];
        let b = self.begun;
        let m = change_segment::changed_segment(b.base, b.range, b.parts, at, &mut seg);
        let file = b.base.file.number;
        let generation = b.base.volume.generation + 1;
        Edited {
            edits: change_lines::put_changes(m, file, generation, pieces, edits),
            bytes: change_lines::bytes_after(m),
        }
    }

    // The plan laid over the outputs, but for its adds, which may be of no length, and its numbers: its two sectors at these places,
    // and the pieces of holes read from these numbers of adds, wherever they lie.
    pub fn lay_pieces(self, at: Places, pieces: &[u64], out: &mut Outputs) -> Counts
        requires { Pieced (items_in self.begun.base) (items_of (after_at self.begun at)) (new_pieces self.begun pieces.now) }
        ensures laid { PlanLaid self.entry.begun.base.file.number (plan_at self.entry.begun at) (edits_at self.entry.begun at pieces.now) result (outs_in out.old) (outs_in out.new) }
        ensures kept { Kept out.old out.new }
    {
        let refs = self.lay_refs(out.shares, out.unrefs, out.releases);
        let edits = self.lay_edits(at, pieces, out.edits);
        let writes = change_lines::put_writes(self.begun.range, self.begun.parts, at, out.writes);
        Counts {
            refs,
            edits,
            writes,
        }
    }

    // The same with the pieces of holes read from the adds that are lent: `pieces` are the numbers of those. The adds are taken out
    // for the call: a `&` of one field beside a `&mut` of another is not covered.
    pub fn lay_plan(self, at: Places, pieces: Range<usize>, out: &mut Outputs) -> Counts
        requires inside { (pieces.start ≤ pieces.end) × (pieces.end ≤ length out.old.adds.now) }
        requires pieced { Pieced (items_in self.begun.base) (items_of (after_at self.begun at)) (new_pieces self.begun (slice_range out.old.adds.now pieces.start pieces.end)) }
        ensures laid { PlanLaid self.entry.begun.base.file.number (plan_at self.entry.begun at) (edits_at self.entry.begun at (slice_range out.old.adds.now pieces.start pieces.end))
            result (outs_in out.old) (outs_in out.new) }
        ensures kept { Kept out.old out.new }
    {
        let adds = std::mem::take(&mut out.adds);
        let counts = self.lay_pieces(at, &adds[pieces], out);
        out.adds = adds;
        counts
    }
}
