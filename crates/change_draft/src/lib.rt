// The first half of `change_range`: what refuses a change, or what its plan needs, with no place taken.
#![tactic(auto)]

pub mod asked;

ghost use Rattle.std.specs.Prelude.{◌≡◌, ◌+◌, ◌<◌, ◌^◌};
ghost use Rattle.std.specs.Option.{ForSome};
ghost use Rattle.change_def.specs.Preallocs.{piece_limit};
ghost use Rattle.change_def.specs.Drafts.{drafted};
ghost use Rattle.change_ground.specs.Lent.{items_in};
ghost use Rattle.change_segment.specs.Sides.{front_new, back_new, anew_count};
ghost use Rattle.change_lay.specs.Laid.{ground_of, plan_at};
ghost use Rattle.change_draft.specs.Raw.{draft_said, side_of, extents_of, counts_of, numbers_of, whole};

pub use asked::Asked;
use change_def::{Fill, RangeChange, Rewrite};
use change_holes::{Bounds, NewExtents, Sums};
use change_lay::{Counts, Started};
use change_segment::{Parts, Places};
use plan_def::Outputs;
use records::refusal::Refusal;
use request::{Numbers, Volume};

// What a plan needs: how many records in each output, and new extents.
#[derive(Clone, Copy)]
pub struct Needs {
    pub numbers: Numbers,
    pub extents: NewExtents,
}

// The numbers of a plan that fills no hole, with no place taken: it is laid over outputs of no length.
fn count_plan(s: Started) -> Counts
    ensures { result ≡ counts_of (plan_at s.entry.begun (record { front = 1; back = 1 })) }
{
    let mut out = Outputs {
        edits: &mut [],
        shares: &mut [],
        unrefs: &mut [],
        releases: &mut [],
        adds: &mut [],
        writes: &mut [],
    };
    s.lay_plan(Places { front: 1, back: 1 }, 0..0, &mut out)
}

// How many sectors of a change take new extents.
pub fn sectors_anew(c: RangeChange, p: Parts) -> usize
    ensures { result ≡ anew_count c p }
{
    let front = change_segment::front_new(c, p).is_some();
    let back = change_segment::back_new(c, p).is_some();
    usize::from(front) + usize::from(back)
}

// The stretch of a sector that takes a new extent; an empty one if there is none.
fn side_of(sector: u64, r: Option<Rewrite>) -> Bounds
    requires { ForSome r (λ r. r.sector + sector < 2 ^ 64) }
    ensures { result ≡ side_of sector r }
{
    match r {
        Some(r) => Bounds {
            start: r.sector,
            stop: r.sector + sector,
        },
        None => Bounds { start: 0, stop: 0 },
    }
}

// What a change wants new extents for.
fn extents_of(v: Volume, c: RangeChange, w: Fill, p: Parts) -> NewExtents
    requires { ForSome (front_new c p) (λ r. r.sector + v.sector < 2 ^ 64) × ForSome (back_new c p) (λ r. r.sector + v.sector < 2 ^ 64) }
    ensures { result ≡ extents_of v c w p }
{
    NewExtents {
        one: side_of(v.sector, change_segment::front_new(c, p)),
        two: side_of(v.sector, change_segment::back_new(c, p)),
        lo: c.lo,
        hi: c.hi,
        from: w.from,
        to: w.to,
    }
}

// The numbers of a plan: n without the pieces of holes, `sectors` taking new extents, and the pieces.
fn numbers_of(n: Counts, sectors: usize, pieces: Sums, size: u64) -> Numbers
    requires { (n.edits.edits + pieces.pieces < 2 ^ 64) × (sectors + pieces.pieces < 2 ^ 64) × (n.edits.bytes + pieces.bytes < 2 ^ 64) }
    ensures { result ≡ numbers_of n sectors pieces size }
{
    let edited = n.edits;
    let refs = n.refs;
    Numbers {
        edits: edited.edits + pieces.pieces,
        shares: refs.shares,
        unrefs: refs.unrefs,
        releases: refs.releases,
        adds: sectors + pieces.pieces,
        writes: n.writes,
        size,
        bytes: edited.bytes + pieces.bytes,
        prealloc: 0 < pieces.pieces,
    }
}

// The first half: what a plan needs, or what refuses it, places and room aside.
pub fn draft_change(a: Asked) -> Result<Needs, Refusal>
    ensures { draft_said (items_in a.entry.begun.base) result ≡ drafted (ground_of a.entry.begun) (whole a.entry) piece_limit }
{
    change_refusals::change_refusal(a.begun)?;
    let b = a.begun;
    let n = count_plan(Started { begun: b });
    let extents = extents_of(b.base.volume, b.range, a.fill, b.parts);
    let pieces = change_holes::along(extents, b.base.leaves.list).sum_holes();
    let sectors = sectors_anew(b.range, b.parts);
    Ok(Needs {
        numbers: numbers_of(n, sectors, pieces, a.fill.size),
        extents,
    })
}
