// `change_range`: the first half, a draft with no place taken (`change_draft`), then the finish, which takes the places and writes.
#![tactic(auto)]

ghost use Rattle.std.specs.Prelude.{true, ◌≡◌, ◌≤◌, length, get_or};
ghost use Rattle.records.specs.Refusals.{why};
ghost use Rattle.plan_def.specs.Places.{places_sound};
ghost use Rattle.plan_def.specs.Outputs.{outs_in, rooms_of, room_for, Kept, LeftBy, Met};
ghost use Rattle.request.specs.Answers.{plan};
ghost use Rattle.change_def.specs.Preallocs.{piece_limit};
ghost use Rattle.change_def.specs.Changes.{wanted, plan_of, changed};
ghost use Rattle.change_def.specs.Sweep.{filled_of};
ghost use Rattle.change_def.proofs.Fair.{Fair};
ghost use Rattle.change_ground.specs.Lent.{ground, items_in, rows_in};
ghost use Rattle.change_holes.specs.Walk.{wishes};
ghost use Rattle.change_lay.specs.Laid.{ground_of};
ghost use Rattle.change_draft.specs.Raw.{whole};
ghost use Rattle.change_range.specs.Raw.{Accepted, FinishWhy};

use change_def::{Fill, RangeChange};
use change_draft::{Asked, Needs};
use change_ground::Ground;
use change_lay::{Begun, Started};
use change_segment::Places;
use plan_def::Outputs;
use records::refusal::Refusal;
use request::Numbers;

// The nth place; 0 past the last.
fn place_at(places: &[u64], n: usize) -> u64
    ensures { result ≡ get_or places.now n 0 }
{
    places.get(n).copied().unwrap_or(0)
}

// Refusals 26 and 27 of a plan that needs this much.
fn finish_refusal(a: Asked, n: Needs, places: &[u64], out: &Outputs) -> Result<(), Refusal>
    requires { length (wishes n.extents (items_in a.begun.base)) ≡ n.numbers.adds }
    ensures { FinishWhy n (items_in a.entry.begun.base) (rows_in a.entry.begun.base) places.now (rooms_of (outs_in out.now)) (why result) }
{
    let base = a.begun.base;
    let wanted = change_holes::along(n.extents, base.leaves.list);
    change_places::places_refusal(wanted, n.numbers.adds, base.table, places)?;
    plan_places::room_refusal(n.numbers, out)
}

// The plan in the outputs, where all suffices: the adds first, from which the edits take the pieces of holes.
fn write_plan(a: Asked, n: Needs, places: &[u64], out: &mut Outputs)
    requires accepted { Accepted a n }
    requires placed { places_sound (rows_in a.begun.base) places.now (wanted (ground_of a.begun) (whole a) piece_limit) ≡ true }
    requires roomed { room_for (rooms_of (outs_in out.old)) (plan_of (ground_of a.begun) (whole a) piece_limit places.now) ≡ true }
    ensures left { LeftBy a.entry.begun.base.file.number (plan (plan_of (ground_of a.entry.begun) (whole a.entry) piece_limit places.now)) out.old out.new }
    ensures kept { Kept out.old out.new }
{
    let b = a.begun;
    let front = change_segment::front_new(b.range, b.parts).is_some();
    let at = Places {
        front: place_at(places, 0),
        back: place_at(places, usize::from(front)),
    };
    let from = change_draft::sectors_anew(b.range, b.parts) * 3;
    let wanted = change_holes::along(n.extents, b.base.leaves.list);
    let to = change_places::put_adds(wanted, places, out.adds) * 3;
    let started = Started { begun: b };
    started.lay_plan(at, from..to, out);
}

// The second half of a plan: 26, 27, and the writing, which cannot fail.
fn finish_change(
    a: Asked,
    n: Needs,
    places: &[u64],
    out: &mut Outputs,
) -> Result<Option<Numbers>, Refusal>
    requires { Accepted a n }
    ensures met { Met a.entry.begun.base.file.number (changed (ground_of a.entry.begun) (whole a.entry) piece_limit places.now) result out.old out.new }
    ensures kept { Kept out.old out.new }
{
    finish_refusal(a, n, places, out)?;
    write_plan(a, n, places, out);
    Ok(Some(n.numbers))
}

// The whole: what a punch and a fallocate do once the range to cut, the sectors to rewrite and the holes to fill are known.
pub fn change_range(
    g: Ground,
    c: RangeChange,
    w: Fill,
    places: &[u64],
    out: &mut Outputs,
) -> Result<Option<Numbers>, Refusal>
    requires fair { Fair (ground g) (filled_of c w (items_in g)) }
    requires sized { length (items_in g) ≤ 65536 }
    ensures met { Met g.entry.file.number (changed (ground g.entry) (filled_of c w (items_in g.entry)) piece_limit places.now) result out.old out.new }
    ensures kept { Kept out.old out.new }
{
    let parts = change_segment::parts_of(c, g.leaves);
    let begun = Begun {
        base: g,
        range: c,
        parts,
    };
    let asked = Asked { begun, fill: w };
    let n = change_draft::draft_change(asked)?;
    finish_change(asked, n, places, out)
}
