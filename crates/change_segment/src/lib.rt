// `change_range` in code: what a change makes of a list, as a segment of a few items, with and without new ones.
#![tactic(auto)]

ghost use Rattle.std.specs.Prelude.{◌≡◌, true, ◌+◌, ◌*◌, ◌<◌, ◌≤◌, length};
ghost use Rattle.std.specs.Option.{ForSome};
ghost use Rattle.records.specs.Lent.{old, new};
ghost use Rattle.item.specs.Items.{items};
ghost use Rattle.cut_segment.specs.Segments.{bounded};
ghost use Rattle.cut_segment.specs.Making.{Stays};
ghost use Rattle.cut_joins.specs.Joins.{Reaching};
ghost use Rattle.change_ground.specs.Lent.{items_in, running_leaves};
ghost use Rattle.change_rewrites.specs.Raw.{item_of};
ghost use Rattle.change_segment.specs.Raw.{Parting, PutIf, JoinedIf, Inside, Ready, MadeIn, MadeOf, new_of};
ghost use Rattle.change_segment.specs.Sides.{anew, front_new, back_new, written_pieces, joined_pieces, after_pieces};

use change_def::{RangeChange, Rewrite};
use change_ground::Ground;
use change_rewrites::InPlace;
use cut_segment::{Making, Remade, Running, RunningLeaves};
use item::Item;
use request::Volume;

// Those of a change's two sectors that preallocated items hold: they are written in place.
#[derive(Clone, Copy)]
pub struct Parts {
    pub front: Option<InPlace>,
    pub back: Option<InPlace>,
}

// The places of the new extents of its two sectors. That of a sector that takes none means nothing.
#[derive(Clone, Copy)]
pub struct Places {
    pub front: u64,
    pub back: u64,
}

// What all items that a change makes anew have: their file, the generation to come, and the length of a sector.
#[derive(Clone, Copy)]
struct Stamp {
    file: u64,
    generation: u64,
    sector: u64,
}

pub fn parts_of(c: RangeChange, leaves: RunningLeaves) -> Parts
    ensures { Parting (running_leaves leaves.entry) c result }
{
    Parts {
        front: change_rewrites::preallocated(c.front, leaves),
        back: change_rewrites::preallocated(c.back, leaves),
    }
}

// The item over a sector that is written in place, put in, if there is one.
fn insert_in_place(m: &mut Making, w: Option<InPlace>, t: Stamp)
    requires { ForSome w (λ w. bounded (item_of t.generation t.sector w) ≡ true) × ((m.old.segment.count + 1) * 70 ≤ length m.old.buffer.now) }
    ensures put { PutIf w (item_of t.generation t.sector) m.old m.new }
    ensures stays { Stays m.old m.new }
{
    if let Some(w) = w {
        m.insert(w.item(t.generation, t.sector));
    }
}

// The joins around a sector that is written in place, if there is one.
fn join_part(m: &mut Making, w: Option<InPlace>, generation: u64)
    requires { ForSome w (λ w. Reaching w.rewrite.sector m.old) }
    ensures joined { JoinedIf w generation m.old m.new }
    ensures stays { Stays m.old m.new }
{
    if let Some(w) = w {
        cut_joins::join_around(m, generation, w.rewrite.sector);
    }
}

// The cut, the sectors written in place, and the joins around them.
fn written<'a>(
    list: Running<'a>,
    c: RangeChange,
    p: Parts,
    t: Stamp,
    seg: &'a mut [u8],
) -> Making<'a>
    requires { Inside t.sector c p × (280 ≤ length seg.old) }
    ensures { MadeIn (written_pieces t.generation t.sector c p (items list.entry.records.now)) c.lo c.hi 4 list.entry (length seg.old) result }
{
    let mut m = list.cut(c.lo, c.hi, seg);
    insert_in_place(&mut m, p.front, t);
    insert_in_place(&mut m, p.back, t);
    join_part(&mut m, p.front, t.generation);
    join_part(&mut m, p.back, t.generation);
    m
}

// What a change makes of a list, with no place taken. No item is then put in that takes a new extent, so the stamp's file means
// nothing.
pub fn joined_of_list<'a>(
    v: Volume,
    list: Running<'a>,
    c: RangeChange,
    p: Parts,
    seg: &'a mut [u8],
) -> Remade<'a>
    requires { Ready v c p × (280 ≤ length seg.old) }
    ensures { MadeOf (joined_pieces v c p (items list.entry.records.now)) c.lo c.hi 4 list.entry result }
{
    let t = Stamp {
        file: 0,
        generation: v.generation + 1,
        sector: v.sector,
    };
    written(list, c, p, t, seg).read()
}

// The same of what a change goes by.
pub fn joined_segment<'a>(g: Ground<'a>, c: RangeChange, p: Parts, seg: &'a mut [u8]) -> Remade<'a>
    requires { Ready g.volume c p × (280 ≤ length seg.old) }
    ensures { MadeOf (joined_pieces g.entry.volume c p (items_in g.entry)) c.lo c.hi 4 g.entry.leaves.list result }
{
    joined_of_list(g.volume, g.leaves.list, c, p, seg)
}

// The item over a sector that takes a new extent, put in, if there is one.
fn insert_new(m: &mut Making, r: Option<Rewrite>, place: u64, t: Stamp)
    requires { ForSome r (λ r. bounded (new_of t r place) ≡ true) × ((m.old.segment.count + 1) * 70 ≤ length m.old.buffer.now) }
    ensures put { PutIf r (λ r. new_of t r place) m.old m.new }
    ensures stays { Stays m.old m.new }
{
    if let Some(r) = r {
        let item = Item::regular_extent_item(t.file, r.sector, t.generation, place, t.sector);
        m.insert(item);
    }
}

// A sector that is rewritten, if it is not written in place: it takes a new extent.
fn anew(r: Option<Rewrite>, w: Option<InPlace>) -> Option<Rewrite>
    ensures { result ≡ anew r w }
{
    if w.is_some() { None } else { r }
}

// The front sector, if it takes a new extent, and the back one.
pub fn front_new(c: RangeChange, p: Parts) -> Option<Rewrite>
    ensures { result ≡ front_new c p }
{
    anew(c.front, p.front)
}

pub fn back_new(c: RangeChange, p: Parts) -> Option<Rewrite>
    ensures { result ≡ back_new c p }
{
    anew(c.back, p.back)
}

// What the change makes of the list.
pub fn changed_segment<'a>(
    g: Ground<'a>,
    c: RangeChange,
    p: Parts,
    at: Places,
    seg: &'a mut [u8],
) -> Remade<'a>
    requires { Ready g.volume c p × (420 ≤ length seg.old) }
    ensures { MadeOf (after_pieces g.entry.volume g.entry.file c p at.front at.back (items_in g.entry)) c.lo c.hi 6 g.entry.leaves.list result }
{
    let t = Stamp {
        file: g.file.number,
        generation: g.volume.generation + 1,
        sector: g.volume.sector,
    };
    let mut m = written(g.leaves.list, c, p, t, seg);
    insert_new(&mut m, front_new(c, p), at.front, t);
    insert_new(&mut m, back_new(c, p), at.back, t);
    m.read()
}
