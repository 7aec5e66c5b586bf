// A fallocate: what it refuses of a range before any change (`range_refusal`); what it asks of `change_range`, the sector of the
// old end to cut and rewrite (`end_change`) and the stretch of the file whose holes are filled (`fill_of`); and the
// operation, `fallocate`.
#![tactic(auto, unfolding(records::specs::Stages::first, records::specs::Stages::stage))]

ghost use Rattle.std.specs.Prelude.{◌≡◌};
ghost use Rattle.records.specs.Lent.{old, new};
ghost use Rattle.records.specs.Refusals.{why};
ghost use Rattle.records.specs.Stages.{stage};
ghost use Rattle.item.specs.Items.{fields, items};
ghost use Rattle.plan_def.specs.Outputs.{Met, Kept};
ghost use Rattle.change_def.specs.Preallocs.{sum_of};
ghost use Rattle.change_def.specs.Rounding.{round_down, round_up};
ghost use Rattle.fallocate_def.specs.Fallocate.{end_rewritten, item_refusal, holes_to_allocate, fallocate_lent};
ghost use Rattle.fallocate.specs.Raw.{end_change, fill_of, stages};

use change_def::{Fill, RangeChange, Rewrite};
use change_holes::{Bounds, NewExtents};
use change_sector::Sector;
use item::{Item, Kind};
use plan_def::Outputs;
use punch::FileRange;
use records::refusal::{Refusal, check};
use records::sum_past;
use request::{Lent, Numbers, Range};

// ---- what is asked of a change

// Whether the old end lies inside a sector, and the range ends past it.
fn end_rewritten(r: FileRange) -> bool
    ensures { result ≡ end_rewritten r.entry.ground.volume.sector r.entry.ground.file.size r.entry.stop }
{
    let size = r.ground.file.size;
    size < r.stop && !size.is_multiple_of(r.ground.volume.sector)
}

// The old end's sector, to cut and rewrite with zeros from the size on, if it has to be.
fn end_change(r: FileRange) -> RangeChange
    ensures { result ≡ end_change r.entry.ground.file.size r.entry.ground.volume.sector r.entry.stop }
{
    if !end_rewritten(r) {
        return RangeChange {
            lo: 0,
            hi: 0,
            front: None,
            back: None,
        };
    }
    let sector: Sector = r.sector();
    let start = sector.round_down(r.ground.file.size);
    let end = start + sector.bytes;
    RangeChange {
        lo: start,
        hi: end,
        front: Some(Rewrite {
            sector: start,
            first: r.ground.file.size,
            end,
        }),
        back: None,
    }
}

// The range rounded out to sectors, whose holes are filled, and the new size.
fn fill_of(keep: bool, r: FileRange) -> Fill
    ensures { result ≡ fill_of keep r.entry.ground.file.size r.entry.ground.volume.sector r.entry.start r.entry.stop }
{
    let sector: Sector = r.sector();
    let size = r.ground.file.size;
    Fill {
        from: sector.round_down(r.start),
        to: sector.round_up(r.stop),
        size: if keep { size } else { size.max(r.stop) },
    }
}

// ---- refusals

// Refusals 10 and 11 of an item, if it meets the rounded range [from, to).
fn item_refusal(size: u64, from: u64, to: u64, item: Item) -> Result<(), Refusal>
    ensures { why result ≡ item_refusal size from to (fields item) }
{
    if sum_past(item.key, item.length(), from) && item.key < to {
        let past = item.kind() == Kind::Regular && size <= item.key;
        check(!cut_def::is_hole(item), Refusal::Hole)?;
        check(!past, Refusal::PastSize)?;
    }
    Ok(())
}

// Refusals 10 and 11, item by item.
fn items_refusal(r: FileRange) -> Result<(), Refusal>
    ensures { why result ≡ stage (item_refusal r.entry.ground.file.size (round_down r.entry.ground.volume.sector r.entry.start) (round_up r.entry.ground.volume.sector r.entry.stop)) (items r.entry.ground.leaves.list.records.now) }
{
    let fill = fill_of(true, r);
    let size = r.ground.file.size;
    for item in item::items(r.ground.leaves.list.records) {
        item_refusal(size, fill.from, fill.to, item)?;
    }
    Ok(())
}

// The bytes of the holes that are filled.
fn hole_bytes(r: FileRange) -> u64
    ensures { result ≡ sum_of (holes_to_allocate r.entry.ground.file.size r.entry.ground.volume.sector r.entry.start r.entry.stop (items r.entry.ground.leaves.list.records.now)) }
{
    let fill = fill_of(true, r);
    let c = end_change(r);
    let none = Bounds { start: 0, stop: 0 };
    let wanted = NewExtents {
        one: none,
        two: none,
        lo: c.lo,
        hi: c.hi,
        from: fill.from,
        to: fill.to,
    };
    let sums = change_holes::along(wanted, r.ground.leaves.list).sum_holes();
    sums.bytes
}

// Refusals 10 to 12 of a range that passed 1 to 9: item by item 10 and 11, then 12, holes over the volume's bytes.
fn range_refusal(r: FileRange) -> Result<(), Refusal>
    ensures { why result ≡ stages r.entry }
{
    items_refusal(r)?;
    check(hole_bytes(r) <= r.ground.volume.total, Refusal::NoSpace)
}

// ---- the operation

// A fallocate of a range of a file, its size kept or not: the answer, and the plan in the outputs. Any bytes may be lent.
pub fn fallocate(
    l: Lent,
    r: Range,
    keep: bool,
    places: &[u64],
    out: &mut Outputs,
) -> Result<Option<Numbers>, Refusal>
    ensures met { Met l.entry.file.number (fallocate_lent l.entry.volume l.entry.file r keep l.entry.list.now l.entry.shared.now l.entry.table.now places.now) result out.old out.new }
    ensures kept { Kept out.old out.new }
{
    let range = punch::range_refusal(l, r)?;
    range_refusal(range)?;
    change_range::change_range(
        range.ground,
        end_change(range),
        fill_of(keep, range),
        places,
        out,
    )
}
