// A range of a file that passed its checks, and what a punch of it cuts and rewrites (`plan_punch`).

ghost use Rattle.std.specs.Prelude.{true, ◌&&◌, [], ◌≡◌, ◌+◌, ◌<◌, ◌≤◌, ◌^◌, length};
ghost use Rattle.item.specs.Items.{items};
ghost use Rattle.cut_def.specs.Mappings.{holder};
ghost use Rattle.change_def.specs.Raw.{change_of};
ghost use Rattle.punch_def.specs.Punch.{first_held, held_by, in_one_sector, within_sector, across_sectors, punch_change, plan_punch};
ghost use Rattle.punch.specs.Raw.{offset_in, punch_plan_said};

use change_def::{RangeChange, Rewrite};
use change_ground::Ground;
use change_sector::Sector;
use cut_segment::{Running, RunningLeaves};

// A range of a file, [start, stop), that passed refusals 1 to 9, and what a change of the file goes by.
#[derive(Clone, Copy)]
pub struct FileRange<'a> {
    pub ground: Ground<'a>,
    pub start: u64,
    pub stop: u64,
    ghost size_limit: { ground.file.size < 2 ^ 63 },
    ghost some: { start < stop },
    ghost limit: { stop < 2 ^ 63 },
    ghost sized: { length (items ground.leaves.list.records.now) ≤ 65536 },
}

// The first offset at or past `offset` that an item holds which is no hole: of records that run one behind the other, in the
// first that is no hole among those that end past it.
fn first_held(list: Running, offset: u64) -> Option<u64>
    ensures { offset_in result ≡ first_held offset (items list.entry.records.now) }
{
    let from = list.ending_by(offset);
    for item in item::reader_at(list.records, from) {
        if !cut_def::is_hole(item) {
            return Some(item.key.max(offset));
        }
    }
    None
}

impl<'a> FileRange<'a> {
    // The volume's sector.
    pub fn sector(self) -> Sector
        ensures { result.bytes ≡ self.entry.ground.volume.sector }
    {
        change_sector::sector_of(self.ground.volume.sector)
    }

    // Whether it lies inside one sector, and is not the whole of it.
    fn is_in_one_sector(self) -> bool
        ensures { result ≡ in_one_sector self.entry.ground.volume.sector self.entry.start self.entry.stop }
    {
        let sector = self.sector();
        sector.round_down(self.start) == sector.round_down(self.stop - 1)
            && self.stop - self.start < sector.bytes
    }

    // What is cut and rewritten of a range inside one sector; the list has no say in it.
    fn within_sector(self) -> RangeChange
        ensures { change_of result self.entry.ground.file.size ≡ within_sector self.entry.ground.file.size self.entry.ground.volume.sector self.entry.start self.entry.stop }
    {
        let sector = self.sector();
        let lo = sector.round_down(self.start);
        if self.start >= sector.round_up(self.ground.file.size) {
            return RangeChange {
                lo,
                hi: lo,
                front: None,
                back: None,
            };
        }
        RangeChange {
            lo,
            hi: lo + sector.bytes,
            front: Some(Rewrite {
                sector: lo,
                first: self.start,
                end: self.stop,
            }),
            back: None,
        }
    }

    // What is cut and rewritten of any other range.
    fn across_sectors(self) -> RangeChange
        ensures { change_of result self.entry.ground.file.size ≡ across_sectors (items self.entry.ground.leaves.list.records.now) self.entry.ground.file.size self.entry.ground.volume.sector self.entry.start self.entry.stop }
    {
        let sector = self.sector();
        let first = sector.round_down(self.start);
        let last = sector.round_down(self.stop);
        let limit = sector.round_up(self.ground.file.size);
        let has_front = first != self.start && self.start < limit;
        let has_back = last != self.stop && self.stop < limit && is_held(last, self.ground.leaves);
        RangeChange {
            lo: if has_front {
                first
            } else {
                sector.round_up(self.start)
            },
            hi: if has_back { last + sector.bytes } else { last },
            front: has_front.then_some(Rewrite {
                sector: first,
                first: self.start,
                end: first + sector.bytes,
            }),
            back: has_back.then_some(Rewrite {
                sector: last,
                first: last,
                end: self.stop,
            }),
        }
    }

    // What a punch from its start, the first offset that an item holds, cuts and rewrites.
    fn punch_change(self) -> RangeChange
        ensures { change_of result self.entry.ground.file.size ≡ punch_change (items self.entry.ground.leaves.list.records.now) self.entry.ground.file.size self.entry.ground.volume.sector self.entry.start self.entry.stop }
    {
        if self.is_in_one_sector() {
            self.within_sector()
        } else {
            self.across_sectors()
        }
    }

    // The port's `plan_punch`: from the first offset in the range that an item holds; none, and there is nothing to do.
    #[tactic(auto, unfolding(punch_def::specs::Punch::plan_punch))]
    pub(crate) fn plan_punch(self) -> Option<RangeChange>
        ensures { punch_plan_said result self.entry.ground.file.size ≡ plan_punch (items self.entry.ground.leaves.list.records.now) self.entry.ground.file.size self.entry.ground.volume.sector self.entry.start self.entry.stop }
    {
        let start = first_held(self.ground.leaves.list, self.start)?;
        if start >= self.stop {
            return None;
        }
        let range = FileRange {
            ground: self.ground,
            start,
            stop: self.stop,
        };
        Some(range.punch_change())
    }
}

// Whether an item holds an offset.
fn is_held(o: u64, leaves: RunningLeaves) -> bool
    ensures { result ≡ held_by (holder o (items leaves.entry.list.records.now)) }
{
    change_rewrites::holding_item(o, leaves).is_some()
}
