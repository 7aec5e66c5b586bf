// Why a plan can't be applied: refusals 1 to 4 of what is lent, then those of the result, then 27. Nothing is written.
#![tactic(auto, unfolding(records::specs::Stages::first))]

ghost use Rattle.std.specs.Prelude.{◌≡◌, IfOk, not, ◌/◌, ◌<◌, count_by, length, take};
ghost use Rattle.records.specs.Refusals.{why};
ghost use Rattle.records.specs.Stages.{first, unless, every};
ghost use Rattle.item.specs.Items.{items};
ghost use Rattle.table.specs.Rows.{rows};
ghost use Rattle.lists.specs.Lists.{whole_sectors};
ghost use Rattle.request.specs.Lent.{sector_sound};
ghost use Rattle.apply_def.specs.Lent.{lent, parts_broken};
ghost use Rattle.apply_refusals.specs.Stages.{ones, others, Inside, counted_refusal};

use apply_counts::Marked;
use apply_def::Parts;
use apply_walk::Edited;
use records::refusal::{Refusal, check};

// How many records and rows: those that count of what is lent, those that there is room for, or those that there are after a plan.
#[derive(Clone, Copy)]
pub struct Sizes {
    pub items: usize,
    pub rows: usize,
}

// What a plan is applied to, but for the slices: how many of a list's records and of a table's rows count, the volume's sector, the
// file's number, and the new generation, for adds.
#[derive(Clone, Copy)]
pub struct Target {
    pub sizes: Sizes,
    pub sector: u64,
    pub number: u64,
    pub generation: u64,
}

// How many records and rows a list and a table have room for.
pub fn room(list: &[u8], table: &[u64]) -> Sizes
    ensures { result ≡ record { items = length list.now / 70; rows = length table.now / 5 } }
{
    let items = list.len() / item::RECORD;
    let rows = table.len() / table::WIDTH;
    Sizes { items, rows }
}

// Refusal 1 of a plan's parts: lines of broken length, or edits that are neither put nor delete.
fn parts_refusal(plan: Parts) -> Result<(), Refusal>
    ensures { why result ≡ parts_broken (lent plan.entry) }
{
    apply_walk::edits_size_refusal(plan.edits)?;
    check(
        plan.shares.len() % 2 == 0
            && plan.unrefs.len() % 2 == 0
            && plan.releases.len() % 2 == 0
            && plan.adds.len() % 3 == 0,
        Refusal::Broken,
    )
}

// Refusals 1 of what is lent: broken, or over-long.
pub fn size_refusal(list: &[u8], table: &[u64], sizes: Sizes, plan: Parts) -> Result<(), Refusal>
    ensures told { why result ≡ ones sizes.items sizes.rows list.now table.now (lent plan.entry) }
    ensures inside { IfOk result (λ _. Inside sizes.items sizes.rows list.now table.now) }
{
    let room = room(list, table);
    check(sizes.items <= room.items, Refusal::Broken)?;
    check(sizes.rows <= room.rows, Refusal::Broken)?;
    parts_refusal(plan)?;
    check(sizes.items <= 65536, Refusal::Broken)?;
    check(sizes.rows <= 65536, Refusal::Broken)
}

// Refusals 4 of the sector and of a list.
fn fours(sector: u64, list: &[u8]) -> Result<(), Refusal>
    ensures { why result ≡ first (unless (sector_sound sector) 4) (unless (every (whole_sectors sector) (items list.now)) 4) }
{
    check(request::sector_sound(sector), Refusal::Sector)?;
    lists::sectors_refusal(list, sector)
}

// Refusals 2 to 4 of what is lent.
pub fn lent_refusal(target: Target, list: &[u8], table: &[u64], edits: &[u8]) -> Result<(), Refusal>
    ensures { why result ≡ others target.number target.sector list.now table.now edits.now }
{
    lists::list_refusal(list, target.number)?;
    apply_walk::edits_order_refusal(edits)?;
    table::table_refusal(table)?;
    fours(target.sector, list)
}

// Refusals of the result, and 27, from what was counted by row and from the refusal of a missing row.
pub fn result_refusal(
    target: Target,
    edited: Edited,
    marked: Marked,
    adds: &[u64],
    missing: Result<(), Refusal>,
    room: Sizes,
) -> Result<(), Refusal>
    requires { 0 < target.sector }
    ensures { why result ≡ counted_refusal target.sector target.number room.items room.rows edited.entry.list.now edited.entry.edits.now adds.now (rows marked.entry.table.numbers.now) marked.entry.counts.changes.now marked.entry.counts.gone.now (count_by not (take marked.entry.counts.rows marked.entry.counts.gone.now)) (why missing) }
{
    let n = edited.length();
    let m = marked.counts.staying() + adds.len() / 3;
    check(n <= 65536 && m <= 65536, Refusal::Broken)?;
    missing?;
    marked.nets_refusal()?;
    edited.refusal(target.number, target.sector)?;
    apply_clear::adds_refusal(marked, adds)?;
    check(n <= room.items && m <= room.rows, Refusal::Room)
}
