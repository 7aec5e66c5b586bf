// Sectors that are rewritten: which item holds one, the refusals 16, 14, 17 and 18, and the write of one in place.
#![tactic(auto, unfolding(records::specs::Stages::first, records::specs::Stages::first_of, records::specs::Stages::stage))]

pub mod in_place;

ghost use Rattle.std.specs.Prelude.{◌≡◌, ◌+◌, ◌<◌, ◌^◌, map, option_to_list};
ghost use Rattle.records.specs.Lent.{old, new};
ghost use Rattle.records.specs.Refusals.{why};
ghost use Rattle.item.specs.Items.{fields, items};
ghost use Rattle.cut_def.specs.Mappings.{holds};
ghost use Rattle.cut_def.specs.Refs.{naming};
ghost use Rattle.plan_def.specs.Outputs.{write_numbers};
ghost use Rattle.plan_lines.specs.Lines.{Laid};
ghost use Rattle.change_def.specs.Rewrites.{holder_of, rewrite_refusal};
ghost use Rattle.change_ground.specs.Lent.{ground, running_leaves};
ghost use Rattle.change_rewrites.specs.Raw.{holder_in, Writable, in_place_of, said_in_place, extent_of, write_of};

use change_def::Rewrite;
use change_ground::Ground;
use cut_segment::RunningLeaves;
pub use in_place::InPlace;
use item::{Item, Kind};
use records::refusal::{Refusal, check};
use records::sum_past;

// An item that holds an offset, with its shared byte.
#[derive(Clone, Copy)]
pub struct Holder {
    pub item: Item,
    pub shared: u8,
}

// Whether an item holds an offset.
pub fn is_holding(o: u64, item: Item) -> bool
    ensures { result ≡ holds o (fields item) }
{
    ref_def::is_named(item) && (item.key <= o && sum_past(item.key, item.length(), o))
}

// The port's `holding_item`: of records that run one behind the other only the first that ends past the offset can hold it.
pub fn holding_item(o: u64, leaves: RunningLeaves) -> Option<Holder>
    ensures { holder_in result ≡ holder_of o (running_leaves leaves.entry) }
{
    let list = leaves.list.records;
    let i = leaves.list.ending_by(o);
    if list.len() / item::RECORD <= i {
        return None;
    }
    let item = cut_segment::record_at(list, i);
    let holder = Holder {
        item,
        shared: leaves.shared[i],
    };
    if is_holding(o, item) {
        Some(holder)
    } else {
        None
    }
}

// How many items of a list name the extent at `start`.
#[tactic(auto, unfolding(records::specs::Select::count))]
pub fn naming(list: &[u8], start: u64) -> usize
    ensures { result ≡ naming start (items list.now) }
{
    let mut k: usize = 0;
    for item in item::items(list) {
        if ref_def::is_naming(start, item) {
            k += 1;
        }
    }
    k
}

// Refusals 16, 14, 17 and 18 of one sector that is rewritten.
pub fn rewrite_refusal(g: Ground, r: Rewrite) -> Result<(), Refusal>
    ensures { why result ≡ rewrite_refusal (ground g.entry) r }
{
    let Some(holder) = holding_item(r.sector, g.leaves) else {
        return Ok(());
    };
    let kind = holder.item.kind();
    check(
        !(g.file.nodatacow && kind == Kind::Regular),
        Refusal::Nodatacow,
    )?;
    if kind != Kind::Preallocated {
        return Ok(());
    }
    let w = InPlace { rewrite: r, holder };
    w.refusal(g)
}

// A sector that is to be rewritten, if a preallocated item holds it: it is then written in place.
pub fn preallocated(r: Option<Rewrite>, leaves: RunningLeaves) -> Option<InPlace>
    ensures { said_in_place result ≡ in_place_of (running_leaves leaves.entry) r }
{
    let rewrite = r?;
    let holder = holding_item(rewrite.sector, leaves)?;
    if holder.item.kind() != Kind::Preallocated {
        return None;
    }
    Some(InPlace { rewrite, holder })
}

// The extent of a sector that is written in place. 0, where no extent starts, says that there is none: `Cut` (drop_lines)
// compares it as it does an extent.
pub fn extent_in_place(w: Option<InPlace>) -> u64
    ensures { result ≡ extent_of w }
{
    match w {
        Some(w) => w.holder.item.extent_start(),
        None => 0,
    }
}

// The write of a sector in place, if there is one, as line n.
pub fn put_in_place(w: Option<InPlace>, out: &mut [u64], n: usize) -> usize
    requires { Writable w × (n + 1 < 2 ^ 64) }
    ensures { Laid write_numbers 4 n (map write_of (option_to_list w)) out.old result out.new }
{
    let Some(w) = w else {
        return n;
    };
    let r = w.rewrite;
    let at = w.holder.item.extent_start() + w.position();
    plan_lines::put_write(out, n, r.sector, at, r.first, r.end)
}
