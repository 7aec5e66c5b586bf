// A punch: what refuses a range of a file (`range_refusal`), and the operation, `punch_hole`.
#![tactic(auto)]

pub mod range;

ghost use Rattle.std.specs.Prelude.{◌≡◌};
ghost use Rattle.records.specs.Lent.{old, new};
ghost use Rattle.records.specs.Refusals.{why};
ghost use Rattle.plan_def.specs.Outputs.{Met, Kept};
ghost use Rattle.punch_def.specs.Punch.{punch_lent};
ghost use Rattle.punch.specs.Passing.{range_in, RangeSaid};

use change_ground::Ground;
use cut_segment::{Running, RunningLeaves};
use plan_def::Outputs;
pub use range::FileRange;
use records::refusal::{Refusal, check};
use records::sum_at_most;
use request::{Lent, Numbers, Range};
use table::Table;

// Refusals 1 to 9 of a punch or a fallocate: of what it is lent, of its range, and record by record.
#[tactic(auto, unfolding(records::specs::Stages::first, records::specs::Stages::first_of, punch_def::specs::Punch::range_refusal))]
fn range_stages(l: Lent, r: Range) -> Result<(), Refusal>
    ensures { why result ≡ range_in l.entry r }
{
    request::lent_refusal(l)?;
    let near = sum_at_most(r.offset, r.length, 9223372036854775807);
    check(r.length != 0, Refusal::Empty)?;
    check(near, Refusal::TooFar)?;
    lists::records_refusal(l.list)
}

// What passes them: the range, with what a change of the file goes by.
pub fn range_refusal<'a>(l: Lent<'a>, r: Range) -> Result<FileRange<'a>, Refusal>
    ensures { RangeSaid l.entry r result }
{
    range_stages(l, r)?;
    let leaves = RunningLeaves {
        list: Running { records: l.list },
        shared: l.shared,
    };
    let ground = Ground {
        volume: l.volume,
        file: l.file,
        leaves,
        table: Table { numbers: l.table },
    };
    Ok(FileRange {
        ground,
        start: r.offset,
        stop: r.offset + r.length,
    })
}

// A punch of a hole into a file: the answer, and the plan in the outputs. Any bytes may be lent.
pub fn punch_hole(
    l: Lent,
    r: Range,
    places: &[u64],
    out: &mut Outputs,
) -> Result<Option<Numbers>, Refusal>
    ensures met { Met l.entry.file.number (punch_lent l.entry.volume l.entry.file r l.entry.list.now l.entry.shared.now l.entry.table.now places.now) result out.old out.new }
    ensures kept { Kept out.old out.new }
{
    let range = range_refusal(l, r)?;
    let Some(c) = range.plan_punch() else {
        return Ok(None);
    };
    let g = range.ground;
    change_range::change_range(g, c, change_def::no_holes(g.file.size), places, out)
}
