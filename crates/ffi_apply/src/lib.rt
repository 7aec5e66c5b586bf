// Applying for C: numbers and slices in, a byte out. A slice is a pointer and a length; neither the list nor the table nor
// `answer` overlaps another slice. The byte is 0 for a plan that is applied, else the refusal's number. `answer` receives the two
// new counts, of records and of rows.
#![tactic(auto)]

ghost use Rattle.std.specs.Prelude.{◌≤◌, length};
ghost use Rattle.records.specs.Lent.{old, new};
ghost use Rattle.apply_def.specs.Lent.{apply_lent, parts_of};
ghost use Rattle.apply.specs.Outcomes.{applied_said};
ghost use Rattle.ffi_apply.specs.Exports.{Heard, Exported};

use apply::{Parts, Sizes, Target};
use records::refusal::Refusal;

// An answer's byte, and its two counts if the plan is applied.
fn tell(a: Result<Sizes, Refusal>, answer: &mut [u64]) -> u8
    requires { 2 ≤ length answer.old }
    ensures { Heard (applied_said a) result answer.old answer.new }
{
    match a {
        Err(refusal) => refusal.number(),
        Ok(sizes) => {
            answer[0] = sizes.items as u64;
            answer[1] = sizes.rows as u64;
            0
        }
    }
}

// A plan applied to the first `items` records of a list and the first `rows` rows of a table (`apply::apply_plan`);
// `generation` is the new one.
#[unsafe(no_mangle)]
pub extern "C" fn zag_apply(
    sector: u64,
    generation: u64,
    number: u64,
    items: usize,
    rows: usize,
    list: &mut [u8],
    table: &mut [u64],
    edits: &[u8],
    shares: &[u64],
    unrefs: &[u64],
    releases: &[u64],
    adds: &[u64],
    answer: &mut [u64],
) -> u8
    ensures { Exported (apply_lent sector number generation items rows list.old table.old (parts_of edits.now shares.now unrefs.now releases.now adds.now)) result answer list table }
{
    if answer.len() < 2 {
        return Refusal::Room.number();
    }
    let target = Target {
        sizes: Sizes { items, rows },
        sector,
        number,
        generation,
    };
    let plan = Parts {
        edits,
        shares,
        unrefs,
        releases,
        adds,
    };
    let a = apply::apply_plan(target, list, table, plan);
    tell(a, answer)
}
