// Refusals 26 and 27 in code: the places of new extents, and the room for a plan.
#![tactic(auto)]

ghost use Rattle.std.specs.Prelude.{◌≡◌, ℕ};
ghost use Rattle.records.specs.Refusals.{why};
ghost use Rattle.records.specs.Stages.{unless, every};
ghost use Rattle.table.specs.declared.Row.{Row};
ghost use Rattle.table.specs.Rows.{rows};
ghost use Rattle.plan_def.specs.Plans.{Plan, numbers};
ghost use Rattle.plan_def.specs.Places.{clear, place_sound};
ghost use Rattle.plan_def.specs.Outputs.{outs_in, rooms_of, room_for};

use plan_def::Outputs;
use records::refusal::{Refusal, check};
use records::sum_at_most;
use request::Numbers;
use table::{Table, WIDTH};

// Whether [a, a + m) and [b, b + n) share no byte.
pub fn is_clear(a: u64, m: u64, b: u64, n: u64) -> bool
    ensures { result ≡ clear a m b n }
{
    sum_at_most(a, m, b) || sum_at_most(b, n, a)
}

// Whether a place shares no byte with a row. By halves: rows rise and do not overlap, so of those that end behind the
// place's start only the first can meet it.
pub fn place_clear(table: Table, start: u64, length: u64) -> bool
    ensures { result ≡ every (λ (row : Row). clear start length row.start row.length) (rows table.entry.numbers.now) }
{
    let (lines, _) = table.numbers.as_chunks::<WIDTH>();
    let k = lines.partition_point(|line| sum_at_most(line[0], line[1], start));
    if k == lines.len() {
        return true;
    }
    sum_at_most(start, length, lines[k][0])
}

// Refusal 26 of one place: it is 0, has no 64-bit end, or meets a row.
pub fn place_refusal(table: Table, start: u64, length: u64) -> Result<(), Refusal>
    ensures { (k : ℕ) → why result ≡ unless (place_sound (rows table.entry.numbers.now) (record { start = start; length = length; key = k })) 26 }
{
    check(
        start != 0 && start.checked_add(length).is_some() && place_clear(table, start, length),
        Refusal::Place,
    )
}

// Refusal 27: an output is too short for a plan with these numbers.
pub fn room_refusal(n: Numbers, out: &Outputs) -> Result<(), Refusal>
    ensures { (p : Plan) → numbers p ≡ n → why result ≡ unless (room_for (rooms_of (outs_in out.now)) p) 27 }
{
    check(
        n.edits <= out.edits.len() / item::EDIT
            && n.shares <= out.shares.len() / 2
            && n.unrefs <= out.unrefs.len() / 2
            && n.releases <= out.releases.len() / 2
            && n.adds <= out.adds.len() / 3
            && n.writes <= out.writes.len() / 4,
        Refusal::Room,
    )
}
