// The operations for C: numbers and slices in, a byte out. A slice is a pointer and a length; no output overlaps another
// slice. The byte is 0 for a plan, 100 for nothing to do, else the refusal's number. `answer` receives the nine numbers of a
// plan: edits, shares, unrefs, releases, adds and writes as counts, size, bytes, prealloc as 0 or 1.
#![tactic(auto)]

ghost use Rattle.std.specs.Prelude.{false, ◌≡◌, ◌≤◌, length};
ghost use Rattle.records.specs.Lent.{old, new};
ghost use Rattle.endian.specs.Le.{put};
ghost use Rattle.request.specs.Answers.{said};
ghost use Rattle.punch_def.specs.Punch.{punch_lent};
ghost use Rattle.fallocate_def.specs.Fallocate.{fallocate_lent};
ghost use Rattle.clone_def.specs.Clone.{clone_lent};
ghost use Rattle.ffi.specs.Exports.{nine, Told, Exported, six, four, volume, file, range, clone_range};

use clone_span::CloneRange;
use plan_def::Outputs;
use records::refusal::Refusal;
use request::{File, Lent, Numbers, Range, Volume};

// ---- what goes in and comes out

// The nine numbers of a plan over the first of `answer`.
fn put_nine(n: Numbers, answer: &mut [u64])
    requires { 9 ≤ length answer.old }
    ensures { answer.new ≡ put (nine n) 0 answer.old }
{
    let numbers = [
        n.edits as u64,
        n.shares as u64,
        n.unrefs as u64,
        n.releases as u64,
        n.adds as u64,
        n.writes as u64,
        n.size,
        n.bytes,
        n.prealloc as u64,
    ];
    plan_lines::put_numbers(answer, 0, numbers);
}

// An answer's byte, and its numbers if it is a plan.
fn tell(a: Result<Option<Numbers>, Refusal>, answer: &mut [u64]) -> u8
    requires { 9 ≤ length answer.old }
    ensures { Told (said a) result answer.old answer.new }
{
    match a {
        Err(refusal) => refusal.number(),
        Ok(None) => 100,
        Ok(Some(n)) => {
            put_nine(n, answer);
            0
        }
    }
}

// ---- the exports

// A punch of a hole (`punch::punch_hole`).
#[unsafe(no_mangle)]
pub extern "C" fn zag_punch(
    sector: u64,
    total: u64,
    generation: u64,
    snapshot: u64,
    number: u64,
    size: u64,
    nodatacow: bool,
    offset: u64,
    length: u64,
    list: &[u8],
    shared: &[u8],
    table: &[u64],
    places: &[u64],
    edits: &mut [u8],
    shares: &mut [u64],
    unrefs: &mut [u64],
    releases: &mut [u64],
    adds: &mut [u64],
    writes: &mut [u64],
    answer: &mut [u64],
) -> u8
    ensures { Exported number (punch_lent (volume sector total generation snapshot) (file number size nodatacow) (range offset length) list.now shared.now table.now places.now)
        result answer (six edits shares unrefs releases adds writes) }
{
    if answer.len() < 9 {
        return Refusal::Room.number();
    }
    let lent = Lent {
        volume: Volume {
            sector,
            total,
            generation,
            snapshot,
        },
        file: File {
            number,
            size,
            nodatacow,
        },
        list,
        shared,
        table,
    };
    let mut out = Outputs {
        edits,
        shares,
        unrefs,
        releases,
        adds,
        writes,
    };
    let a = punch::punch_hole(lent, Range { offset, length }, places, &mut out);
    tell(a, answer)
}

// A fallocate, its size kept or not (`fallocate::fallocate`).
#[unsafe(no_mangle)]
pub extern "C" fn zag_fallocate(
    sector: u64,
    total: u64,
    generation: u64,
    snapshot: u64,
    number: u64,
    size: u64,
    nodatacow: bool,
    offset: u64,
    length: u64,
    keep: bool,
    list: &[u8],
    shared: &[u8],
    table: &[u64],
    places: &[u64],
    edits: &mut [u8],
    shares: &mut [u64],
    unrefs: &mut [u64],
    releases: &mut [u64],
    adds: &mut [u64],
    writes: &mut [u64],
    answer: &mut [u64],
) -> u8
    ensures { Exported number (fallocate_lent (volume sector total generation snapshot) (file number size nodatacow) (range offset length) keep list.now shared.now table.now places.now)
        result answer (six edits shares unrefs releases adds writes) }
{
    if answer.len() < 9 {
        return Refusal::Room.number();
    }
    let lent = Lent {
        volume: Volume {
            sector,
            total,
            generation,
            snapshot,
        },
        file: File {
            number,
            size,
            nodatacow,
        },
        list,
        shared,
        table,
    };
    let mut out = Outputs {
        edits,
        shares,
        unrefs,
        releases,
        adds,
        writes,
    };
    let a = fallocate::fallocate(lent, Range { offset, length }, keep, places, &mut out);
    tell(a, answer)
}

// A clone (`clone::clone_range`): with `own` the source is the destination itself, and its number, size and list are not
// looked at. It looks at no file's nodatacow, and has no adds and no writes.
#[unsafe(no_mangle)]
pub extern "C" fn zag_clone<'a>(
    sector: u64,
    total: u64,
    generation: u64,
    snapshot: u64,
    number: u64,
    size: u64,
    source_number: u64,
    source_size: u64,
    own: bool,
    from: u64,
    to: u64,
    length: u64,
    list: &'a [u8],
    shared: &[u8],
    source: &'a [u8],
    table: &[u64],
    edits: &mut [u8],
    shares: &mut [u64],
    unrefs: &mut [u64],
    releases: &mut [u64],
    answer: &mut [u64],
) -> u8
    ensures { Exported number (clone_lent (volume sector total generation snapshot) (file number size false) (file source_number source_size false) own (clone_range from to length) list.now shared.now source.now table.now)
        result answer (four edits shares unrefs releases) }
{
    if answer.len() < 9 {
        return Refusal::Room.number();
    }
    let lent = Lent {
        volume: Volume {
            sector,
            total,
            generation,
            snapshot,
        },
        file: File {
            number,
            size,
            nodatacow: false,
        },
        list,
        shared,
        table,
    };
    let file = File {
        number: source_number,
        size: source_size,
        nodatacow: false,
    };
    let mut out = Outputs {
        edits,
        shares,
        unrefs,
        releases,
        adds: &mut [],
        writes: &mut [],
    };
    let span = CloneRange { from, to, length };
    let a = clone::clone_range(lent, file, own, source, span, &mut out);
    tell(a, answer)
}
