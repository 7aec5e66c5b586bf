// The claims of demand 3 on the bytes, and a few more: each function passes, or gives the claim that does not hold.
use crate::outputs::Buffers;
use records::refusal::Refusal;
use request::Numbers;
use test_history_state::calls::{Call, Operation};
use test_history_state::ledgers::Ledger;
use test_history_state::maps::{Map, map_of, shown_at};
use test_history_state::sectors::{sectors_in, sectors_up};
use test_history_state::state::{self, RECORDS, ROWS, State};

#[derive(Clone, Copy)]
pub enum Claim {
    ListKept = 1,
    TableKept,
    OthersKept,
    Mapping,
    Balance,
    Totals,
    Released,
    PastPlan,
    Size,
    Bytes,
    Unchanged,
    Applying,
    Nothing,
}

pub fn check(holds: bool, claim: Claim) -> Result<(), Claim> {
    if holds { Ok(()) } else { Err(claim) }
}

// ---- 1 and 2: the changed list and the table are well kept

fn list_kept(f: usize, s: &State) -> Result<(), Refusal> {
    let list = s.list(f);
    lists::list_size_refusal(list)?;
    lists::list_refusal(list, state::file_number(f))?;
    match s.sector() {
        0 => Err(Refusal::Sector),
        sector => lists::sectors_refusal(list, sector),
    }
}

pub fn kept(f: usize, s: &State) -> Result<(), Claim> {
    check(list_kept(f, s).is_ok(), Claim::ListKept)?;
    check(table::table_size_refusal(s.rows()).is_ok(), Claim::ListKept)?;
    check(table::table_refusal(s.rows()).is_ok(), Claim::TableKept)
}

// ---- 3: the bytes of the other files

pub fn others_kept(f: usize, s: &State, was: &State) -> Result<(), Claim> {
    for (i, (list, before)) in s.lists.iter().zip(&was.lists).enumerate() {
        check(i == f || list == before, Claim::OthersKept)?;
    }
    Ok(())
}

// ---- 4: the mapping at every sector

// The sectors that a call may change, from `lo` up to `hi`, and the old end's, if there is one; `whole` up to `past` are those
// that the range covers whole. A clone's come from `source` on.
#[derive(Clone, Copy)]
struct Sectors {
    lo: u64,
    hi: u64,
    whole: u64,
    past: u64,
    end: Option<u64>,
    source: u64,
}

// The sector of an old end that a fallocate rewrites: one inside a sector, before the range's end.
fn old_end(call: Call, s: &State) -> Option<u64> {
    let size = s.size(call.file);
    let inside = size.checked_rem(s.sector())? != 0;
    let passed = size < call.to.wrapping_add(call.length);
    match call.operation {
        Operation::Fallocate | Operation::FallocateKeep if inside && passed => {
            Some(sectors_in(size, s.shift))
        }
        _ => None,
    }
}

// The length that is meant: a clone's 0 is all up to the source's end. `was` is the volume before the call.
fn meant(call: Call, was: &State) -> u64 {
    if call.operation == Operation::Clone && call.length == 0 {
        was.size(call.source).wrapping_sub(call.from)
    } else {
        call.length
    }
}

fn sectors_of(call: Call, was: &State) -> Sectors {
    let end = call.to.wrapping_add(meant(call, was));
    Sectors {
        lo: sectors_in(call.to, was.shift),
        hi: sectors_up(end, was.shift),
        whole: sectors_up(call.to, was.shift),
        past: sectors_in(end, was.shift),
        end: old_end(call, was),
        source: sectors_in(call.from, was.shift),
    }
}

// The maps of the file before and after the plan, and the source's before.
#[derive(Drop)]
struct Maps {
    before: Map,
    source: Map,
    after: Map,
}

impl Maps {
    // A punched sector shows nothing if the range covers it whole; else it shows something if it did.
    fn is_punched(&self, p: Sectors, k: u64) -> bool {
        let after = shown_at(&self.after, k);
        if p.whole <= k && k < p.past {
            after.is_none()
        } else {
            after.is_none() == shown_at(&self.before, k).is_none()
        }
    }

    // An allocated sector shows something, and what it showed before unless it is the old end's.
    fn is_allocated(&self, p: Sectors, k: u64) -> bool {
        let after = shown_at(&self.after, k);
        let before = shown_at(&self.before, k);
        after.is_some() && (before.is_none() || p.end == Some(k) || before == after)
    }

    // What a sector shows after a call.
    fn is_right(&self, operation: Operation, p: Sectors, k: u64) -> bool {
        if !(p.lo <= k && k < p.hi) && p.end != Some(k) {
            return shown_at(&self.before, k) == shown_at(&self.after, k);
        }
        match operation {
            Operation::Punch => self.is_punched(p, k),
            Operation::Clone => {
                let from = p.source.wrapping_add(k.wrapping_sub(p.lo));
                shown_at(&self.source, from) == shown_at(&self.after, k)
            }
            _ => self.is_allocated(p, k),
        }
    }
}

pub fn mapping(call: Call, s: &State, was: &State) -> Result<(), Claim> {
    let maps = Maps {
        before: map_of(was.list(call.file), was.shift),
        source: map_of(was.list(call.source), was.shift),
        after: map_of(s.list(call.file), was.shift),
    };
    let p = sectors_of(call, was);
    for k in 0..64 {
        check(maps.is_right(call.operation, p, k), Claim::Mapping)?;
    }
    Ok(())
}

// ---- 5: for each reference, items after + unrefs + releases = items before + shares + adds

pub fn balance(f: usize, n: Numbers, s: &State, was: &State, out: &Buffers) -> Result<(), Claim> {
    let mut ledger = Ledger::new();
    ledger.note_items(was.list(f), true);
    ledger.note_items(s.list(f), false);
    ledger.note_adds(out.adds(n));
    ledger.note_pairs(out.shares(n), true);
    ledger.note_pairs(out.unrefs(n), false);
    ledger.note_pairs(out.releases(n), false);
    check(ledger.is_balanced(), Claim::Balance)
}

// ---- 6 and 7: the table's references are true, and an extent is released exactly when its last reference goes

// The extent that each record of each file names, if it names one.
fn names(s: &State) -> [Option<u64>; 128] {
    let mut names = [None; 128];
    for f in 0..state::FILES {
        let part = &mut names[f * RECORDS..f * RECORDS + RECORDS];
        for (name, item) in part.iter_mut().zip(item::items(s.list(f))) {
            *name = state::named(item);
        }
    }
    names
}

fn often(names: &[Option<u64>], start: u64) -> u64 {
    names.iter().filter(|name| **name == Some(start)).count() as u64
}

// Each row's references are the items that name its extent, and some do; and all rows' are all there are: so every extent that is
// named has a row.
fn rows_true(names: &[Option<u64>], rows: &[u64]) -> Result<(), Claim> {
    let mut sum: u64 = 0;
    for row in table::rows(rows) {
        let right = row.references != 0 && often(names, row.start) == row.references;
        check(right, Claim::Totals)?;
        sum = sum.wrapping_add(row.references);
    }
    let named = names.iter().flatten().count() as u64;
    check(sum == named, Claim::Totals)
}

// Whether a line of two numbers has this start.
fn has_line(lines: &[u64], start: u64) -> bool {
    lines.chunks_exact(2).any(|line| line[0] == start)
}

// Of the rows before the plan, those that nothing names any more are those that a release names.
fn released_right(names: &[Option<u64>], rows: &[u64], releases: &[u64]) -> Result<(), Claim> {
    for row in table::rows(rows) {
        let gone = often(names, row.start) == 0;
        check(gone == has_line(releases, row.start), Claim::Released)?;
    }
    Ok(())
}

pub fn totals(s: &State, was: &State, releases: &[u64]) -> Result<(), Claim> {
    let names = names(s);
    rows_true(&names, s.rows())?;
    released_right(&names, was.rows(), releases)
}

// ---- 9 and 10: the new size, and the byte count

fn size_meant(call: Call, was: &State) -> u64 {
    let size = was.size(call.file);
    match call.operation {
        Operation::Punch | Operation::FallocateKeep => size,
        _ => size.max(call.to.wrapping_add(meant(call, was))),
    }
}

fn bytes_held(list: &[u8]) -> u64 {
    let mut sum: u64 = 0;
    for item in item::items(list) {
        if state::named(item).is_some() {
            sum = sum.wrapping_add(item.length());
        }
    }
    sum
}

pub fn numbers(call: Call, n: Numbers, s: &State, was: &State) -> Result<(), Claim> {
    check(n.size == size_meant(call, was), Claim::Size)?;
    check(bytes_held(s.list(call.file)) == n.bytes, Claim::Bytes)
}

// ---- 11 and 12: a refusal changes nothing, and applying refuses a fresh plan only for want of room

pub fn unchanged(s: &State, was: &State) -> Result<(), Claim> {
    check(s == was, Claim::Unchanged)
}

pub fn want_of_room(f: usize, n: Numbers, was: &State, why: Refusal) -> Result<(), Claim> {
    let records = was.item_count(f).saturating_add(n.edits);
    let rows = was.rows.saturating_add(n.adds);
    let short = RECORDS < records || ROWS < rows;
    check(matches!(why, Refusal::Room) && short, Claim::Applying)
}

// ---- 13: there is nothing to do only where a punch's range shows nothing, and where nothing is left to clone

pub fn nothing(call: Call, was: &State) -> Result<(), Claim> {
    let map = map_of(was.list(call.file), was.shift);
    let p = sectors_of(call, was);
    let right = match call.operation {
        Operation::Punch => (p.lo..p.hi.min(64)).all(|k| shown_at(&map, k).is_none()),
        Operation::Clone => meant(call, was) == 0,
        _ => false,
    };
    check(right, Claim::Nothing)
}
