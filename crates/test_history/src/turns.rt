// One turn of the history: a call, applying, and every claim on the bytes that are there then.
use crate::claims::{self, Claim, check};
use crate::outputs::Buffers;
use crate::runs;
use apply::Sizes;
use request::Numbers;
use test_history_state::between;
use test_history_state::calls::{self, Call};
use test_history_state::state::{Counts, State};

// ---- an applied plan

fn count_plan(counts: &mut Counts, n: Numbers) {
    let lines = [n.edits, n.shares, n.unrefs, n.releases, n.adds, n.writes];
    for (sum, lines) in counts.lines.iter_mut().zip(lines) {
        *sum = sum.wrapping_add(lines as u64);
    }
    counts.applied = counts.applied.wrapping_add(1);
}

// The numbers of the volume after a plan.
fn keep_numbers(s: &mut State, f: usize, n: Numbers, sizes: Sizes) {
    if let (Some(items), Some(size)) = (s.items.get_mut(f), s.sizes.get_mut(f)) {
        *items = sizes.items;
        *size = n.size;
    }
    s.rows = sizes.rows;
    s.taken = s.taken.wrapping_add(n.adds as u64);
    s.generation = s.generation.wrapping_add(1);
}

// All claims on an applied plan. A trial is free of 6 and 7: a leaf was lent as shared, or a record was odd for this call.
fn applied_claims(
    call: Call,
    trial: bool,
    n: Numbers,
    s: &State,
    was: &State,
    out: &Buffers,
) -> Result<(), Claim> {
    claims::kept(call.file, s)?;
    claims::others_kept(call.file, s, was)?;
    claims::mapping(call, s, was)?;
    claims::numbers(call, n, s, was)?;
    claims::balance(call.file, n, s, was, out)?;
    if trial {
        return Ok(());
    }
    claims::totals(s, was, out.releases(n))
}

// A plan applied, and its claims.
fn planned(
    call: Call,
    trial: bool,
    n: Numbers,
    s: &mut State,
    counts: &mut Counts,
    was: &State,
    out: &Buffers,
) -> Result<(), Claim> {
    match runs::applied(call.file, n, s, out) {
        Ok(sizes) => {
            keep_numbers(s, call.file, n, sizes);
            count_plan(counts, n);
            applied_claims(call, trial, n, s, was, out)
        }
        Err(why) => {
            counts.no_room = counts.no_room.wrapping_add(1);
            claims::want_of_room(call.file, n, was, why)?;
            claims::unchanged(s, was)
        }
    }
}

// ---- a turn

const NO_LINES: Numbers = Numbers {
    edits: 0,
    shares: 0,
    unrefs: 0,
    releases: 0,
    adds: 0,
    writes: 0,
    size: 0,
    bytes: 0,
    prealloc: false,
};

// The call itself, and what its answer leads to.
fn made(
    call: Call,
    x: u64,
    trial: bool,
    s: &mut State,
    counts: &mut Counts,
    was: &State,
) -> Result<(), Claim> {
    let mut out = Buffers::new();
    let answer = runs::answer(call, x, was, &mut out);
    match answer {
        Ok(Some(n)) => {
            check(out.is_past_kept(n), Claim::PastPlan)?;
            planned(call, trial, n, s, counts, was, &out)
        }
        Ok(None) => {
            counts.nothings = counts.nothings.wrapping_add(1);
            check(out.is_past_kept(NO_LINES), Claim::PastPlan)?;
            claims::unchanged(s, was)?;
            claims::nothing(call, was)
        }
        Err(refusal) => {
            counts.refusals = counts.refusals.wrapping_add(1);
            if let Some(count) = counts
                .by_number
                .get_mut((refusal.number() as usize).wrapping_sub(1))
            {
                *count = count.wrapping_add(1);
            }
            check(out.is_past_kept(NO_LINES), Claim::PastPlan)?;
            claims::unchanged(s, was)
        }
    }
}

// A call on the volume; a trial is taken back.
fn called(
    call: Call,
    x: u64,
    trial: bool,
    s: &mut State,
    counts: &mut Counts,
) -> Result<(), Claim> {
    let was = *s;
    let claim = made(call, x, trial, s, counts, &was);
    if trial {
        *s = was;
        counts.taken_back = counts.taken_back.wrapping_add(1);
    }
    claim
}

// A call, for which a record may be odd.
pub fn turn(x: u64, s: &mut State, counts: &mut Counts) -> Result<(), Claim> {
    between::stir(s, x);
    let odd = between::odd_record(s, x);
    let Some(odd) = odd else {
        return called(calls::next_call(x, s), x, calls::leaf(x) == 1, s, counts);
    };
    let even = between::make_odd(s, odd);
    let claim = called(calls::next_call(x, s), x, true, s, counts);
    if let Some(even) = even {
        between::make_even(s, odd, even);
    }
    claim
}
