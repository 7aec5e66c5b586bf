// A long pseudo-random history of calls on four files and one extents table, through the compiled operations and applying.
// After each call the claims of demand 3 are checked on the bytes. It prints what happened in each round, and stops at a
// claim that does not hold. The seed is fixed, so its output is too.
#![tactic(auto)]

mod claims;
mod outputs;
mod runs;
mod turns;

use claims::Claim;
use std::io;
use test_history_state::between;
use test_history_state::draws::{stirred, summed};
use test_history_state::state::{Counts, FILES, LIST, State, TABLE};

// Numbers on a line, behind a word, a space before each.
fn numbers_line(rt: &impl Print, word: &str, numbers: &[u64]) -> io::Result<()> {
    print!(rt; "{word}")?;
    for x in numbers {
        print!(rt; " {x}")?;
    }
    println!(rt;)
}

// A sum over all bytes.
fn sum_of(s: &State) -> u64 {
    let mut sum = summed(&s.table, 1);
    for list in &s.lists {
        sum = summed(list, sum);
    }
    sum
}

// The number of a round, its sector, what it counted, each file's records, the rows, and a sum over all bytes.
fn print_round(rt: &impl Print, s: &State, counts: &Counts, round: u64) -> io::Result<()> {
    let line = [
        round,
        s.sector(),
        counts.applied,
        counts.no_room,
        counts.nothings,
        counts.refusals,
        counts.taken_back,
        s.items[0] as u64,
        s.items[1] as u64,
        s.items[2] as u64,
        s.items[3] as u64,
        s.rows as u64,
        sum_of(s),
    ];
    numbers_line(rt, "", &line)
}

fn print_broken(rt: &impl Print, claim: Claim, round: u64, call: u64) -> io::Result<()> {
    numbers_line(
        rt,
        "does not hold: claim, round, call",
        &[claim as u64, round, call],
    )
}

fn print_end(rt: &impl Print, counts: &Counts) -> io::Result<()> {
    numbers_line(
        rt,
        "edits shares unrefs releases adds writes",
        &counts.lines,
    )?;
    numbers_line(rt, "refusals 1 to 27", &counts.by_number)?;
    println!(rt; "every claim held")
}

// ---- the history

// A claim that does not hold, and the call after which it does not.
#[derive(Drop)]
struct Broken {
    claim: Claim,
    call: u64,
}

// A round of 2,000 calls.
fn run_round(seed: &mut u64, s: &mut State, counts: &mut Counts, round: u64) -> Result<(), Broken> {
    between::begin(s, round);
    counts.begin();
    for call in 0..2000 {
        *seed = stirred(*seed);
        turns::turn(*seed, s, counts).map_err(|claim| Broken { claim, call })?;
    }
    Ok(())
}

fn run_history(rt: &impl Print) -> io::Result<()> {
    let mut seed: u64 = 88172645463325252;
    let mut s = State {
        generation: 7,
        shift: 0,
        taken: 0,
        sizes: [0; FILES],
        items: [0; FILES],
        rows: 0,
        lists: [[0; LIST]; FILES],
        table: [0; TABLE],
    };
    let mut counts = Counts::new();
    println!(rt; "round sector applied room nothing refused back items of 4 files rows sum")?;
    for round in 0..20 {
        if let Err(broken) = run_round(&mut seed, &mut s, &mut counts, round) {
            return print_broken(rt, broken.claim, round, broken.call);
        }
        print_round(rt, &s, &counts, round)?;
    }
    print_end(rt, &counts)
}

// What is printed is compared, so a write that fails is told by what is missing, and by no status.
fn main(rt: HostRuntime) {
    let _ = run_history(&rt);
}
