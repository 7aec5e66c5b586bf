// The places of new extents in code: refusal 26, and the adds.
#![tactic(auto)]

ghost use Rattle.std.specs.Prelude.{◌≡◌, map, ◌≤◌, length};
ghost use Rattle.std.specs.Iterator.{YieldsFirstBy, item_count};
ghost use Rattle.records.specs.Lent.{old, new};
ghost use Rattle.records.specs.Refusals.{why};
ghost use Rattle.records.specs.Stages.{unless, every, pairs};
ghost use Rattle.table.specs.Rows.{rows};
ghost use Rattle.plan_def.specs.Places.{placed, place_sound, places_apart, places_sound};
ghost use Rattle.plan_def.specs.Outputs.{add_numbers};
ghost use Rattle.plan_lines.specs.Lines.{Laid};
ghost use Rattle.change_holes.specs.Walk.{wishes_of};
ghost use Rattle.change_places.specs.Wishes.{wanted_of, add_of, ahead};

use change_holes::{Walker, Wishes};
use records::refusal::{Refusal, check};
use table::Table;

// A new extent at its place: where it starts on the volume, how long it is, and where it lies in the file.
#[derive(Clone, Copy)]
pub struct Extent {
    start: u64,
    length: u64,
    key: u64,
}

// The new extents at their places, one by one: places that are left, and the pieces that lie there.
#[derive(Clone, Copy)]
pub struct Extents<'a> {
    places: &'a [u64],
    walk: Walker<'a>,
}

impl<'a> Iterator for Extents<'a> {
    type Item = Extent;

    ghost next_gives = { YieldsFirstBy add_of ahead };

    ghost remaining = { item_count ahead };

    #[tactic(auto, unfolding(plan_def::specs::Places::placed))]
    fn next(&mut self) -> Option<Extent> {
        let (start, behind) = self.places.split_first()?;
        let piece = self.walk.next()?;
        self.places = behind;
        Some(Extent {
            start: *start,
            length: piece.length,
            key: piece.start,
        })
    }
}

// Refusal 26 of each place by itself, one after the other.
#[tactic(auto, unfolding(records::specs::Stages::every))]
fn each_refusal(all: Extents, table: Table) -> Result<(), Refusal>
    ensures { why result ≡ unless (every (place_sound (rows table.entry.numbers.now)) (ahead all.entry)) 26 }
{
    for e in all {
        plan_places::place_refusal(table, e.start, e.length)?;
    }
    Ok(())
}

// Refusal 26 of one extent against others.
#[tactic(auto, unfolding(records::specs::Stages::every))]
fn apart_refusal(one: Extent, others: Extents) -> Result<(), Refusal>
    ensures { why result ≡ unless (every (places_apart (add_of one)) (ahead others.entry)) 26 }
{
    for e in others {
        check(
            plan_places::is_clear(one.start, one.length, e.start, e.length),
            Refusal::Place,
        )?;
    }
    Ok(())
}

// Refusal 26 of each two places, by pairs.
#[tactic(auto, unfolding(records::specs::Stages::pairs))]
fn plain_refusal(all: Extents) -> Result<(), Refusal>
    ensures { why result ≡ unless (pairs places_apart (ahead all.entry)) 26 }
{
    let mut rest = all;
    // no `for`: each turn reads what is left
    while let Some(e) = rest.next() {
        apart_refusal(e, rest)?;
    }
    Ok(())
}

// Refusal 26 of each two places: the extents, each as a pair of its start and length, sorted in a lent buffer.
fn sorted_refusal(all: Extents, buffer: &mut [(u64, u64)]) -> Result<(), Refusal>
    requires { length all.places.now ≤ length buffer.old }
    ensures { why result ≡ unless (pairs places_apart (ahead all.entry)) 26 }
{
    // how many there are is asked for behind the loop, too
    let mut n = 0;
    for e in all {
        buffer[n] = (e.start, e.length);
        n += 1;
    }
    check(plan_apart::are_apart(&mut buffer[..n]), Refusal::Place)
}

// The same with a buffer of its own, for up to N places: a small one takes less time to zero. It is not built into its caller,
// whose every call would pay for it.
#[inline(never)]
fn sized_refusal<const N: usize>(all: Extents) -> Result<(), Refusal>
    requires { (length all.places.now ≤ N) × (N ≤ 65536) }
    ensures { why result ≡ unless (pairs places_apart (ahead all.entry)) 26 }
{
    let mut buffer = [(0u64, 0u64); N];
    sorted_refusal(all, &mut buffer)
}

// Refusal 26 of each two places. Few are compared by pairs; so are very many, if the first half is not refused.
fn pairs_refusal(all: Extents) -> Result<(), Refusal>
    ensures { why result ≡ unless (pairs places_apart (ahead all.entry)) 26 }
{
    let n = all.places.len();
    if n <= 16 {
        return plain_refusal(all);
    }
    if n <= 1024 {
        return sized_refusal::<1024>(all);
    }
    if n <= 8192 {
        return sized_refusal::<8192>(all);
    }
    if n <= 65536 {
        return sized_refusal::<65536>(all);
    }
    let half = Extents {
        places: &all.places[..n / 2],
        ..all
    };
    pairs_refusal(half)?;
    plain_refusal(all)
}

// Refusal 26 of the places of new extents, `wanted` in number: a wrong number of places, or one that is not sound, or two
// that meet.
pub fn places_refusal(w: Wishes, wanted: usize, table: Table, places: &[u64]) -> Result<(), Refusal>
    requires { length (wishes_of w) ≡ wanted }
    ensures { why result ≡ unless (places_sound (rows table.entry.numbers.now) places.now (map wanted_of (wishes_of w.entry))) 26 }
{
    if places.len() != wanted {
        return Err(Refusal::Place);
    }
    let all = Extents {
        places,
        walk: w.walk(),
    };
    each_refusal(all, table)?;
    pairs_refusal(all)
}

// The adds: each new extent at its place.
pub fn put_adds(w: Wishes, places: &[u64], out: &mut [u64]) -> usize
    requires { length (wishes_of w) ≡ length places.now }
    ensures { Laid add_numbers 3 0 (placed places.now (map wanted_of (wishes_of w.entry))) out.old result out.new }
{
    let mut m = 0;
    let all = Extents {
        places,
        walk: w.walk(),
    };
    for e in all {
        m = plan_lines::put_add(out, m, e.start, e.length, e.key);
    }
    m
}
