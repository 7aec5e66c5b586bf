// The checks of a file's list and of its shared bytes. Each passes or gives its refusal.
#![tactic(auto, unfolding(records::specs::Stages::first, records::specs::Stages::first_of, records::specs::Stages::stage))]

ghost use Rattle.std.specs.Prelude.{◌≡◌, not, true, ◌||◌, ℕ, ◌+◌, ◌*◌, ◌%◌, ◌^◌, ◌<◌, ◌≤◌, leb, ltb, length, drop};
ghost use Rattle.records.specs.Refusals.{why};
ghost use Rattle.records.specs.Stages.{unless, stage, every};
ghost use Rattle.item.specs.Items.{fields, item_of, items, ranged};
ghost use Rattle.lists.specs.Lists.{shared_sound, range_sound, item_sound, list_kept, whole_sectors, record_refusal};
ghost use Rattle.lists.specs.Raw.{follows, turn, next, list_sized};

use item::{Item, Kind, RECORD};
use records::refusal::{Refusal, check, size_refusal};
use records::sum_at_most;

// ---- refusals

// Refusal 1 of a list: broken length, or over-long.
pub fn list_size_refusal(list: &[u8]) -> Result<(), Refusal>
    ensures { why result ≡ unless (list_sized list.now) 1 }
{
    size_refusal(list.len(), RECORD)
}

// Refusal 1 of the shared bytes: not one a record, or one that is neither 0 nor 1.
pub fn shared_refusal(shared: &[u8], list: &[u8]) -> Result<(), Refusal>
    ensures { why result ≡ unless (shared_sound shared.now (items list.now)) 1 }
{
    check(
        shared.len() == list.len() / RECORD && are_marks(shared),
        Refusal::Broken,
    )
}

// Whether each byte is 0 or 1.
fn are_marks(shared: &[u8]) -> bool
    ensures { result ≡ every (λ (b : ℕ). leb b 1) shared.now }
{
    shared.iter().all(|b| *b <= 1)
}

// Whether an item is regular or preallocated, so that its key and length are a range of the file. By `==`: over a `matches!` the
// optimizer makes the kind of the byte first.
pub fn is_ranged(item: Item) -> bool
    ensures { result ≡ ranged (fields item) }
{
    let kind = item.kind();
    kind == Kind::Regular || kind == Kind::Preallocated
}

fn range_sound(item: Item) -> bool
    ensures { result ≡ range_sound (fields item) }
{
    let length = item.length();
    1 <= length
        && sum_at_most(item.key, length, 9223372036854775808)
        && item.position().checked_add(length).is_some()
}

fn item_sound(file: u64, item: Item) -> bool
    ensures { result ≡ item_sound file (fields item) }
{
    item.file == file && item.key_type == 108 && (!is_ranged(item) || range_sound(item))
}

// What the check of the order keeps of the records that it has passed: the last one's key, if there was one, and the end of
// the last range.
#[derive(Clone, Copy)]
pub struct Last {
    pub key: Option<u64>,
    pub end: u64,
}

impl Last {
    // Before the first record.
    pub const BEGIN: Last = Last { key: None, end: 0 };
}

fn follows(last: Last, item: Item) -> bool
    ensures { result ≡ follows last (fields item) }
{
    last.key.is_none_or(|key| key < item.key) && (!is_ranged(item) || last.end <= item.key)
}

// Refusal 2 of an item behind what was passed.
pub fn turn(file: u64, last: Last, item: Item) -> Result<(), Refusal>
    ensures { why result ≡ turn file last (fields item) }
{
    check(
        item_sound(file, item) && follows(last, item),
        Refusal::NotKept,
    )
}

// The state after an item that the turn accepted.
pub fn next(file: u64, last: Last, item: Item) -> Last
    requires { turn file last (fields item) ≡ 0 }
    ensures { result ≡ next last (fields item) }
{
    let key = Some(item.key);
    if is_ranged(item) {
        let end = item.key + item.length();
        Last { key, end }
    } else {
        Last { key, end: last.end }
    }
}

// Refusal 2: a list that is not well kept, sectors aside.
#[tactic(auto, unfolding(records::specs::Raw::sieve, records::specs::Stages::first))]
pub fn list_refusal(list: &[u8], file: u64) -> Result<(), Refusal>
    ensures { why result ≡ unless (list_kept file (items list.now)) 2 }
{
    let mut last = Last::BEGIN;
    for item in item::items(list) {
        turn(file, last, item)?;
        last = next(file, last, item);
    }
    Ok(())
}

// How far a number is past a whole sector. The usual sector stands as a constant, which the compiler needs no division for.
fn past_sector(x: u64, sector: u64) -> u64
    requires { 0 < sector }
    ensures { result ≡ x % sector }
{
    if sector == 4096 { x % 4096 } else { x % sector }
}

// Whether an item of kind 1 or 2 has a key and a length of whole sectors.
pub fn is_whole(item: Item, sector: u64) -> bool
    requires { 0 < sector }
    ensures { result ≡ whole_sectors sector (fields item) }
{
    let length = item.length();
    !is_ranged(item) || (past_sector(item.key, sector) == 0 && past_sector(length, sector) == 0)
}

// Refusal 4 of a list: a key or length of kind 1 or 2 that is not whole sectors.
#[tactic(auto, unfolding(records::specs::Stages::every))]
pub fn sectors_refusal(list: &[u8], sector: u64) -> Result<(), Refusal>
    requires { 0 < sector }
    ensures { why result ≡ unless (every (whole_sectors sector) (items list.now)) 4 }
{
    for item in item::items(list) {
        check(is_whole(item, sector), Refusal::Sector)?;
    }
    Ok(())
}

// Refusals 7, 8 and 9 of one record.
pub fn record_refusal(item: Item) -> Result<(), Refusal>
    ensures { why result ≡ record_refusal (fields item) }
{
    let kind = item.kind();
    check(kind != Kind::Inline, Refusal::Inline)?;
    check(kind != Kind::Other, Refusal::Kind)?;
    check(
        item.encryption() == 0 && item.other() == 0,
        Refusal::Encoded,
    )
}

// Refusals 7, 8 and 9, record by record. A loop of its own, as `clone_span::destination_records` is: one function over the test, or
// `try_for_each`, wants of each caller a proof of what its test answers at every call; the loop's invariant is one equation.
pub fn records_refusal(list: &[u8]) -> Result<(), Refusal>
    ensures { why result ≡ stage record_refusal (items list.now) }
{
    for item in item::items(list) {
        record_refusal(item)?;
    }
    Ok(())
}
