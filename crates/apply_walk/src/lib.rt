// The list after a plan's edits, walked record by record with nothing stored or written: how long it is, and whether it is
// well kept.
#![tactic(auto)]

pub mod walk;

ghost use Rattle.std.specs.Prelude.{◌≡◌, Bool, ◌<◌, length};
ghost use Rattle.records.specs.Records.{records};
ghost use Rattle.records.specs.Refusals.{why};
ghost use Rattle.records.specs.Stages.{unless, every, pairs};
ghost use Rattle.item.specs.Items.{fields};
ghost use Rattle.apply_def.specs.Apply.{edits_rise};
ghost use Rattle.plan_def.specs.ReadBack.{edits_in};
ghost use Rattle.apply_def.specs.Lent.{tag_sound};
ghost use Rattle.apply_walk.specs.Checks.{items_now, edits_sized, result_turn, result_sound};

use item::Item;
use lists::Last;
use records::refusal::{Refusal, check};
pub use walk::{Edited, Origin, Step, Walk};

// ---- edits

// Whether each edit is a put or a delete.
fn are_tagged(edits: &[u8]) -> bool
    ensures { result ≡ every (λ (b : Bool). b) (records tag_sound 71 edits.now) }
{
    let (lines, _) = edits.as_chunks::<{ item::EDIT }>();
    lines.iter().all(|edit| edit[0] == 1 || edit[0] == 2)
}

// Refusal 1 of edits: broken length, or neither put nor delete.
pub fn edits_size_refusal(edits: &[u8]) -> Result<(), Refusal>
    ensures { why result ≡ unless (edits_sized edits.now) 1 }
{
    check(
        edits.len() % item::EDIT == 0 && are_tagged(edits),
        Refusal::Broken,
    )
}

// Whether each edit's key is below the next one's.
fn are_rising(edits: &[u8]) -> bool
    ensures { result ≡ pairs edits_rise (edits_in edits.now) }
{
    let (lines, _) = edits.as_chunks::<{ item::EDIT }>();
    lines.is_sorted_by(|a, b| plan_lines::edit_item(a, 0).key < plan_lines::edit_item(b, 0).key)
}

// Refusal 2 of edits that do not rise by key.
pub fn edits_order_refusal(edits: &[u8]) -> Result<(), Refusal>
    ensures { why result ≡ unless (pairs edits_rise (edits_in edits.now)) 2 }
{
    check(are_rising(edits), Refusal::NotKept)
}

// ---- the result

// Refusal 2 of a record of the result behind what was passed.
#[tactic(auto, unfolding(records::specs::Stages::first))]
fn record_refusal(number: u64, sector: u64, last: Last, item: Item) -> Result<(), Refusal>
    requires { 0 < sector }
    ensures { why result ≡ result_turn number sector last (fields item) }
{
    lists::turn(number, last, item)?;
    check(lists::is_whole(item, sector), Refusal::NotKept)
}

impl<'a> Edited<'a> {
    // How many records the result has.
    pub fn length(self) -> usize
        ensures { result ≡ length (items_now self.entry.list.now self.entry.edits.now) }
    {
        self.walk().count()
    }

    // Refusal 2 of the result: not well kept, or not of whole sectors.
    #[tactic(auto, unfolding(records::specs::Raw::sieve, records::specs::Stages::first))]
    pub fn refusal(self, number: u64, sector: u64) -> Result<(), Refusal>
        requires { 0 < sector }
        ensures { why result ≡ unless (result_sound number sector (items_now self.entry.list.now self.entry.edits.now)) 2 }
    {
        let mut last = Last::BEGIN;
        for item in self.walk() {
            record_refusal(number, sector, last, item)?;
            last = lists::next(number, last, item);
        }
        Ok(())
    }
}
