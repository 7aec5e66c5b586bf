// The source items of a clone: what refuses them (`source_records`), and their copies (`clone_item`).
#![tactic(auto, unfolding(records::specs::Stages::first, records::specs::Stages::first_of, records::specs::Stages::stage, records::specs::Stages::every))]

ghost use Rattle.std.specs.Prelude.{true, ◌≡◌};
ghost use Rattle.records.specs.Refusals.{why};
ghost use Rattle.records.specs.Stages.{stage, every};
ghost use Rattle.item.specs.Items.{fields, items};
ghost use Rattle.table.specs.Rows.{rows};
ghost use Rattle.clone_items.specs.Copies.{overlaps, clone_item, source_record, copied};
ghost use Rattle.clone_items.specs.Raw.{InFiles, Copyable, range_kept, copy_refusal, overlap_refusal};

use item::{Item, Kind};
use records::refusal::{Refusal, check};
use records::sum_past;
use table::Table;

// What is copied: `span` bytes from offset `from` of the source to offset `to` of the file of this number.
#[derive(Clone, Copy)]
pub struct Copying {
    pub number: u64,
    pub from: u64,
    pub to: u64,
    pub span: u64,
}

// A copying of ranges that lie in files: both end at most at 2^63.
#[derive(Clone, Copy)]
pub struct FileCopying {
    pub range: Copying,
    ghost in_files: { InFiles range },
}

impl Copying {
    // Whether an item overlaps the range that is read.
    fn is_overlapping(self, item: Item) -> bool
        ensures { result ≡ overlaps self (fields item) }
    {
        sum_past(item.key, item.length(), self.from) && sum_past(self.from, self.span, item.key)
    }

    // Whether an item is copied: not inline, overlapping, no hole.
    pub fn is_copied(self, item: Item) -> bool
        ensures { result ≡ copied self (fields item) }
    {
        item.kind() != Kind::Inline && self.is_overlapping(item) && !cut_def::is_hole(item)
    }
}

// Refusals 14, 17 and 15 of a copy: no row, a window outside its extent, keyed references.
fn copy_refusal(table: Table, item: Item) -> Result<(), Refusal>
    ensures { why result ≡ copy_refusal (rows table.entry.numbers.now) (fields item) }
{
    let Some((_, row)) = table.find_row(item.extent_start()) else {
        return Err(Refusal::NoRow);
    };
    check(table::window_sound(item, row), Refusal::Window)?;
    check(row.keyed == 0, Refusal::Keyed)
}

impl FileCopying {
    // The copy of an item that overlaps: trimmed to the range, and moved into the destination.
    pub fn clone_item(self, item: Item) -> Item
        requires { Copyable self.range (fields item) }
        ensures { fields result ≡ clone_item self.range (fields item) }
    {
        let c = self.range;
        let start = item.key.max(c.from);
        let stop = (item.key + item.length()).min(c.from + c.span);
        item.windowed(
            c.number,
            c.to + (start - c.from),
            item.position() + (start - item.key),
            stop - start,
        )
    }

    // Refusals 9, 14, 17 and 15 of a source item that overlaps; only 9 of a hole.
    fn overlap_refusal(self, table: Table, item: Item) -> Result<(), Refusal>
        requires { Copyable self.range (fields item) }
        ensures { why result ≡ overlap_refusal (rows table.entry.numbers.now) self.range (fields item) }
    {
        check(
            item.encryption() == 0 && item.other() == 0,
            Refusal::Encoded,
        )?;
        if cut_def::is_hole(item) {
            return Ok(());
        }
        copy_refusal(table, self.clone_item(item))
    }

    // The refusal of a source record: 7 of an inline one read from offset 0, 8, and what is refused of one that overlaps.
    fn source_record(self, table: Table, item: Item) -> Result<(), Refusal>
        requires { range_kept (fields item) ≡ true }
        ensures { why result ≡ source_record (rows table.entry.numbers.now) self.range (fields item) }
    {
        let c = self.range;
        match item.kind() {
            Kind::Inline => check(c.from != 0, Refusal::Inline),
            Kind::Other => Err(Refusal::Kind),
            _ if !c.is_overlapping(item) => Ok(()),
            _ => self.overlap_refusal(table, item),
        }
    }

    // The refusals of the source records, record by record.
    pub fn source_records(self, table: Table, list: &[u8]) -> Result<(), Refusal>
        requires { every range_kept (items list.now) ≡ true }
        ensures { why result ≡ stage (source_record (rows table.entry.numbers.now) self.range) (items list.now) }
    {
        for item in item::items(list) {
            self.source_record(table, item)?;
        }
        Ok(())
    }
}
