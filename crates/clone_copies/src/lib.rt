// What a clone lays over its outputs for its copies: their shares, their bytes, and the edits, a merge of the old items with
// the copies and what the cut leaves. The copies are not stored: they are made from the source list as they are wanted.
#![tactic(auto)]

ghost use Rattle.std.specs.Prelude.{◌≡◌, true, false, map, position, ◌+◌, ◌/◌, ◌≤◌, ◌<◌, ◌^◌, length};
ghost use Rattle.std.specs.Option.{MatchOption};
ghost use Rattle.records.specs.Lent.{old, new};
ghost use Rattle.records.specs.Stages.{every, pairs};
ghost use Rattle.item.specs.Items.{fields, items};
ghost use Rattle.lists.specs.Lists.{rises};
ghost use Rattle.cut_def.specs.Pieces.{items_of, counted_bytes};
ghost use Rattle.cut_def.specs.Refs.{ref_of};
ghost use Rattle.cut_def.specs.Edits.{edits};
ghost use Rattle.plan_def.specs.Outputs.{edit_bytes, ref_numbers};
ghost use Rattle.plan_lines.specs.Lines.{Laid};
ghost use Rattle.edit_merge.specs.Merge.{from, together};
ghost use Rattle.clone_items.specs.Copies.{clone_item, copied, clones};
ghost use Rattle.clone_copies.specs.Walk.{leads, copy_sound, Settled, Sought, LeadingCopy, IsNext, Ready, Stepped};

use clone_items::FileCopying;
use edit_merge::{MergeCursor, Next};
use item::Item;

// The copies of a source's items; an item that is copied has a sound range.
#[derive(Clone, Copy)]
pub struct Copies<'a> {
    pub copying: FileCopying,
    pub source: &'a [u8],
    ghost sound: { every (copy_sound copying.range) (items source.now) ≡ true },
}

// Such copies put in among a segment's items, in place of old items; the copies rise, and the old items do.
#[derive(Clone, Copy)]
struct Merge<'a> {
    copies: Copies<'a>,
    segment: &'a [u8],
    was: &'a [u8],
    ghost copies_rise: { pairs rises (clones copies.copying.range (items copies.source.now)) ≡ true },
    ghost olds_rise: { pairs rises (items was.now) ≡ true },
}

impl<'a> Copies<'a> {
    // An item's copy, if it is copied.
    fn copy_of(self, item: Item) -> Option<Item>
        requires { copy_sound self.copying.range (fields item) ≡ true }
        ensures { MatchOption result (copied self.entry.copying.range (fields item) ≡ false)
            (λ copy. (copied self.entry.copying.range (fields item) ≡ true) × (fields copy ≡ clone_item self.entry.copying.range (fields item))) }
    {
        if !self.copying.range.is_copied(item) {
            return None;
        }
        Some(self.copying.clone_item(item))
    }

    // The shares of all copies, in the source's order.
    pub fn put_refs(self, out: &mut [u64], n: usize) -> usize
        requires { n + length (items self.source.now) < 2 ^ 64 }
        ensures { Laid ref_numbers 2 n (map ref_of (clones self.entry.copying.range (items self.entry.source.now))) out.old result out.new }
    {
        let mut m = n;
        for item in item::items(self.source) {
            if let Some(copy) = self.copy_of(item) {
                m = plan_lines::put_ref(out, m, copy.extent_start(), copy.reference());
            }
        }
        m
    }

    // The bytes of all copies.
    pub fn bytes(self) -> u64
        requires { counted_bytes (clones self.copying.range (items self.source.now)) < 2 ^ 64 }
        ensures { result ≡ counted_bytes (clones self.entry.copying.range (items self.entry.source.now)) }
    {
        let mut sum = 0;
        for item in item::items(self.source) {
            if let Some(copy) = self.copy_of(item) {
                sum += copy.length();
            }
        }
        sum
    }

    // How far behind record k the first is that is copied.
    fn distance(self, k: usize) -> Option<usize>
        ensures { result ≡ position (copied self.entry.copying.range) (from self.entry.source.now k) }
    {
        let c = self.copying.range;
        item::reader_at(self.source, k).position(|item| c.is_copied(item))
    }

    // The first record, from k on, that is copied; the number of records where there is none.
    fn next_copied(self, k: usize) -> usize
        requires { k ≤ length self.source.now / 70 }
        ensures { Sought self.entry.copying.range self.entry.source.now k result }
    {
        match self.distance(k) {
            Some(d) => k + d,
            None => self.source.len() / item::RECORD,
        }
    }

    // The edits that turn a part of a file's list into a segment with the copies among it: by rising keys, a put of each new
    // item, and a delete of each old key that none of them has.
    pub fn put_edits(self, segment: &[u8], was: &[u8], out: &mut [u8]) -> usize
        requires { (pairs rises (clones self.copying.range (items self.source.now)) ≡ true) × (pairs rises (items was.now) ≡ true)
            × (pairs rises (items_of (together (clones self.copying.range (items self.source.now)) (items segment.now))) ≡ true)
            × (length (items was.now) + length (items segment.now) + length (items self.source.now) < 2 ^ 64) }
        ensures { Laid (edit_bytes self.entry.copying.range.number) 71 0 (edits (items was.now) (together (clones self.entry.copying.range (items self.entry.source.now)) (items segment.now))) out.old result out.new }
    {
        Merge {
            copies: self,
            segment,
            was,
        }
        .put_edits(out)
    }
}

// Whether a key comes before all items left in the segment.
fn is_leading(segment: &[u8], j: usize, key: u64) -> bool
    ensures { result ≡ leads key (from segment.now j) }
{
    item::reader_at(segment, j)
        .next()
        .is_none_or(|g| key < g.key)
}

impl<'a> Merge<'a> {
    // The next copy, of record k, where it comes before all items left in the segment.
    fn leading_copy(self, j: usize, k: usize) -> Option<Item>
        requires { Settled self.copies.copying.range self.copies.source.now k }
        ensures { LeadingCopy self.entry.copies.copying.range self.entry.copies.source.now self.entry.segment.now j k result }
    {
        let item = item::reader_at(self.copies.source, k).next()?;
        let copy = self.copies.copying.clone_item(item);
        is_leading(self.segment, j, copy.key).then_some(copy)
    }

    // The next new item: the next copy or the segment's next item, whichever has the lower key.
    fn next_new(self, j: usize, k: usize) -> Option<Next>
        requires { (j ≤ length self.segment.now / 70) × Settled self.copies.copying.range self.copies.source.now k }
        ensures { IsNext self.entry.copies.copying.range self.entry.copies.source.now self.entry.segment.now j k result }
    {
        if let Some(item) = self.leading_copy(j, k) {
            let next = self.copies.next_copied(k + 1);
            return Some(Next { item, j, k: next });
        }
        edit_merge::segment_next(self.segment, j, k)
    }

    // The next edit: a delete of an old key that no new item has, or a put of the next new item.
    fn step(self, at: MergeCursor, out: &mut [u8]) -> MergeCursor
        requires { Ready self.copies.copying.range self.copies.source.now self.segment.now self.was.now at }
        ensures { Stepped self.entry.copies.copying.range self.entry.copies.source.now self.entry.segment.now self.entry.was.now at out.old result out.new }
    {
        let next = self.next_new(at.j, at.k);
        edit_merge::put_next(self.was, at, next, self.copies.copying.range.number, out)
    }

    // All edits.
    fn put_edits(self, out: &mut [u8]) -> usize
        requires { (pairs rises (items_of (together (clones self.copies.copying.range (items self.copies.source.now)) (items self.segment.now))) ≡ true)
            × (length (items self.was.now) + length (items self.segment.now) + length (items self.copies.source.now) < 2 ^ 64) }
        ensures { Laid (edit_bytes self.entry.copies.copying.range.number) 71 0
            (edits (items self.entry.was.now) (together (clones self.entry.copies.copying.range (items self.entry.copies.source.now)) (items self.entry.segment.now))) out.old result out.new }
    {
        let copies = self.copies;
        let end = self.was.len() / item::RECORD
            + (self.segment.len() / item::RECORD + copies.source.len() / item::RECORD);
        let mut at = MergeCursor {
            i: 0,
            j: 0,
            k: copies.next_copied(0),
            n: 0,
        };
        // By a cursor over three lists: none of them leads, so that a `for` could go along it.
        while at.i + (at.j + at.k) < end {
            at = self.step(at, out);
        }
        at.n
    }
}
