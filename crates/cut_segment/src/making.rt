// A list of which a segment is made anew, in the making: items are put into its buffer.

ghost use Rattle.std.specs.Prelude.{◌≡◌, true, ◌+◌, ◌*◌, ◌<◌, ◌≤◌, length};
ghost use Rattle.item.specs.Items.{fields};
ghost use Rattle.cut_segment.specs.Segments.{item_at, segment_of, leading, starts_by, bounded, Good};

use crate::{Remade, Running, Segment, insert_item, record_at, starting_by};
use item::Item;

// As `Remade`, but that the buffer can be written.
#[derive(Drop)]
pub struct Making<'a> {
    pub list: Running<'a>,
    pub buffer: &'a mut [u8],
    pub segment: Segment,
    ghost good: { Good list.records.now segment buffer.now },
}

impl<'a> Making<'a> {
    ghost use Rattle.cut_segment.specs.Making.{PutIn, Stays};

    // Item n of those that are made.
    pub fn item(&self, n: usize) -> Item
        requires { n < self.now.segment.count }
        ensures { fields result ≡ item_at self.now.buffer.now n }
    {
        record_at(self.buffer, n)
    }

    // How many of them start at most at a key, in front of the first that does not.
    pub fn started_by(&self, key: u64) -> usize
        ensures { result ≡ leading (starts_by key) (segment_of self.now.segment self.now.buffer.now) }
    {
        starting_by(self.buffer, 0, self.segment.count, key)
    }

    // An item put among those that are made, at its key.
    pub fn insert(&mut self, item: Item)
        requires { ((self.old.segment.count + 1) * 70 ≤ length self.old.buffer.now) × (bounded (fields item) ≡ true) }
        ensures put { PutIn (fields item) self.old self.new }
        ensures stays { Stays self.old self.new }
    {
        self.segment = insert_item(self.buffer, self.segment, item);
    }

    // What is made, to be read.
    pub fn read(self) -> Remade<'a>
        ensures { (result.list ≡ self.entry.list) × (result.buffer.now ≡ self.entry.buffer.now) × (result.segment ≡ self.entry.segment) }
    {
        let buffer = self.buffer;
        Remade {
            list: self.list,
            buffer,
            segment: self.segment,
        }
    }
}

impl<'a> Running<'a> {
    ghost use Rattle.cut_segment.specs.Segments.{Cutting};
    ghost use Rattle.cut_segment.specs.Making.{CutFrom};

    // [lo, hi) taken out of a list: the records that it touches make way for the first one's front and the last one's back,
    // in the buffer.
    pub fn cut(self, lo: u64, hi: u64, buffer: &'a mut [u8]) -> Making<'a>
        requires { 140 ≤ length buffer.old }
        ensures { CutFrom lo hi self.entry (length buffer.old) result }
    {
        let segment = self.cut_segment(lo, hi, buffer);
        Making {
            list: self,
            buffer,
            segment,
        }
    }
}
