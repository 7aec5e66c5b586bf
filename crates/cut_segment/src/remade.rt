// A list with a segment of it made anew: its four parts, to be read.

ghost use Rattle.std.specs.Prelude.{◌≡◌, take, drop};
ghost use Rattle.item.specs.Items.{items};
ghost use Rattle.cut_segment.specs.Segments.{Good};

use crate::{Running, Segment, records_in};
use item::RECORD;

// The list, the buffer with what is made, and which records make way for how many of the buffer's.
#[derive(Clone, Copy)]
pub struct Remade<'a> {
    pub list: Running<'a>,
    pub buffer: &'a [u8],
    pub segment: Segment,
    ghost good: { Good list.records.now segment buffer.now },
}

impl<'a> Remade<'a> {
    ghost use Rattle.cut_segment.specs.Remade.{taken_of, made_of};

    // The records in front of those that make way.
    pub fn before(self) -> &'a [u8]
        ensures { items result.now ≡ take self.entry.segment.from (items self.entry.list.records.now) }
    {
        records_in(self.list.records, 0, self.segment.from)
    }

    // Those that make way.
    pub fn taken(self) -> &'a [u8]
        ensures { items result.now ≡ taken_of self.entry }
    {
        records_in(self.list.records, self.segment.from, self.segment.to)
    }

    // Those that are made in their place.
    pub fn made(self) -> &'a [u8]
        ensures { items result.now ≡ made_of self.entry }
    {
        records_in(self.buffer, 0, self.segment.count)
    }

    // The records behind.
    pub fn behind(self) -> &'a [u8]
        ensures { items result.now ≡ drop self.entry.segment.to (items self.entry.list.records.now) }
    {
        let list = self.list.records;
        records_in(list, self.segment.to, list.len() / RECORD)
    }
}
