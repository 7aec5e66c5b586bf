// A reader walks a lent list from record to record: `for item in items(list)`.

ghost use Rattle.std.specs.Prelude.{◌≡◌, ◌+◌, ◌*◌, ◌^◌, ◌<◌, ◌≤◌, length, drop};
ghost use Rattle.std.specs.Iterator.{YieldsFirstBy, item_count};
ghost use Rattle.item.specs.Items.{fields, item_of, items};
ghost use Rattle.item.specs.Reading.{left};

use crate::{Item, RECORD, item_at};

// The list, and the number of the record that is read next.
#[derive(Clone, Copy)]
pub struct Reader<'a> {
    pub list: &'a [u8],
    pub number: usize,
}

// A reader at a record.
pub fn reader_at<'a>(list: &'a [u8], number: usize) -> Reader<'a>
    ensures { (result.list ≡ list.entry) × (result.number ≡ number) }
{
    Reader { list, number }
}

// The items of a list, from the first record on.
pub fn items<'a>(list: &'a [u8]) -> Reader<'a>
    ensures { (result.list ≡ list.entry) × (left result ≡ items list.now) }
{
    reader_at(list, 0)
}

impl<'a> Reader<'a> {
    // The record that it stands at.
    pub fn read(self) -> Item
        requires { self.number * 70 + 70 ≤ length self.list.now }
        ensures { result ≡ item_of (drop (self.entry.number * 70) self.entry.list.now) }
    {
        item_at(self.list, self.number)
    }

    // The reader at the record after it.
    pub fn advance(self) -> Reader<'a>
        requires { self.number + 1 < 2 ^ 64 }
        ensures { (result.list ≡ self.entry.list) × (result.number ≡ self.entry.number + 1) }
    {
        Reader {
            list: self.list,
            number: self.number + 1,
        }
    }
}

impl<'a> Iterator for Reader<'a> {
    type Item = Item;

    ghost next_gives = { YieldsFirstBy fields left };

    ghost remaining = { item_count left };

    fn next(&mut self) -> Option<Item> {
        if self.number >= self.list.len() / RECORD {
            return None;
        }
        let item = self.read();
        *self = self.advance();
        Some(item)
    }
}
