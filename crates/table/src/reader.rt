// A reader walks a lent table from row to row: `for row in rows(table)`. It is `item::Reader` over numbers in place of bytes: one over
// both would go by a trait that says a record's width, of what numbers it is and what it decodes to, with laws of these for each.

ghost use Rattle.std.specs.Prelude.{◌≡◌, ◌+◌, ◌*◌, ◌^◌, ◌<◌, ◌≤◌, length, drop};
ghost use Rattle.std.specs.Iterator.{YieldsFirst, item_count};
ghost use Rattle.table.specs.Rows.{row_of, rows};
ghost use Rattle.table.specs.Reading.{left};

use crate::{Row, WIDTH, row_at};

// The table, and the number of the row that is read next.
#[derive(Clone, Copy)]
pub struct Reader<'a> {
    pub table: &'a [u64],
    pub number: usize,
}

// A reader at a row.
pub fn reader_at<'a>(table: &'a [u64], number: usize) -> Reader<'a>
    ensures { (result.table ≡ table.entry) × (result.number ≡ number) }
{
    Reader { table, number }
}

// The rows of a table, from the first on.
pub fn rows<'a>(table: &'a [u64]) -> Reader<'a>
    ensures { (result.table ≡ table.entry) × (left result ≡ rows table.now) }
{
    reader_at(table, 0)
}

impl<'a> Reader<'a> {
    // The row that it stands at.
    pub fn read(self) -> Row
        requires { self.number * 5 + 5 ≤ length self.table.now }
        ensures { result ≡ row_of (drop (self.entry.number * 5) self.entry.table.now) }
    {
        row_at(self.table, self.number)
    }

    // The reader at the row after it.
    pub fn advance(self) -> Reader<'a>
        requires { self.number + 1 < 2 ^ 64 }
        ensures { (result.table ≡ self.entry.table) × (result.number ≡ self.entry.number + 1) }
    {
        Reader {
            table: self.table,
            number: self.number + 1,
        }
    }
}

impl<'a> Iterator for Reader<'a> {
    type Item = Row;

    ghost next_gives = { YieldsFirst left };

    ghost remaining = { item_count left };

    fn next(&mut self) -> Option<Row> {
        if self.number >= self.table.len() / WIDTH {
            return None;
        }
        let row = self.read();
        *self = self.advance();
        Some(row)
    }
}
