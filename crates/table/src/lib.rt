// The lent table of extents: its rows, the search for one, and `window_inside_extent`.
#![tactic(auto)]

pub mod reader;

ghost use Rattle.std.specs.Prelude.{◌≡◌, true, ◌+◌, ◌*◌, ◌≤◌, length, drop};
ghost use Rattle.records.specs.Refusals.{why};
ghost use Rattle.records.specs.Stages.{unless};
ghost use Rattle.item.specs.Items.{fields};
ghost use Rattle.table.specs.Rows.{row_of, rows, table_kept, find, one_more_reference};
ghost use Rattle.table.specs.Windows.{window_inside, window_sound};
ghost use Rattle.table.specs.Raw.{row_at, row_refusal, table_sized};

use item::Item;
pub use reader::{Reader, reader_at, rows};
use records::refusal::{Refusal, check, size_refusal};

// An extent: where it lies, how many items name it, the generation that made it, and whether its references are
// kept as items of their own.
#[derive(Clone, Copy)]
pub struct Row {
    pub start: u64,
    pub length: u64,
    pub references: u64,
    pub made: u64,
    pub keyed: u64,
}

// The numbers of a row.
pub const WIDTH: usize = 5;

// A table that passed refusal 3: its rows are as they should be, and rise.
#[derive(Clone, Copy)]
pub struct Table<'a> {
    pub numbers: &'a [u64],
    ghost kept: { table_kept (rows numbers.now) ≡ true },
}

// The row at place `at` of a table.
fn row_in(table: &[u64], at: usize) -> Row
    requires { at + 5 ≤ length table.now }
    ensures { result ≡ row_at table.now at }
{
    Row {
        start: table[at],
        length: table[at + 1],
        references: table[at + 2],
        made: table[at + 3],
        keyed: table[at + 4],
    }
}

// Row n of a table.
pub fn row_at(table: &[u64], n: usize) -> Row
    requires { n * 5 + 5 ≤ length table.now }
    ensures { result ≡ row_of (drop (n * 5) table.now) }
{
    row_in(table, n * WIDTH)
}

// Refusal 1 of a table: broken length, or over-long.
pub fn table_size_refusal(table: &[u64]) -> Result<(), Refusal>
    ensures { why result ≡ unless (table_sized table.now) 1 }
{
    size_refusal(table.len(), WIDTH)
}

// Refusal 3 of one row: one that starts before `from`, has no length, ends outside 64 bits, or is not keyed by 0 or 1.
fn row_refusal(from: u64, row: Row) -> Result<(), Refusal>
    ensures { why result ≡ row_refusal from row }
{
    check(
        from <= row.start
            && row.length != 0
            && row.start.checked_add(row.length).is_some()
            && row.keyed <= 1,
        Refusal::Table,
    )
}

// Refusal 3: a table that is not as it should be. `from` is where the row before ends; 1 before the first, since no row
// starts at 0.
#[tactic(auto, unfolding(records::specs::Raw::sieve, records::specs::Stages::first))]
pub fn table_refusal(table: &[u64]) -> Result<(), Refusal>
    ensures { why result ≡ unless (table_kept (rows table.now)) 3 }
{
    let mut from: u64 = 1;
    for row in rows(table) {
        row_refusal(from, row)?;
        from = row.start + row.length;
    }
    Ok(())
}

impl<'a> Table<'a> {
    // The row that starts at `start`, with its number, by halves; or none, for which refusal 14 is due.
    // The library's `partition_point` over `as_chunks` was tried, and proved: it takes 15 to 25 % more time, since it does not stop
    // at the row that it finds.
    pub fn find_row(self, start: u64) -> Option<(usize, Row)>
        ensures { result ≡ find start (rows self.entry.numbers.now) }
    {
        let table = self.numbers;
        let mut lo = 0;
        let mut hi = table.len() / WIDTH;
        while lo < hi {
            let mid = lo + (hi - lo) / 2;
            let s = table[mid * WIDTH];
            if s == start {
                return Some((mid, row_at(table, mid)));
            }
            if s < start {
                lo = mid + 1;
            } else {
                hi = mid;
            }
        }
        None
    }

    // Refusals 14 and 15 of one more reference to the extent at `start`.
    pub fn one_more_reference(self, start: u64) -> Result<(), Refusal>
        ensures { why result ≡ one_more_reference start (rows self.entry.numbers.now) }
    {
        let Some((_, row)) = self.find_row(start) else {
            return Err(Refusal::NoRow);
        };
        check(row.keyed == 0, Refusal::Keyed)
    }
}

// Whether [logical, logical + len) lies inside the extent: the port's own signature.
pub fn window_inside_extent(logical: u64, len: u64, extent_start: u64, extent_len: u64) -> bool
    ensures { result ≡ window_inside logical len extent_start extent_len }
{
    let (Some(end), Some(extent_end)) = (
        logical.checked_add(len),
        extent_start.checked_add(extent_len),
    ) else {
        return false;
    };
    extent_start <= logical && end <= extent_end
}

// The same of an item's window, whose start may leave 64 bits.
pub fn item_window_inside(bytenr: u64, position: u64, len: u64, extent_len: u64) -> bool
    ensures { result ≡ window_inside (bytenr + position) len bytenr extent_len }
{
    let Some(logical) = bytenr.checked_add(position) else {
        return false;
    };
    window_inside_extent(logical, len, bytenr, extent_len)
}

// Whether an item's window lies inside the extent, if it is not compressed.
pub fn window_sound(item: Item, row: Row) -> bool
    ensures { result ≡ window_sound (fields item) row }
{
    item.compression() != 0
        || item_window_inside(
            item.extent_start(),
            item.position(),
            item.length(),
            row.length,
        )
}
