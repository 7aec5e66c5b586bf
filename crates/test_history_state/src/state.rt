// The volume that the history runs on, and what is counted.
use crate::sectors::bytes_in;
use item::{Item, RECORD};
use table::WIDTH;

pub const FILES: usize = 4;

// Room for 32 records of each file, and for 48 rows.
pub const RECORDS: usize = 32;

pub const LIST: usize = 2240;

pub const ROWS: usize = 48;

pub const TABLE: usize = 240;

// A sector is 2^shift bytes; `taken` is the number of places that were taken.
#[derive(Clone, Copy, PartialEq, Eq)]
pub struct State {
    pub generation: u64,
    pub shift: u32,
    pub taken: u64,
    pub sizes: [u64; FILES],
    pub items: [usize; FILES],
    pub rows: usize,
    pub lists: [[u8; LIST]; FILES],
    pub table: [u64; TABLE],
}

// What a round counts, then what all rounds count: lines of applied plans (edits, shares, unrefs, releases, adds, writes), and refusals
// by number.
#[derive(Clone, Copy)]
pub struct Counts {
    pub applied: u64,
    pub no_room: u64,
    pub nothings: u64,
    pub refusals: u64,
    pub taken_back: u64,
    pub lines: [u64; 6],
    pub by_number: [u64; 27],
}

impl Counts {
    pub fn new() -> Counts {
        Counts {
            applied: 0,
            no_room: 0,
            nothings: 0,
            refusals: 0,
            taken_back: 0,
            lines: [0; 6],
            by_number: [0; 27],
        }
    }

    // A round's counts, from 0.
    pub fn begin(&mut self) {
        *self = Counts {
            lines: self.lines,
            by_number: self.by_number,
            ..Counts::new()
        };
    }
}

pub fn file_number(f: usize) -> u64 {
    if f < FILES { 257 + f as u64 } else { 0 }
}

// The first n elements, or all.
pub fn lead<T>(a: &[T], n: usize) -> &[T] {
    if n <= a.len() { &a[..n] } else { a }
}

impl State {
    pub fn size(&self, f: usize) -> u64 {
        self.sizes.get(f).copied().unwrap_or(0)
    }

    pub fn sector(&self) -> u64 {
        bytes_in(1, self.shift)
    }

    pub fn item_count(&self, f: usize) -> usize {
        self.items.get(f).copied().unwrap_or(0)
    }

    // A file's list.
    pub fn list(&self, f: usize) -> &[u8] {
        match self.lists.get(f) {
            Some(list) => lead(list, self.item_count(f).wrapping_mul(RECORD)),
            None => &[],
        }
    }

    // The rows that there are.
    pub fn rows(&self) -> &[u64] {
        lead(&self.table, self.rows.wrapping_mul(WIDTH))
    }
}

// The extent that an item names, if it names one.
pub fn named(item: Item) -> Option<u64> {
    let start = item.extent_start();
    if start != 0 && lists::is_ranged(item) {
        Some(start)
    } else {
        None
    }
}
