// What a case lends, the file of the worked examples and its neighbours, and the run of a case. The outputs are filled
// with 165 first: what is past the plan must still be 165.
ghost use Rattle.std.specs.Prelude.{◌≡◌, ◌+◌, ◌≤◌, length};

use crate::print::{self, BLANK};
use item::Item;
use plan_def::Outputs;
use request::{File, Lent, Range, Volume};
use std::io;
use test_call::Operation;

// ---- the file of the worked examples

pub const VOLUME: Volume = Volume {
    sector: 4096,
    total: 1073741824,
    generation: 7,
    snapshot: 0,
};

pub const LAST_GENERATION: Volume = Volume {
    generation: u64::MAX,
    ..VOLUME
};

pub fn file(size: u64) -> File {
    File {
        number: 257,
        size,
        nodatacow: false,
    }
}

pub fn range(offset: u64, length: u64) -> Range {
    Range { offset, length }
}

// The lowest w bytes of a number over an item's data.
fn with(data: [u8; 53], at: usize, w: usize, v: u64) -> [u8; 53]
    requires { at + w ≤ 53 }
{
    let mut d = data;
    endian::put_num(&mut d, at, w, v);
    d
}

// An item of file 257; generation and ram bytes are 0.
pub fn item(key: u64, kind: u64, start: u64, length: u64, position: u64, window: u64) -> Item {
    let kinded = with([0u8; 53], Item::TYPE, 1, kind);
    let started = with(kinded, Item::DISK_BYTENR, 8, start);
    let sized = with(started, Item::DISK_NUM_BYTES, 8, length);
    let placed = with(sized, Item::OFFSET, 8, position);
    let data = with(placed, Item::NUM_BYTES, 8, window);
    Item {
        file: 257,
        key_type: 108,
        key,
        data,
    }
}

// Items as a list of N bytes; those that find no room are left out.
pub fn list<const N: usize>(items: &[Item]) -> [u8; N] {
    let mut list = [0u8; N];
    for (record, item) in list.chunks_exact_mut(item::RECORD).zip(items) {
        item::put_item(record, 0, *item);
    }
    list
}

// The file's one item, as a list; a hole where its extent starts at 0.
pub fn list_of(kind: u64, start: u64) -> [u8; 70]
    ensures { 70 ≡ length result }
{
    list(&[item(0, kind, start, 16384, 0, 16384)])
}

// The row of its extent: start, length, references, generation made, keyed.
pub fn row(bytes: u64, keyed: u64) -> [u64; 5]
    ensures { 5 ≡ length result }
{
    [1048576, bytes, 1, 5, keyed]
}

// ---- a case

// An operation, all that it is lent, and how many bytes of room there are for edits and numbers for adds.
#[derive(Clone, Copy)]
pub struct Case<'a> {
    pub operation: Operation,
    pub volume: Volume,
    pub file: File,
    pub range: Range,
    pub list: &'a [u8],
    pub shared: &'a [u8],
    pub table: &'a [u64],
    pub places: &'a [u64],
    pub edits: usize,
    pub adds: usize,
}

// The first n elements, or all.
pub fn room<T>(out: &mut [T], n: usize) -> &mut [T] {
    let n = n.min(out.len());
    &mut out[..n]
}

// Runs the operation and prints its answer and outputs.
pub fn run(rt: &impl Print, name: &str, c: Case<'_>) -> io::Result<()> {
    let mut edits = [BLANK; 426];
    let mut shares = [BLANK as u64; 8];
    let mut unrefs = [BLANK as u64; 8];
    let mut releases = [BLANK as u64; 8];
    let mut adds = [BLANK as u64; 18];
    let mut writes = [BLANK as u64; 8];
    let lent = Lent {
        volume: c.volume,
        file: c.file,
        list: c.list,
        shared: c.shared,
        table: c.table,
    };
    let mut out = Outputs {
        edits: room(&mut edits, c.edits),
        shares: &mut shares,
        unrefs: &mut unrefs,
        releases: &mut releases,
        adds: room(&mut adds, c.adds),
        writes: &mut writes,
    };
    let answer = test_call::answer_of(c.operation, lent, c.range, c.places, &mut out);
    print!(rt; "{name}")?;
    print::answer(rt, answer)?;
    print::outputs(rt, answer, &out)
}
