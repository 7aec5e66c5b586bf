// The next call, drawn at random: which operation, on which file and range, and what else it is lent. Ranges are biased to
// sector boundaries and stay in the first 64 sectors of a file, or are refused for their end.
use crate::draws::{draw, once_in};
use crate::sectors::{bytes_in, sectors_in};
use crate::state::{self, FILES, State};
use clone_span::CloneRange;
use request::{File, Range, Volume};

#[derive(Clone, Copy, PartialEq, Eq)]
pub enum Operation {
    Punch,
    Fallocate,
    FallocateKeep,
    Clone,
}

// An operation on `length` bytes of a file from `to` on; a clone's come from `from` on in the file `source`.
#[derive(Clone, Copy)]
pub struct Call {
    pub operation: Operation,
    pub file: usize,
    pub source: usize,
    pub from: u64,
    pub to: u64,
    pub length: u64,
}

// Bytes past a sector's start: mostly none, one, or all but one.
fn within(x: u64, name: u64, sector: u64) -> u64 {
    match draw(x, name, 8) {
        0 => 1,
        1 => sector.wrapping_sub(1),
        2 => draw(x, name.wrapping_add(1), sector),
        _ => 0,
    }
}

// Some number of sectors below n, and some bytes; three draws.
fn stretch(x: u64, name: u64, shift: u32, n: u64) -> u64 {
    let whole = bytes_in(draw(x, name, n), shift);
    whole.wrapping_add(within(x, name.wrapping_add(1), bytes_in(1, shift)))
}

// A length: one time in three less than a sector, now and then 0.
fn some_bytes(x: u64, shift: u32) -> u64 {
    let sector = bytes_in(1, shift);
    let n = if once_in(x, 29, 3) {
        draw(x, 30, sector)
    } else {
        let most = if once_in(x, 26, 8) { 64 } else { 7 };
        stretch(x, 23, shift, most)
    };
    if n == 0 && !once_in(x, 27, 8) {
        sector
    } else {
        n
    }
}

// A punch or a fallocate; now and then of a range that ends past 2^63 − 1.
fn ranged(x: u64, shift: u32, operation: Operation, file: usize) -> Call {
    let to = stretch(x, 20, shift, 64);
    let room = bytes_in(64, shift).wrapping_sub(to);
    let far = once_in(x, 28, 64);
    Call {
        operation,
        file,
        source: file,
        from: 0,
        to: if far { i64::MAX as u64 } else { to },
        length: some_bytes(x, shift).min(room),
    }
}

// The length of a clone: some sectors, to the source's end (by 0 or by its number), or sectors and bytes.
fn span_length(x: u64, shift: u32, left: u64) -> u64 {
    match draw(x, 30, 8) {
        0 => 0,
        1 => left,
        2 => stretch(x, 31, shift, 6),
        _ => bytes_in(draw(x, 34, 9).wrapping_add(1), shift),
    }
}

// The same, and mostly not past the source's end.
fn fitted_length(x: u64, shift: u32, left: u64) -> u64 {
    let n = span_length(x, shift, left);
    if once_in(x, 35, 8) { n } else { n.min(left) }
}

// A number of sectors below n in bytes, one time in 32 with a byte more.
fn sectors(x: u64, name: u64, shift: u32, n: u64) -> u64 {
    let more = once_in(x, name.wrapping_add(1), 32) as u64;
    bytes_in(draw(x, name, n), shift).wrapping_add(more)
}

// A clone from a source of this size; within one file one time in two to where the source ends.
fn cloned(x: u64, shift: u32, file: usize, source: usize, size: u64) -> Call {
    let from = sectors(x, 36, shift, sectors_in(size, shift).wrapping_add(1));
    let left = size.wrapping_sub(from);
    let length = fitted_length(x, shift, left);
    let to = if file == source && once_in(x, 47, 2) {
        from.wrapping_add(length)
    } else {
        sectors(x, 38, shift, 64)
    };
    let end = to.wrapping_add(if length == 0 { left } else { length });
    Call {
        operation: Operation::Clone,
        file,
        source,
        from,
        to: if end <= bytes_in(64, shift) { to } else { 0 },
        length,
    }
}

// The call of the turn with this number.
pub fn next_call(x: u64, s: &State) -> Call {
    let file = draw(x, 10, FILES as u64) as usize;
    let other = draw(x, 11, FILES as u64) as usize;
    let source = if once_in(x, 48, 4) { file } else { other };
    match draw(x, 12, 8) {
        0 | 1 | 2 => ranged(x, s.shift, Operation::Punch, file),
        3 => ranged(x, s.shift, Operation::Fallocate, file),
        4 => ranged(x, s.shift, Operation::FallocateKeep, file),
        _ => cloned(x, s.shift, file, source, s.size(source)),
    }
}

// ---- what the call is lent beside it

// Now and then the last generation, a small volume, or a recent snapshot.
fn volume(x: u64, s: &State) -> Volume {
    Volume {
        sector: s.sector(),
        total: if once_in(x, 41, 32) {
            65536
        } else {
            1073741824
        },
        generation: if once_in(x, 42, 128) {
            u64::MAX
        } else {
            s.generation
        },
        snapshot: if once_in(x, 43, 8) {
            s.generation.wrapping_sub(draw(x, 40, 16))
        } else {
            0
        },
    }
}

fn file(x: u64, s: &State, f: usize) -> File {
    File {
        number: state::file_number(f),
        size: s.size(f),
        nodatacow: once_in(x, 44, 8),
    }
}

// A call with all that it is lent but slices.
#[derive(Clone, Copy)]
pub struct Lent {
    pub operation: Operation,
    pub volume: Volume,
    pub dst: File,
    pub src: File,
    pub own: bool,
    pub range: Range,
    pub span: CloneRange,
}

pub fn all_lent(call: Call, x: u64, s: &State) -> Lent {
    Lent {
        operation: call.operation,
        volume: volume(x, s),
        dst: file(x, s, call.file),
        src: file(x, s, call.source),
        own: call.source == call.file,
        range: Range {
            offset: call.to,
            length: call.length,
        },
        span: CloneRange {
            from: call.from,
            to: call.to,
            length: call.length,
        },
    }
}

// One shared byte: mostly 0, now and then 1, or 2, which is refused.
pub fn leaf(x: u64) -> u8 {
    match draw(x, 45, 64) {
        0 => 2,
        1 | 2 | 3 => 1,
        _ => 0,
    }
}

// Whose it is.
pub fn leaf_record(x: u64) -> usize {
    draw(x, 46, 16) as usize
}
