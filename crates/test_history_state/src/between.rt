// What happens to the volume between calls: a round's start, and what its owner does by itself (data is written, an extent
// becomes keyed). Nothing here changes which extents the items name.
use crate::draws::{draw, once_in};
use crate::sectors::bytes_in;
use crate::state::{self, FILES, State};
use item::{Item, Kind, RECORD};

// ---- a round's start

// A size below 64 sectors, one time in two inside a sector.
fn a_size(x: u64, name: u64, shift: u32) -> u64 {
    let whole = bytes_in(draw(x, name, 63), shift);
    let inside = draw(x, name.wrapping_add(4), bytes_in(1, shift));
    if once_in(x, name.wrapping_add(8), 2) {
        whole.wrapping_add(inside)
    } else {
        whole
    }
}

// One record of the last file: a hole of two sectors.
fn lay_hole(s: &mut State) {
    let hole = Item::regular_extent_item(
        state::file_number(3),
        bytes_in(40, s.shift),
        1,
        0,
        bytes_in(2, s.shift),
    );
    item::put_item(&mut s.lists[3], 0, hole);
}

// Sectors of 4,096 bytes in every second round, else of each size in turn.
fn shift_of(round: u64) -> u32 {
    if round % 2 == 0 {
        12
    } else {
        12 + (round / 2 % 5) as u32
    }
}

// Files without records, of sizes drawn anew, and no rows; in every second round the last file has a hole.
pub fn begin(s: &mut State, round: u64) {
    s.shift = shift_of(round);
    s.rows = 0;
    s.items = [0, 0, 0, (round % 2) as usize];
    for f in 0..FILES {
        s.sizes[f] = a_size(round.wrapping_add(1), f as u64, s.shift);
    }
    lay_hole(s);
}

// ---- between two calls

// The byte of the data of a file's record, at a place of it.
fn data_byte(s: &mut State, f: usize, i: usize, at: usize) -> Option<&mut u8> {
    let place = i.checked_mul(RECORD)?.checked_add(17)?.checked_add(at)?;
    s.lists.get_mut(f)?.get_mut(place)
}

// What is written of an item: a preallocated one below the size, now and then past it, becomes regular; now and then one
// that is regular becomes compressed. The place in the data.
fn written(item: Item, size: u64, x: u64) -> Option<usize> {
    let end = item.key.wrapping_add(item.length());
    if item.kind() == Kind::Preallocated && (end <= size || once_in(x, 51, 16)) {
        return Some(Item::TYPE);
    }
    if item.kind() == Kind::Regular && state::named(item).is_some() && once_in(x, 52, 64) {
        return Some(Item::COMPRESSION);
    }
    None
}

// One time in four some item.
fn write_some(s: &mut State, x: u64) {
    let f = draw(x, 53, FILES as u64) as usize;
    let i = draw(x, 54, s.item_count(f) as u64) as usize;
    let Some(item) = item::items(s.list(f)).nth(i) else {
        return;
    };
    let Some(at) = written(item, s.size(f), x) else {
        return;
    };
    if once_in(x, 57, 4) {
        if let Some(byte) = data_byte(s, f, i, at) {
            *byte = 1;
        }
    }
}

// Now and then some row is keyed, one time in four, or not.
fn key_some(s: &mut State, x: u64) {
    if !once_in(x, 58, 16) {
        return;
    }
    let row = draw(x, 55, s.rows as u64) as usize;
    if let Some(keyed) = s.table.get_mut(row.wrapping_mul(5).wrapping_add(4)) {
        *keyed = once_in(x, 56, 4) as u64;
    }
}

pub fn stir(s: &mut State, x: u64) {
    write_some(s, x);
    key_some(s, x);
}

// ---- a record that is odd for one call

// Some record's kind is 0 or 3, or its encryption 1.
#[derive(Clone, Copy)]
pub struct Odd {
    file: usize,
    record: usize,
    at: usize,
    value: u8,
}

// Now and then there is one.
pub fn odd_record(s: &State, x: u64) -> Option<Odd> {
    let file = draw(x, 60, FILES as u64) as usize;
    let record = draw(x, 61, 16) as usize;
    let (at, value) = match draw(x, 62, 3) {
        0 => (Item::TYPE, 0),
        1 => (Item::TYPE, 3),
        _ => (Item::ENCRYPTION, 1),
    };
    if record < s.item_count(file) && once_in(x, 63, 32) {
        Some(Odd {
            file,
            record,
            at,
            value,
        })
    } else {
        None
    }
}

// Its byte changed; gives what it was.
pub fn make_odd(s: &mut State, odd: Odd) -> Option<u8> {
    let byte = data_byte(s, odd.file, odd.record, odd.at)?;
    let even = *byte;
    *byte = odd.value;
    Some(even)
}

// Its byte as it was.
pub fn make_even(s: &mut State, odd: Odd, even: u8) {
    if let Some(byte) = data_byte(s, odd.file, odd.record, odd.at) {
        *byte = even;
    }
}
