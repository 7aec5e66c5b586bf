// What a file shows at each of its first 64 sectors.
use crate::sectors::{bytes_in, sectors_in};
use crate::state;
use item::{Item, Kind};

// The extent's start, the position in it, and the item's kind.
#[derive(Clone, Copy, PartialEq, Eq)]
pub struct Shown {
    pub start: u64,
    pub position: u64,
    pub kind: Kind,
}

pub type Map = [Option<Shown>; 64];

fn lay_item(map: &mut Map, item: Item, shift: u32) {
    let Some(start) = state::named(item) else {
        return;
    };
    let first = sectors_in(item.key, shift);
    for k in 0..sectors_in(item.length(), shift).min(64) {
        let position = item.position().wrapping_add(bytes_in(k, shift));
        if let Some(place) = map.get_mut(first.wrapping_add(k) as usize) {
            *place = Some(Shown {
                start,
                position,
                kind: item.kind(),
            });
        }
    }
}

// The map of a list.
pub fn map_of(list: &[u8], shift: u32) -> Map {
    let mut map = [None; 64];
    for item in item::items(list) {
        lay_item(&mut map, item, shift);
    }
    map
}

// What a sector shows, if it shows something.
pub fn shown_at(map: &Map, k: u64) -> Option<Shown> {
    map.get(k as usize).copied().flatten()
}
