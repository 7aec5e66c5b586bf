// A file's references before and after a plan, with the plan's lines: in a balanced ledger the entries of each reference sum to 0.
use crate::state;

// A reference, noted once more or once less.
#[derive(Clone, Copy)]
struct Entry {
    start: u64,
    offset: u64,
    more: bool,
}

// Room for the records of two lists and the lines of a plan's outputs.
#[derive(Clone, Copy)]
pub struct Ledger {
    entries: [Option<Entry>; 200],
    next: usize,
}

impl Ledger {
    pub fn new() -> Ledger {
        Ledger {
            entries: [None; 200],
            next: 0,
        }
    }

    pub fn note(&mut self, start: u64, offset: u64, more: bool) {
        if let Some(place) = self.entries.get_mut(self.next) {
            *place = Some(Entry {
                start,
                offset,
                more,
            });
            self.next += 1;
        }
    }

    // By its own subtraction: `Item::reference` makes the lines that are checked by this.
    pub fn note_items(&mut self, list: &[u8], more: bool) {
        for item in item::items(list) {
            if let Some(start) = state::named(item) {
                let offset = item.key.wrapping_sub(item.position());
                self.note(start, offset, more);
            }
        }
    }

    // Lines of an extent's start and a reference offset.
    pub fn note_pairs(&mut self, lines: &[u64], more: bool) {
        for line in lines.chunks_exact(2) {
            self.note(line[0], line[1], more);
        }
    }

    // Adds: start, length, and the key, which is the reference offset.
    pub fn note_adds(&mut self, lines: &[u64]) {
        for line in lines.chunks_exact(3) {
            self.note(line[0], line[2], true);
        }
    }

    // The sum of one reference's entries, modulo 2^64.
    fn weight(&self, of: Entry) -> u64 {
        let mut sum: u64 = 0;
        for entry in self.entries.iter().flatten() {
            if entry.start == of.start && entry.offset == of.offset {
                sum = if entry.more {
                    sum.wrapping_add(1)
                } else {
                    sum.wrapping_sub(1)
                };
            }
        }
        sum
    }

    pub fn is_balanced(&self) -> bool {
        self.entries
            .iter()
            .flatten()
            .all(|entry| self.weight(*entry) == 0)
    }
}
