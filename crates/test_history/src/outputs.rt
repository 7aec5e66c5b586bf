// The buffers of a call's outputs, and the parts of them that a plan fills.
use plan_def::Outputs;
use request::Numbers;
use test_history_state::state::lead;

// What they hold before a call.
const BLANK: u8 = 165;

#[derive(Clone, Copy)]
pub struct Buffers {
    pub edits: [u8; 1136],
    pub shares: [u64; 32],
    pub unrefs: [u64; 32],
    pub releases: [u64; 32],
    pub adds: [u64; 12],
    pub writes: [u64; 16],
}

// The first n lines of so many numbers each; all if there are not so many.
fn lines<T>(out: &[T], n: usize, width: usize) -> &[T] {
    lead(out, n.saturating_mul(width))
}

// Whether an output past the first n lines is as it was.
fn is_blank<T: Copy + PartialEq + From<u8>>(out: &[T], n: usize, width: usize) -> bool {
    let blank = T::from(BLANK);
    out.iter()
        .skip(lines(out, n, width).len())
        .all(|x| *x == blank)
}

impl Buffers {
    pub fn new() -> Buffers {
        Buffers {
            edits: [BLANK; 1136],
            shares: [BLANK as u64; 32],
            unrefs: [BLANK as u64; 32],
            releases: [BLANK as u64; 32],
            adds: [BLANK as u64; 12],
            writes: [BLANK as u64; 16],
        }
    }

    // The outputs that a call is lent.
    pub fn lent(&mut self) -> Outputs<'_> {
        let Buffers {
            edits,
            shares,
            unrefs,
            releases,
            adds,
            writes,
        } = self;
        Outputs {
            edits,
            shares,
            unrefs,
            releases,
            adds,
            writes,
        }
    }

    pub fn edits(&self, n: Numbers) -> &[u8] {
        lines(&self.edits, n.edits, item::EDIT)
    }

    pub fn shares(&self, n: Numbers) -> &[u64] {
        lines(&self.shares, n.shares, 2)
    }

    pub fn unrefs(&self, n: Numbers) -> &[u64] {
        lines(&self.unrefs, n.unrefs, 2)
    }

    pub fn releases(&self, n: Numbers) -> &[u64] {
        lines(&self.releases, n.releases, 2)
    }

    pub fn adds(&self, n: Numbers) -> &[u64] {
        lines(&self.adds, n.adds, 3)
    }

    // Whether all outputs past a plan of these numbers are as they were; past 0 of each for no plan.
    pub fn is_past_kept(&self, n: Numbers) -> bool {
        is_blank(&self.edits, n.edits, item::EDIT)
            && is_blank(&self.shares, n.shares, 2)
            && is_blank(&self.unrefs, n.unrefs, 2)
            && is_blank(&self.releases, n.releases, 2)
            && is_blank(&self.adds, n.adds, 3)
            && is_blank(&self.writes, n.writes, 4)
    }
}
