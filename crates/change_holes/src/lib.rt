// The new extents that a change wants, one behind the other: sectors written anew, then the pieces of the holes of a
// stretch of the file, found by one sweep along the list. Nothing is stored: the nth stretch is worked out from two records.
#![tactic(auto)]

ghost use Rattle.std.specs.Prelude.{◌≡◌, ◌+◌, ◌*◌, ◌≤◌, ◌<◌, ◌^◌, leb, length, get_or};
ghost use mathlib.Core.List.{flat_map};
ghost use Rattle.item.specs.Items.{items};
ghost use Rattle.change_def.specs.Preallocs.{piece_limit, piece_count, prealloc_pieces, sum_of};
ghost use Rattle.change_def.specs.Sweep.{up_to};
ghost use Rattle.change_holes.specs.Gaps.{Ends, gap_start, gap_stop};

use cut_segment::{Running, record_at};

// A stretch of a file from `start` up to `stop`; empty where `stop` is not past `start`.
#[derive(Clone, Copy)]
pub struct Bounds {
    pub start: u64,
    pub stop: u64,
}

// What a change wants new extents for: two stretches (the sectors written anew), and the holes of [from, to) but for
// those in [lo, hi).
#[derive(Clone, Copy)]
pub struct NewExtents {
    pub one: Bounds,
    pub two: Bounds,
    pub lo: u64,
    pub hi: u64,
    pub from: u64,
    pub to: u64,
}

// The same with the list that has the holes, whose records end at most at 2^63.
#[derive(Clone, Copy)]
pub struct Wishes<'a> {
    pub extents: NewExtents,
    pub list: &'a [u8],
    ghost ends: { Ends (items list.now) },
}

// How long a piece of a hole may be.
const PIECE_LIMIT: u64 = 268435456;

// The bytes of the holes, and how many pieces they are laid in.
#[derive(Clone, Copy)]
pub struct Sums {
    pub bytes: u64,
    pub pieces: usize,
}

// The stretches that new extents are wanted for, one by one, empty ones too; from number `number` on.
#[derive(Clone, Copy)]
pub struct Stretches<'a> {
    wishes: Wishes<'a>,
    number: usize,
}

// A piece of a stretch: a new extent lies there.
#[derive(Clone, Copy)]
pub struct Piece {
    pub start: u64,
    pub length: u64,
}

// The pieces, one by one: what is left of a stretch, and the stretches behind it.
#[derive(Clone, Copy)]
pub struct Walker<'a> {
    rest: Bounds,
    stretches: Stretches<'a>,
}

// What a change wants in a list that runs.
pub fn along<'a>(extents: NewExtents, list: Running<'a>) -> Wishes<'a>
    ensures { (result.extents ≡ extents) × (result.list ≡ list.entry.records) }
{
    Wishes {
        extents,
        list: list.records,
    }
}

impl Bounds {
    ghost use Rattle.change_holes.specs.Walk.{stretch_of};

    fn is_empty(self) -> bool
        ensures { result ≡ leb self.stop self.start }
    {
        self.stop <= self.start
    }

    fn length(self) -> u64
        ensures { result ≡ (stretch_of self).length }
    {
        self.stop.saturating_sub(self.start)
    }

    // What it has behind its first `length` bytes.
    fn behind(self, length: u64) -> Bounds
        requires { self.start + length ≤ self.stop }
        ensures { result ≡ record self { start = self.start + length } }
    {
        Bounds {
            start: self.start + length,
            ..self
        }
    }
}

// How many pieces a stretch of this length has.
fn piece_count(length: u64) -> usize
    ensures { result ≡ piece_count piece_limit length }
{
    length.div_ceil(PIECE_LIMIT) as usize
}

impl<'a> Wishes<'a> {
    ghost use Rattle.change_holes.specs.Walk.{stretch_of, holes_of, stretches_of, wishes_of, left};

    // Where the gap before record n starts: where the record before it ends.
    fn gap_start(self, n: usize) -> u64
        requires { n ≤ length (items self.list.now) }
        ensures { result ≡ gap_start self.entry.extents.from (items self.entry.list.now) n }
    {
        if n == 0 {
            return self.extents.from;
        }
        let item = record_at(self.list, n - 1);
        self.extents.from.max(item.key + item.length())
    }

    // Where it stops: at the record.
    fn gap_stop(self, n: usize) -> u64
        requires { n ≤ length (items self.list.now) }
        ensures { result ≡ gap_stop self.entry.extents.to (items self.entry.list.now) n }
    {
        if n == self.list.len() / item::RECORD {
            return self.extents.to;
        }
        let item = record_at(self.list, n);
        item.key.min(self.extents.to)
    }

    // Bounds n of the holes: an even one lies before lo, an odd one from hi on.
    fn swept(self, n: usize) -> Bounds
        requires { n < 2 * (length (items self.list.now) + 1) }
        ensures { stretch_of result ≡ get_or (holes_of self.entry) n (up_to 0 0) }
    {
        let start = self.gap_start(n / 2);
        let stop = self.gap_stop(n / 2);
        if n % 2 == 0 {
            Bounds {
                start,
                stop: stop.min(self.extents.lo),
            }
        } else {
            Bounds {
                start: start.max(self.extents.hi),
                stop,
            }
        }
    }

    // Bounds n of all.
    fn stretch_at(self, n: usize) -> Bounds
        requires { n < 2 * (length (items self.list.now) + 1) + 2 }
        ensures { stretch_of result ≡ get_or (stretches_of self.entry) n (up_to 0 0) }
    {
        match n {
            0 => self.extents.one,
            1 => self.extents.two,
            _ => self.swept(n - 2),
        }
    }

    // The bytes of the holes, and of how many pieces they are.
    #[tactic(auto, using(crate::proofs::Pieces::no_pieces, crate::proofs::Pieces::pieces_more, crate::proofs::Pieces::pieces_few), unfolding(change_def::specs::Preallocs::sum_of))]
    pub fn sum_holes(self) -> Sums
        requires { sum_of (holes_of self) ≤ 2 ^ 63 }
        ensures { (result.bytes ≡ sum_of (holes_of self.entry)) × (result.pieces ≡ length (flat_map (prealloc_pieces piece_limit) (holes_of self.entry))) }
    {
        let mut sums = Sums {
            bytes: 0,
            pieces: 0,
        };
        let holes = Stretches {
            wishes: self,
            number: 2,
        };
        for s in holes {
            let length = s.length();
            sums.bytes += length;
            sums.pieces += piece_count(length);
        }
        sums
    }

    // All pieces, one by one.
    #[tactic(auto, unfolding(change_def::specs::Preallocs::pieces_from))]
    pub fn walk(self) -> Walker<'a>
        ensures { left result ≡ wishes_of self.entry }
    {
        Walker {
            rest: Bounds { start: 0, stop: 0 },
            stretches: Stretches {
                wishes: self,
                number: 0,
            },
        }
    }
}

impl<'a> Iterator for Stretches<'a> {
    ghost use Rattle.std.specs.Iterator.{YieldsFirstBy, item_count};
    ghost use Rattle.change_holes.specs.Walk.{stretch_of, stretches_left};

    type Item = Bounds;

    ghost next_gives = { YieldsFirstBy stretch_of stretches_left };

    ghost remaining = { item_count stretches_left };

    fn next(&mut self) -> Option<Bounds> {
        if self.number >= (self.wishes.list.len() / item::RECORD + 1) * 2 + 2 {
            return None;
        }
        let s = self.wishes.stretch_at(self.number);
        self.number += 1;
        Some(s)
    }
}

impl<'a> Iterator for Walker<'a> {
    ghost use Rattle.std.specs.Iterator.{YieldsFirstBy, item_count};
    ghost use Rattle.change_holes.specs.Walk.{piece_of, left};

    type Item = Piece;

    ghost next_gives = { YieldsFirstBy piece_of left };

    ghost remaining = { item_count left };

    // Of what is left of a stretch, or else of the next one that is not empty, up to the limit.
    fn next(&mut self) -> Option<Piece> {
        if self.rest.is_empty() {
            self.rest = self.stretches.find(|s| !s.is_empty())?;
        }
        let start = self.rest.start;
        let length = self.rest.length().min(PIECE_LIMIT);
        self.rest = self.rest.behind(length);
        Some(Piece { start, length })
    }
}
