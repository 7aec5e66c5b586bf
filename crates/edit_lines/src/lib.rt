// A plan's edits, over lent slices.
#![tactic(auto)]

ghost use Rattle.std.specs.Prelude.{◌≡◌, true, map, ◌+◌, ◌*◌, ◌/◌, ◌≤◌, ◌<◌, ◌^◌, length, drop};
ghost use Rattle.records.specs.Lent.{old, new};
ghost use Rattle.records.specs.Stages.{pairs};
ghost use Rattle.item.specs.Items.{fields, items};
ghost use Rattle.lists.specs.Lists.{rises};
ghost use Rattle.cut_def.specs.Pieces.{built, items_of, insert_all};
ghost use Rattle.cut_def.specs.Edits.{put, delete, edits};
ghost use Rattle.plan_def.specs.Outputs.{edit_bytes};
ghost use Rattle.plan_lines.specs.Lines.{Laid};
ghost use Rattle.edit_merge.specs.Merge.{from};
ghost use Rattle.plan_def.specs.ReadBack.{add_in, adds_in};
ghost use Rattle.edit_lines.specs.Pieced.{piece_item, piece_items};
ghost use Rattle.edit_lines.specs.Merge.{piece_first, IsNext, Ready, Stepped};

use edit_merge::{MergeCursor, Next};
use item::{Item, Kind};

// ---- the new items

// Piece k as an item: the preallocated one over the whole of a new extent. It is read by its place: one line of three numbers,
// for which an array of lines would be no plainer.
fn piece_at(pieces: &[u64], k: usize, file: u64, generation: u64) -> Item
    requires { k * 3 + 3 ≤ length pieces.now }
    ensures { fields result ≡ piece_item file generation (add_in (drop (k * 3) pieces.now)) }
{
    let at = k * 3;
    let i = Item::regular_extent_item(file, pieces[at + 2], generation, pieces[at], pieces[at + 1]);
    i.of_kind(Kind::Preallocated)
}

// Whether the next piece comes before all items left in the segment.
fn is_piece(segment: &[u8], pieces: &[u64], j: usize, k: usize) -> bool
    ensures { result ≡ piece_first (from segment.now j) (drop k (adds_in pieces.now)) }
{
    if k >= pieces.len() / 3 {
        return false;
    }
    item::reader_at(segment, j)
        .next()
        .is_none_or(|g| pieces[k * 3 + 2] < g.key)
}

// The next piece or the segment's next item, whichever has the lower key.
fn next_new(
    segment: &[u8],
    pieces: &[u64],
    file: u64,
    generation: u64,
    j: usize,
    k: usize,
) -> Option<Next>
    requires { (pairs rises (piece_items file generation pieces.now) ≡ true) × (j ≤ length segment.now / 70) × (k ≤ length pieces.now / 3) }
    ensures { IsNext file generation segment.now pieces.now j k result }
{
    if is_piece(segment, pieces, j, k) {
        let item = piece_at(pieces, k, file, generation);
        return Some(Next { item, j, k: k + 1 });
    }
    edit_merge::segment_next(segment, j, k)
}

// ---- the merge

// The next edit: a delete of an old key that no new item has, or a put of the next new item.
fn step(
    was: &[u8],
    segment: &[u8],
    pieces: &[u64],
    file: u64,
    generation: u64,
    at: MergeCursor,
    out: &mut [u8],
) -> MergeCursor
    requires { Ready file generation segment.now pieces.now was.now at }
    ensures { Stepped file generation segment.now pieces.now was.now at out.old result out.new }
{
    let next = next_new(segment, pieces, file, generation, at.j, at.k);
    edit_merge::put_next(was, at, next, file, out)
}

// The edits that turn a part of a file's list into a segment with new pieces among it: by rising keys, a put of each new
// item, and a delete of each old key that none of them has. A piece is a line of `adds`.
pub fn put_edits(
    was: &[u8],
    segment: &[u8],
    pieces: &[u64],
    file: u64,
    generation: u64,
    out: &mut [u8],
    n: usize,
) -> usize
    requires { (pairs rises (items was.now) ≡ true)
        × (pairs rises (items_of (insert_all (piece_items file generation pieces.now) (map built (items segment.now)))) ≡ true)
        × (pairs rises (piece_items file generation pieces.now) ≡ true)
        × (n + length (items was.now) + length (items segment.now) + length pieces.now / 3 < 2 ^ 64) }
    ensures { Laid (edit_bytes file) 71 n (edits (items was.now) (insert_all (piece_items file generation pieces.now) (map built (items segment.now)))) out.old result out.new }
{
    let end = was.len() / item::RECORD + (segment.len() / item::RECORD + pieces.len() / 3);
    let mut at = MergeCursor {
        i: 0,
        j: 0,
        k: 0,
        n,
    };
    while at.i + (at.j + at.k) < end {
        at = step(was, segment, pieces, file, generation, at, out);
    }
    at.n
}
