// A plan's edits, one at a time: the next edit between an old list and the next new item (`put_next`).
#![tactic(auto)]

ghost use Rattle.std.specs.Prelude.{◌≡◌, true, None, ◌∷◌, ◌+◌, ◌/◌, ◌≤◌, ◌<◌, ◌^◌, [], length};
ghost use Rattle.records.specs.Lent.{old, new};
ghost use Rattle.records.specs.Stages.{pairs};
ghost use Rattle.endian.specs.Le.{put as put_over};
ghost use Rattle.item.specs.Items.{fields, items, encode};
ghost use Rattle.item.specs.Raw.{blank};
ghost use Rattle.lists.specs.Lists.{rises};
ghost use Rattle.plan_def.specs.Outputs.{edit_bytes};
ghost use Rattle.plan_lines.specs.Lines.{Laid};
ghost use Rattle.edit_merge.specs.Merge.{edit_of, from, gone, behind, Merging, FromSegment};

use item::Item;

// An edit of a file's list: an item that is put at its key, or a key that is deleted.
#[derive(Clone, Copy)]
enum Edit {
    Put(Item),
    Delete(u64),
}

// The first of an edit's bytes.
const PUT: u8 = 1;

const DELETE: u8 = 2;

// An edit's 71 bytes over out, from `at`: a tag and a record.
fn put_tagged(out: &mut [u8], at: usize, tag: u8, item: Item)
    requires { at + 71 ≤ length out.old }
    ensures { out.new ≡ put_over (tag ∷ encode (fields item)) at out.old }
{
    out[at] = tag;
    item::put_item(out, at + 1, item);
}

// An item without data: a delete's record.
fn without_data(file: u64, key: u64) -> Item
    ensures { result ≡ blank file key }
{
    Item {
        file,
        key_type: 108,
        key,
        data: [0u8; 53],
    }
}

// An edit of a file's list over the bytes from `at`.
fn put_bytes(out: &mut [u8], at: usize, file: u64, edit: Edit)
    requires { at + 71 ≤ length out.old }
    ensures { out.new ≡ put_over (edit_bytes file (edit_of edit)) at out.old }
{
    match edit {
        Edit::Put(item) => put_tagged(out, at, PUT, item),
        Edit::Delete(key) => put_tagged(out, at, DELETE, without_data(file, key)),
    }
}

// The same as line n.
fn put_edit(out: &mut [u8], n: usize, file: u64, edit: Edit) -> usize
    requires { n + 1 < 2 ^ 64 }
    ensures { Laid (edit_bytes file) 71 n (edit_of edit ∷ []) out.old result out.new }
{
    if n < out.len() / item::EDIT {
        put_bytes(out, n * item::EDIT, file, edit);
    }
    n + 1
}

// ---- the merge

// Whether the old list's next key comes before the next new one, if there is one.
pub fn is_gone(was: &[u8], i: usize, key: Option<u64>) -> bool
    ensures { result ≡ gone key (from was.now i) }
{
    match item::reader_at(was, i).next() {
        Some(old) => key.is_none_or(|key| old.key < key),
        None => false,
    }
}

// The old list's next item behind a key that is put: one more than i where i has that key.
pub fn passed(was: &[u8], i: usize, key: u64) -> usize
    requires { i ≤ length was.now / 70 }
    ensures { (from was.now result ≡ behind key (from was.now i)) × (i ≤ result) × (result ≤ length was.now / 70) }
{
    match item::reader_at(was, i).next() {
        Some(old) if old.key == key => i + 1,
        _ => i,
    }
}

// ---- loops over a merge, whose new items are a segment with others among it

// The next new item, and what is left behind it: the segment from item j on, the others from k on.
#[derive(Clone, Copy)]
pub struct Next {
    pub item: Item,
    pub j: usize,
    pub k: usize,
}

// How far a merge is: the old list's next item, the segment's next, the next of the others, and the edits that there are.
#[derive(Clone, Copy)]
pub struct MergeCursor {
    pub i: usize,
    pub j: usize,
    pub k: usize,
    pub n: usize,
}

// The next edit, where record i of the old list and `next` of the new items come next: a delete of an old key that comes
// before the new one, or a put, which passes the old item of its key.
pub fn put_next(
    was: &[u8],
    at: MergeCursor,
    next: Option<Next>,
    file: u64,
    out: &mut [u8],
) -> MergeCursor
    requires { (pairs rises (items was.now) ≡ true) × (at.i ≤ length was.now / 70) × (next ≡ None → at.i < length was.now / 70) × (at.n + 1 < 2 ^ 64) }
    ensures { Merging file was.now at next out.old result out.new }
{
    match next {
        Some(new) if !is_gone(was, at.i, Some(new.item.key)) => MergeCursor {
            i: passed(was, at.i, new.item.key),
            j: new.j,
            k: new.k,
            n: put_edit(out, at.n, file, Edit::Put(new.item)),
        },
        _ => {
            let old = item::item_at(was, at.i);
            MergeCursor {
                i: at.i + 1,
                n: put_edit(out, at.n, file, Edit::Delete(old.key)),
                ..at
            }
        }
    }
}

// The segment's next item, where none of the others comes before it.
pub fn segment_next(segment: &[u8], j: usize, k: usize) -> Option<Next>
    ensures { FromSegment segment.now j k result }
{
    let item = item::reader_at(segment, j).next()?;
    Some(Next { item, j: j + 1, k })
}
