// A plan's edits applied to a list in place: `items_after`. The list is lent with room behind its records.
#![tactic(auto)]

mod edits;

ghost use Rattle.std.specs.Prelude.{◌≡◌, true, ◌++◌, ◌+◌, ◌*◌, ◌/◌, ◌≤◌, ◌<◌, length, take, drop};
ghost use Rattle.records.specs.Lent.{old, new};
ghost use Rattle.records.specs.Stages.{pairs};
ghost use Rattle.item.specs.Items.{fields, items, encode};
ghost use Rattle.lists.specs.Lists.{rises};
ghost use Rattle.plan_def.specs.Outputs.{laid};
ghost use Rattle.apply_def.specs.Buffers.{Same};
ghost use Rattle.apply_walk.specs.Merge.{Rising};
ghost use Rattle.apply_walk.specs.Checks.{items_now};
ghost use Rattle.apply_items.specs.Passes.{IsPut, edits_of, puts_in, merged, Packed, Slid};

use edits::Edits;
use item::Item;

// An item as record k of a list.
fn put_record(list: &mut [u8], k: usize, item: Item)
    requires { k < length list.old / 70 }
    ensures { IsPut k (fields item) list.old list.new }
{
    item::put_item(list, k * item::RECORD, item);
}

// ---- front to back

// The records of n that no edit names, moved to the front; how many they are. By number: the list is changed as it is read.
fn pack(list: &mut [u8], n: usize, edits: Edits) -> usize
    requires { (n ≤ length list.old / 70) × (pairs rises (take n (items list.old)) ≡ true) }
    ensures { Packed (edits_of edits.entry) list.old n result list.new }
{
    let mut left = edits;
    let mut w = 0;
    for i in 0..n {
        let item = item::item_at(list, i);
        if !left.names(item.key) {
            put_record(list, w, item);
            w += 1;
        }
    }
    w
}

// ---- back to front

// An item among the first n records, at its key: those past it move up by skip + 1, and it takes the last of the places that they
// leave. How many records are before it. By number: the list is changed as it is read.
fn slide_record(list: &mut [u8], n: usize, skip: usize, item: Item) -> usize
    requires { n + skip < length list.old / 70 }
    ensures { (result ≤ n) × Slid n skip (fields item) result list.old list.new }
{
    let mut i = n;
    while i > 0 && item::item_at(list, i - 1).key > item.key {
        let moved = item::item_at(list, i - 1);
        put_record(list, i + skip, moved);
        i -= 1;
    }
    put_record(list, i + skip, item);
    i
}

// The first n records and what is put, `puts` records, merged, the last one first: so each moves once.
fn fill(list: &mut [u8], n: usize, edits: Edits, puts: usize)
    requires { (n + puts ≤ length list.old / 70) × (puts ≡ length (puts_in (edits_of edits))) × (pairs rises (take n (items list.old)) ≡ true) }
    ensures { Same 70 list.old list.new × (items list.new ≡ merged (take n (items list.old)) (edits_of edits.entry) ++ drop (n + puts) (items list.old)) }
{
    let mut i = n;
    let mut skip = puts;
    for line in edits.lines.iter().rev() {
        if plan_lines::is_put(line, 0) {
            skip -= 1;
            i = slide_record(list, i, skip, plan_lines::edit_item(line, 0));
        }
    }
}

// A plan's edits applied to the first n records of a list, in place; how many records there are then.
pub fn items_after(list: &mut [u8], n: usize, edits: &[u8]) -> usize
    requires { (n ≤ length list.old / 70) × Rising (take (n * 70) list.old) edits.now × (length (items_now (take (n * 70) list.old) edits.now) ≤ length list.old / 70) }
    ensures { (result ≡ length (items_now (take (n * 70) list.old) edits.now)) × (list.new ≡ laid encode (items_now (take (n * 70) list.old) edits.now) list.old) }
{
    let (lines, _) = edits.as_chunks::<{ item::EDIT }>();
    let edits = Edits { lines };
    let kept = pack(list, n, edits);
    let puts = edits.count_puts();
    fill(list, kept, edits, puts);
    kept + puts
}
