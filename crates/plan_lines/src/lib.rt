// Lines of a plan, appended to an output that is lent. A line that finds no room is counted and not written, so that one
// function counts a plan's lines and writes them. And edits read again.
#![tactic(auto)]

ghost use Rattle.std.specs.Prelude.{◌≡◌, List, ℕ, [], ◌∷◌, map, ◌+◌, ◌*◌, ◌/◌, ◌≤◌, ◌<◌, ◌^◌, eqb, length, get_or, drop};
ghost use Rattle.records.specs.Lent.{old, new};
ghost use Rattle.endian.specs.Le.{put};
ghost use Rattle.item.specs.Items.{Fields, fields, decode};
ghost use Rattle.plan_def.specs.Outputs.{ref_numbers, add_numbers, write_numbers};
ghost use Rattle.plan_lines.specs.Lines.{Laid};
ghost use Rattle.std.specs.Iterator.{IsFinite};
ghost use Rattle.std.proofs.lemmas.Iterator.{YieldsList};
ghost use Rattle.cut_def.specs.Refs.{ref_of};

use item::Item;

// N numbers over out, from `at`.
#[tactic(auto, unfolding(endian::specs::Le::put))]
pub fn put_numbers<const N: usize>(out: &mut [u64], at: usize, numbers: [u64; N])
    requires { at + N ≤ length out.old }
    ensures { out.new ≡ put numbers.entry at out.old }
{
    out[at..at + N].copy_from_slice(&numbers);
}

// N numbers as line n.
fn put_line<const N: usize>(out: &mut [u64], n: usize, line: [u64; N]) -> usize
    requires { (0 < N) × (n + 1 < 2 ^ 64) }
    ensures { Laid (λ (x : List ℕ). x) N n (line.entry ∷ []) out.old result out.new }
{
    if n >= out.len() / N {
        return n + 1;
    }
    put_numbers(out, n * N, line);
    n + 1
}

// A reference as line n: an extent's start and a reference offset.
pub fn put_ref(out: &mut [u64], n: usize, start: u64, offset: u64) -> usize
    requires { n + 1 < 2 ^ 64 }
    ensures { Laid ref_numbers 2 n (record { start = start; offset = offset } ∷ []) out.old result out.new }
{
    put_line(out, n, [start, offset])
}

// The references of the items that an iterator gives, as lines from number n on.
pub fn put_refs<I: Iterator<Item = Item> + Drop>(items: I, out: &mut [u64], n: usize) -> usize
    requires can { I.can_next items }
    requires ends { IsFinite (I.remaining items) }
    requires room { (fs : List Fields) × YieldsList I.next_gives fields items fs × (n + length fs < 2 ^ 64) }
    ensures { (fs : List Fields) → YieldsList I.next_gives fields items fs → Laid ref_numbers 2 n (map ref_of fs) out.old result out.new }
{
    let mut m = n;
    for item in items {
        m = put_ref(out, m, item.extent_start(), item.reference());
    }
    m
}

// A new extent as line n: its start, its length, and the key of its item.
pub fn put_add(out: &mut [u64], n: usize, start: u64, length: u64, key: u64) -> usize
    requires { n + 1 < 2 ^ 64 }
    ensures { Laid add_numbers 3 n (record { start = start; length = length; key = key } ∷ []) out.old result out.new }
{
    put_line(out, n, [start, length, key])
}

// A sector write as line n: the sector, the volume byte it goes to, and the offsets to zero.
pub fn put_write(out: &mut [u64], n: usize, key: u64, at: u64, first: u64, end: u64) -> usize
    requires { n + 1 < 2 ^ 64 }
    ensures { Laid write_numbers 4 n (record { key = key; at = at; first = first; end = end } ∷ []) out.old result out.new }
{
    put_line(out, n, [key, at, first, end])
}

// ---- edits read again

// The record of edit k.
pub fn edit_item(edits: &[u8], k: usize) -> Item
    requires { k < length edits.now / 71 }
    ensures { fields result ≡ decode (drop 1 (drop (k * 71) edits.now)) }
{
    let at = k * item::EDIT;
    item::item_at(&edits[at + 1..at + item::EDIT], 0)
}

// Whether edit k is a put.
pub fn is_put(edits: &[u8], k: usize) -> bool
    requires { k < length edits.now / 71 }
    ensures { result ≡ eqb (get_or (drop (k * 71) edits.now) 0 0) 1 }
{
    edits[k * item::EDIT] == 1
}
