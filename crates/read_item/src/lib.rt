// An item line of extplan's input stored as a record and a shared byte. As with a plan's lines, one that finds no room is
// counted and not written.
#![tactic(auto, using(crate::proofs::Laws::puts))]

ghost use Rattle.std.specs.Prelude.{◌≡◌, ◌+◌, ◌≤◌, [], ◌∷◌, length};
ghost use Rattle.records.specs.Lent.{old, new};
ghost use Rattle.endian.specs.Le.{put};
ghost use Rattle.item.specs.Items.{encode};
ghost use Rattle.plan_lines.specs.Lines.{lay};
ghost use Rattle.read_order.specs.Taking.{item_of};
ghost use Rattle.read_item.specs.Raw.{byte, eights, key_bytes, code_bytes};

use endian::put_num;

// Two numbers of eight bytes over out, from `at`.
fn put_eights(out: &mut [u8], at: usize, a: u64, b: u64)
    requires { at + 16 ≤ length out.old }
    ensures { out.new ≡ put (eights a b) at out.old }
{
    put_num(out, at, 8, a);
    put_num(out, at + 8, 8, b);
}

// An item's key.
fn put_key(out: &mut [u8], at: usize, file: u64, key: u64)
    requires { at + 17 ≤ length out.old }
    ensures { out.new ≡ put (key_bytes file key) at out.old }
{
    put_num(out, at, 8, file);
    put_num(out, at + 8, 1, 108);
    put_num(out, at + 9, 8, key);
}

// An item's compression, encryption, other encoding and kind.
fn put_codes(out: &mut [u8], at: usize, a: u64, b: u64, c: u64, d: u64)
    requires { at + 5 ≤ length out.old }
    ensures { out.new ≡ put (code_bytes a b c d) at out.old }
{
    put_num(out, at, 1, a);
    put_num(out, at + 1, 1, b);
    put_num(out, at + 2, 2, c);
    put_num(out, at + 4, 1, d);
}

// An item line's record over the 70 bytes from `at`.
fn put_record(out: &mut [u8], at: usize, file: u64, v: [u64; 12])
    requires { at + 70 ≤ length out.old }
    ensures { out.new ≡ put (encode (item_of file v)) at out.old }
{
    put_key(out, at, file, v[0]);
    put_eights(out, at + 17, v[6], v[7]);
    put_codes(out, at + 33, v[8], v[9], v[10], v[1]);
    put_eights(out, at + 38, v[2], v[3]);
    put_eights(out, at + 54, v[4], v[5]);
}

// Record n.
pub fn keep_item(out: &mut [u8], n: usize, file: u64, v: [u64; 12])
    ensures { out.new ≡ lay encode 70 n (item_of file v ∷ []) out.old }
{
    if n >= out.len() / item::RECORD {
        return;
    }
    put_record(out, n * item::RECORD, file, v);
}

// Shared byte n.
pub fn keep_shared(out: &mut [u8], n: usize, v: u64)
    ensures { out.new ≡ lay byte 1 n (v ∷ []) out.old }
{
    if n >= out.len() {
        return;
    }
    put_num(out, n, 1, v);
}
