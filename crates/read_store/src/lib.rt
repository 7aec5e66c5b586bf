// Lines of extplan's input stored in buffers: an item line as a record and a shared byte, an extent line as a row, a
// place line as a number.
#![tactic(auto, unfolding(read_order::specs::Order::next))]

ghost use Rattle.std.specs.Prelude.{◌≡◌, ◌≢◌, [], ◌∷◌};
ghost use Rattle.records.specs.Lent.{old, new};
ghost use Rattle.table.specs.Rows.{row_of, row_numbers};
ghost use Rattle.plan_lines.specs.Lines.{lay};
ghost use Rattle.read_line.specs.Forms.{kind_number};
ghost use Rattle.read_order.specs.Few.{Few};
ghost use Rattle.read_order.specs.Order.{next};
ghost use Rattle.read_order.specs.Taking.{holder};
ghost use Rattle.read_order.specs.Numbers.{numbers, phase_number};
ghost use Rattle.read_store.specs.Storing.{alone, Kept, TakesIn};
ghost use Rattle.read_store.specs.Store.{buffers_in, Same};

use read_item::{keep_item, keep_shared};
use read_line::{Form, Kind};
use read_order::{Phase, Read};

// The buffers that an input is stored in: item records with their shared bytes, those of a source behind the file's; rows; places.
#[derive(Drop)]
pub struct Store<'a> {
    pub items: &'a mut [u8],
    pub shared: &'a mut [u8],
    pub table: &'a mut [u64],
    pub places: &'a mut [u64],
}

// Row n.
#[tactic(auto, using(crate::proofs::Laws::row_full, crate::proofs::Laws::row_kept))]
fn keep_row(out: &mut [u64], n: usize, v: [u64; 12])
    ensures { out.new ≡ lay row_numbers 5 n (row_of v ∷ []) out.old }
{
    if n >= out.len() / 5 {
        return;
    }
    out[n * 5..n * 5 + 5].copy_from_slice(&v[..5]);
}

// Place n.
#[tactic(auto, using(crate::proofs::Laws::place_full, crate::proofs::Laws::place_kept))]
fn keep_place(out: &mut [u64], n: usize, v: u64)
    ensures { out.new ≡ lay alone 1 n (v ∷ []) out.old }
{
    if n >= out.len() {
        return;
    }
    out[n] = v;
}

// The number of the file that an item belongs to.
fn holder(r: Read) -> u64
    requires { next (phase_number r.phase) 3 ≢ 0 }
    ensures { result ≡ holder (numbers r) (next (phase_number r.phase) 3) }
{
    match r.phase {
        Phase::Source(file) => file.number,
        _ => r.file.number,
    }
}

// What a line adds, behind what was stored before it.
fn keep_line(r: Read, line: Form, store: &mut Store)
    requires { next (phase_number r.phase) (kind_number line.kind) ≢ 0 }
    ensures kept { Kept (numbers r) (kind_number line.kind) line.values (buffers_in store.old) (buffers_in store.new) }
    ensures same { Same store.old store.new }
{
    let v = line.values;
    match line.kind {
        Kind::Item => {
            keep_item(store.items, r.stored, holder(r), v);
            keep_shared(store.shared, r.stored, v[11]);
        }
        Kind::Extent => keep_row(store.table, r.rows, v),
        Kind::Place => keep_place(store.places, r.places, v[0]),
        _ => {}
    }
}

// One line taken: what it adds, and what is read after it. None: no right input goes on with it, and nothing is added.
#[tactic(auto, unfolding(read_order::specs::Order::next), using(crate::proofs::Laws::in_order))]
pub fn take_line(r: Read, line: Form, store: &mut Store) -> Option<Read>
    requires { Few (numbers r) 65537 }
    ensures taken { TakesIn r line (buffers_in store.old) result (buffers_in store.new) }
    ensures same { Same store.old store.new }
{
    let read = read_order::taken(r, line)?;
    keep_line(r, line, store);
    Some(read)
}
