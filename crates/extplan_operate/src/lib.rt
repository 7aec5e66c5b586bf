// The operation that an input asks for, on what was read of it.
#![tactic(auto)]

ghost use Rattle.std.specs.Prelude.{◌≡◌};
ghost use Rattle.plan_def.specs.Outputs.{Kept, Met};
ghost use Rattle.read_store.specs.Store.{buffers_in};
ghost use Rattle.extplan_operate.specs.Operations.{operation_in, LieIn, asking};

use plan_def::Outputs;
use read_order::{Read, Request};
use read_store::Store;
use records::refusal::Refusal;
use request::{Lent, Numbers};

// The operation, on the parts of the buffers that hold what was read. A clone within one file has no second file.
pub fn operate(
    r: Read,
    request: Request,
    store: &Store,
    out: &mut Outputs,
) -> Result<Option<Numbers>, Refusal>
    requires { LieIn (asking r request) (buffers_in store.now) }
    ensures met { Met r.file.number (operation_in (asking r request) (buffers_in store.now)) result out.old out.new }
    ensures kept { Kept out.old out.new }
{
    let from = r.items * item::RECORD;
    let to = r.stored * item::RECORD;
    let source = &store.items[from..to];
    let places = &store.places[..r.places];
    let lent = Lent {
        volume: r.volume,
        file: r.file,
        list: &store.items[..from],
        shared: &store.shared[..r.items],
        table: &store.table[..r.rows * table::WIDTH],
    };
    match request {
        Request::Punch(range) => punch::punch_hole(lent, range, places, out),
        Request::Fallocate(range, keep) => fallocate::fallocate(lent, range, keep, places, out),
        Request::Clone(span) => clone::clone_range(
            lent,
            read_order::NO_FILE,
            true,
            source,
            span,
            out,
        ),
        Request::CloneFrom(span, second) => clone::clone_range(
            lent, second, false, source, span, out,
        ),
    }
}
