// One call: the compiled operation on the volume's bytes, with as many places as it wants, and applying.
use crate::outputs::Buffers;
use apply::{Parts, Sizes, Target};
use records::refusal::Refusal;
use request::{self, Numbers};
use test_call::Operation as Ranged;
use test_history_state::calls::{self, Call, Lent, Operation};
use test_history_state::sectors::bytes_in;
use test_history_state::state::{self, State, lead};

// Places that are free, but for those whose extents are still there when 509 others were taken: they go round.
fn free_places(taken: u64) -> [u64; 12] {
    let mut places = [0u64; 12];
    for (i, place) in places.iter_mut().enumerate() {
        let slot = taken.wrapping_add(i as u64) % 509;
        *place = bytes_in(slot + 1, 22);
    }
    places
}

// The call with these places lent.
fn attempt(
    l: Lent,
    lent: request::Lent,
    source: &[u8],
    places: &[u64],
    out: &mut Buffers,
) -> Result<Option<Numbers>, Refusal> {
    let mut out = out.lent();
    let ranged = match l.operation {
        Operation::Clone => {
            return clone::clone_range(lent, l.src, l.own, source, l.span, &mut out);
        }
        Operation::Punch => Ranged::Punch,
        Operation::Fallocate => Ranged::Fallocate(false),
        Operation::FallocateKeep => Ranged::Fallocate(true),
    };
    test_call::answer_of(ranged, lent, l.range, places, &mut out)
}

// The call of the turn x, with one more place until their number is right.
pub fn answer(
    call: Call,
    x: u64,
    s: &State,
    out: &mut Buffers,
) -> Result<Option<Numbers>, Refusal> {
    let mut shared = [0u8; state::RECORDS];
    if let Some(byte) = shared.get_mut(calls::leaf_record(x)) {
        *byte = calls::leaf(x);
    }
    let places = free_places(s.taken);
    let l = calls::all_lent(call, x, s);
    let lent = request::Lent {
        volume: l.volume,
        file: l.dst,
        list: s.list(call.file),
        shared: lead(&shared, s.item_count(call.file)),
        table: s.rows(),
    };
    let source = s.list(call.source);
    for i in 0..12 {
        match attempt(l, lent, source, &places[..i], out) {
            Err(Refusal::Place) => {}
            answer => return answer,
        }
    }
    Err(Refusal::Place)
}

// Applies a plan of these numbers to a file's list and to the table.
pub fn applied(f: usize, n: Numbers, s: &mut State, out: &Buffers) -> Result<Sizes, Refusal> {
    let target = Target {
        sizes: Sizes {
            items: s.item_count(f),
            rows: s.rows,
        },
        sector: s.sector(),
        number: state::file_number(f),
        generation: s.generation.wrapping_add(1),
    };
    let plan = Parts {
        edits: out.edits(n),
        shares: out.shares(n),
        unrefs: out.unrefs(n),
        releases: out.releases(n),
        adds: out.adds(n),
    };
    let Some(list) = s.lists.get_mut(f) else {
        return Err(Refusal::Broken);
    };
    apply::apply_plan(target, list, &mut s.table, plan)
}
