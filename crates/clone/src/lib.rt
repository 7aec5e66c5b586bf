// A clone: its draft (`asked`), which refuses it or says what it goes by, and the operation, `clone_range`.
#![tactic(auto, unfolding(records::specs::Stages::first))]

pub mod asked;

ghost use Rattle.std.specs.Prelude.{◌≡◌, false};
ghost use Rattle.records.specs.Lent.{old, new};
ghost use Rattle.request.specs.Answers.{plan};
ghost use Rattle.plan_def.specs.Plans.{numbers};
ghost use Rattle.plan_def.specs.Outputs.{Met, Kept};
ghost use Rattle.clone_lay.specs.Lent.{plan_in, number_in};
ghost use Rattle.clone_def.specs.Clone.{with_room, clone_lent};

use asked::Asked;
use change_lay::Counts;
use clone_lay::CloneGround;
use clone_span::CloneRange;
use plan_def::Outputs;
use records::refusal::Refusal;
use request::{File, Lent, Numbers};

// A plan's numbers from its counts: a clone has no adds and no writes.
fn numbers_of(n: Counts, size: u64) -> Numbers
    ensures { result ≡ record { edits = n.edits.edits; shares = n.refs.shares; unrefs = n.refs.unrefs; releases = n.refs.releases; adds = 0; writes = 0; size = size; bytes = n.edits.bytes; prealloc = false } }
{
    let edited = n.edits;
    let refs = n.refs;
    Numbers {
        edits: edited.edits,
        shares: refs.shares,
        unrefs: refs.unrefs,
        releases: refs.releases,
        adds: 0,
        writes: 0,
        size,
        bytes: edited.bytes,
        prealloc: false,
    }
}

// The numbers of a clone's plan: it is laid over outputs of no length.
fn count_clone(g: CloneGround) -> Numbers
    ensures { result ≡ numbers (plan_in g.entry) }
{
    let mut none = Outputs {
        edits: &mut [],
        shares: &mut [],
        unrefs: &mut [],
        releases: &mut [],
        adds: &mut [],
        writes: &mut [],
    };
    numbers_of(g.lay(&mut none), g.size)
}

// A plan counted, 27, and the writing, which cannot fail.
fn finish_clone(g: CloneGround, out: &mut Outputs) -> Result<Option<Numbers>, Refusal>
    ensures met { Met (number_in g.entry) (λ rooms. with_room rooms (plan (plan_in g.entry))) result out.old out.new }
    ensures kept { Kept out.old out.new }
{
    let n = count_clone(g);
    plan_places::room_refusal(n, out)?;
    g.lay(out);
    Ok(Some(n))
}

// ---- the operation

// A clone of a range of one file into another, or into itself (`own`; the second file and list are then not looked at): the
// answer, and the plan in the outputs; it has no adds and no writes. Any bytes may be lent.
pub fn clone_range(
    l: Lent,
    src: File,
    own: bool,
    source: &[u8],
    s: CloneRange,
    out: &mut Outputs,
) -> Result<Option<Numbers>, Refusal>
    ensures met { Met l.entry.file.number (clone_lent l.entry.volume l.entry.file src own s l.entry.list.now l.entry.shared.now source.now l.entry.table.now) result out.old out.new }
    ensures kept { Kept out.old out.new }
{
    let Some(ground) = Asked::new(l, src, own, source, s).draft()? else {
        return Ok(None);
    };
    finish_clone(ground, out)
}
