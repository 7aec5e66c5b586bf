// A punch or a fallocate, whichever a test asks for. Promises safety alone.
#![tactic(auto)]

use plan_def::Outputs;
use records::refusal::Refusal;
use request::{Lent, Numbers, Range};

#[derive(Clone, Copy)]
pub enum Operation {
    Punch,
    Fallocate(bool),
}

// The operation on what it is lent.
pub fn answer_of(
    operation: Operation,
    lent: Lent,
    r: Range,
    places: &[u64],
    out: &mut Outputs,
) -> Result<Option<Numbers>, Refusal> {
    match operation {
        Operation::Punch => punch::punch_hole(lent, r, places, out),
        Operation::Fallocate(keep) => fallocate::fallocate(lent, r, keep, places, out),
    }
}
