// What extplan answers to an input: first all of it, in outputs that are lent, then line by line.
#![tactic(auto)]

ghost use Rattle.std.specs.Prelude.{◌≡◌, ◌≤◌, length};
ghost use Rattle.plan_def.specs.Outputs.{Kept, outs_in};
ghost use Rattle.print_answer.specs.Printed.{line_at};
ghost use Rattle.read_store.specs.Store.{Same, buffers_in};
ghost use Rattle.extplan_reply.specs.Replies.{answer_to, Replied};
ghost use Rattle.extplan_reply.specs.Raw.{Roomy, Spacious};

use plan_def::Outputs;
use print_field::Line;
use read_store::Store;
use records::refusal::Refusal;
use request::Numbers;

// The reply to an input, with a plan's lines in the outputs: the operation's answer, or the number of the line that is at
// fault.
pub fn answer(
    input: &[u8],
    store: &mut Store,
    out: &mut Outputs,
) -> Result<Result<Option<Numbers>, Refusal>, usize>
    requires input_len_bound { length input.now ≤ 65536 }
    requires roomy { Roomy (buffers_in store.old) }
    requires spacious { Spacious (outs_in out.old) }
    ensures replied { Replied input.now result (outs_in out.new) }
    ensures same { Same store.old store.new }
    ensures kept { Kept out.old out.new }
{
    let read = read_input::read_input(input, store)?;
    let request = read_order::asked(read)?;
    Ok(extplan_operate::operate(read, request, store, out))
}

// Line n, from 0, of the answer to an input whose reply is in the outputs, in place of what the line was; empty where there are
// not so many.
pub fn reply_line(
    input: &[u8],
    reply: Result<Result<Option<Numbers>, Refusal>, usize>,
    out: &Outputs,
    n: usize,
    line: &mut Line,
)
    requires { Replied input.now reply (outs_in out.now) }
    ensures { line.new ≡ line_at n (answer_to input.now) }
{
    match reply {
        Ok(answer) => print_answer::answer_line(answer, out, n, line),
        Err(fault) if n == 0 => print_line::fault_line(line, fault as u64),
        Err(_) => line.clear(),
    }
}
