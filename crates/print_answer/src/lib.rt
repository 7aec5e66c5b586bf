// What extplan prints for an answer: line n of it. Which output a line is from is found by subtracting the numbers of lines, so a
// line costs the same wherever it stands.
#![tactic(auto)]

ghost use Rattle.std.specs.Prelude.{◌≡◌};
ghost use Rattle.request.specs.Answers.{said};
ghost use Rattle.plan_def.specs.Outputs.{outs_in};
ghost use Rattle.print_answer.specs.Printed.{plan_lines, plan_in, shown, line_at, Holds, HoldsAnswer};

use plan_def::Outputs;
use print_field::Line;
use print_output::{add_line, edit_line, ref_line, write_line};
use records::refusal::Refusal;
use request::Numbers;

// A plan as it lies in the outputs, which hold as many lines as its numbers say.
#[derive(Clone, Copy)]
struct Laid<'a, 'b> {
    numbers: Numbers,
    out: &'a Outputs<'b>,
    ghost holds: { Holds numbers (outs_in out.now) },
}

impl Laid<'_, '_> {
    // Line n of it.
    #[tactic(auto, using(crate::proofs::Nth::nth), unfolding(crate::specs::Printed::plan_lines, crate::specs::Printed::plan_in))]
    fn line(self, n: usize, line: &mut Line)
        ensures { line.new ≡ line_at n (plan_lines (plan_in self.entry.numbers (outs_in self.entry.out.now))) }
    {
        let (p, out) = (self.numbers, self.out);
        if n == 0 {
            return print_line::plan_line(line, p.size, p.bytes, p.prealloc);
        }
        let n = n - 1;
        if n < p.edits {
            return edit_line(out.edits, n, line);
        }
        let n = n - p.edits;
        if n < p.shares {
            return ref_line(b"(share", out.shares, n, line);
        }
        let n = n - p.shares;
        if n < p.unrefs {
            return ref_line(b"(unref", out.unrefs, n, line);
        }
        let n = n - p.unrefs;
        if n < p.releases {
            return ref_line(b"(release", out.releases, n, line);
        }
        let n = n - p.releases;
        if n < p.adds {
            return add_line(out.adds, n, line);
        }
        let n = n - p.adds;
        if n < p.writes {
            return write_line(out.writes, n, line);
        }
        line.clear();
    }
}

// Line n of an answer, in place of what the line was; empty if there are not so many lines.
#[tactic(auto, unfolding(crate::specs::Printed::read_back, crate::specs::Printed::printed))]
pub fn answer_line(
    answer: Result<Option<Numbers>, Refusal>,
    out: &Outputs,
    n: usize,
    line: &mut Line,
)
    requires { HoldsAnswer (said answer) (outs_in out.now) }
    ensures { line.new ≡ line_at n (shown answer (outs_in out.now)) }
{
    match answer {
        Ok(Some(numbers)) => Laid { numbers, out }.line(n, line),
        _ if n > 0 => line.clear(),
        Ok(None) => print_line::nothing_line(line),
        Err(refusal) => print_line::refused_line(line, refusal),
    }
}
