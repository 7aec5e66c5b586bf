// extplan: reads a request from standard input and prints its plan, "(nothing)", "(refused N)" or "(line N)" (document 01,
// "extplan"). The library `extplan_reply` reads, plans and prints; here are the buffers, reading and writing.
#![tactic(auto)]

ghost use Rattle.std.specs.Prelude.{◌≡◌, ◌≤◌, IfOk, length};
ghost use Rattle.plan_def.specs.Outputs.{outs_in};
ghost use Rattle.extplan_reply.specs.Replies.{Replied};

use plan_def::Outputs;
use print_field::Line;
use read_store::Store;
use records::refusal::Refusal;
use request::Numbers;
use std::io;
use std::io::Read;

// Reads until the buffer is full or the input ends, and returns how many bytes it put at the start of it. (A loop with `while`:
// `read_exact` does not say how many there were before the end.)
fn read_full(from: &mut impl Read, buffer: &mut [u8]) -> io::Result<usize>
    ensures { IfOk result (λ n. n ≤ length buffer.new) }
{
    let mut done = 0;
    while done < buffer.len() {
        let n = from.read(&mut buffer[done..])?;
        if n == 0 {
            return Ok(done);
        }
        done += n;
    }
    Ok(done)
}

// Writes the answer line by line. No answer has a million lines.
fn write_lines(
    rt: &impl Print,
    input: &[u8],
    reply: Result<Result<Option<Numbers>, Refusal>, usize>,
    out: &Outputs,
) -> io::Result<()>
    requires { Replied input.now reply (outs_in out.now) }
{
    let mut line = Line::new();
    for n in 0..1000000 {
        extplan_reply::reply_line(input, reply, out, n, &mut line);
        if line.bytes().is_empty() {
            return Ok(());
        }
        rt.write_all(line.bytes())?;
    }
    Ok(())
}

// A large buffer, by a function: only its length is asked about.
fn buffer<const N: usize>() -> [u8; N]
    ensures { N ≡ length result }
{
    [0; N]
}

// The answer to an input, with the buffers that it takes: 9,362 items, 7,281 extents, 6,553 places, and for outputs what
// `enough` (crate plan_bounds) says.
fn answer(rt: &impl Print, input: &[u8]) -> io::Result<()>
    requires { length input.now ≤ 65536 }
{
    let mut items = buffer::<655340>();
    let mut shared = [0u8; 9362];
    let mut table = [0u64; 36405];
    let mut places = [0u64; 6553];
    let mut edits = buffer::<2658808>();
    let mut shares = [0u64; 56176];
    let mut unrefs = [0u64; 37448];
    let mut releases = [0u64; 18724];
    let mut adds = [0u64; 19659];
    let mut writes = [0u64; 8];
    let mut store = Store {
        items: &mut items,
        shared: &mut shared,
        table: &mut table,
        places: &mut places,
    };
    let mut out = Outputs {
        edits: &mut edits,
        shares: &mut shares,
        unrefs: &mut unrefs,
        releases: &mut releases,
        adds: &mut adds,
        writes: &mut writes,
    };
    let reply = extplan_reply::answer(input, &mut store, &mut out);
    write_lines(rt, input, reply, &out)
}

fn main(rt: HostRuntime) -> io::Result<()> {
    let mut stdin = rt.stdin();
    let mut input = [0u8; 65536];
    let n = read_full(&mut stdin, &mut input)?;
    let mut more = [0u8; 1];
    let got = stdin.read(&mut more)?;
    if got == 0 {
        return answer(&rt, &input[..n]);
    }
    if n == 65536 {
        // "more bytes `(line 0)`"
        let mut line = Line::new();
        print_line::fault_line(&mut line, 0);
        return rt.write_all(line.bytes());
    }
    Err(io::Error::other("read"))
}
