// What the program prints: an answer, the lines of its plan, and whether the outputs past the plan are still 165.
ghost use Rattle.std.specs.Prelude.{◌<◌};

use plan_def::Outputs;
use records::refusal::Refusal;
use request::Numbers;
use std::io;

pub const BLANK: u8 = 165;

pub fn answer(rt: &impl Print, answer: Result<Option<Numbers>, Refusal>) -> io::Result<()> {
    match answer {
        Ok(Some(n)) => println!(rt;
            " plan edits {} shares {} unrefs {} releases {} adds {} writes {} size {} bytes {} prealloc {}",
            n.edits,
            n.shares,
            n.unrefs,
            n.releases,
            n.adds,
            n.writes,
            n.size,
            n.bytes,
            n.prealloc as u8
        ),
        Ok(None) => println!(rt; " nothing"),
        Err(refusal) => println!(rt; " refused {}", refusal.number()),
    }
}

// ---- the lines of an output: each function answers whether all lines are there and what follows them is blank

fn is_blank<T: Copy + PartialEq + From<u8>>(out: &[T], used: usize) -> bool {
    let blank = T::from(BLANK);
    used <= out.len() && out.iter().skip(used).all(|x| *x == blank)
}

// An edit: its tag, key, extent start and length, position, length, kind, generation.
fn edits(rt: &impl Print, out: &[u8], n: usize) -> io::Result<bool> {
    for edit in out.chunks_exact(item::EDIT).take(n) {
        let item = item::item_at(&edit[1..], 0);
        println!(rt;
            "  edit {} {} {} {} {} {} {} {}",
            edit[0],
            item.key,
            item.extent_start(),
            item.extent_length(),
            item.position(),
            item.length(),
            item.kind_byte(),
            item.generation()
        )?;
    }
    Ok(is_blank(out, n.saturating_mul(item::EDIT)))
}

// n lines of so many numbers each.
fn lines(rt: &impl Print, word: &str, out: &[u64], n: usize, width: usize) -> io::Result<bool>
    requires { 0 < width }
{
    for line in out.chunks_exact(width).take(n) {
        print!(rt; "  {word}")?;
        for x in line {
            print!(rt; " {x}")?;
        }
        println!(rt;)?;
    }
    Ok(is_blank(out, n.saturating_mul(width)))
}

// The plan's lines in the six outputs, and whether all else is as it was.
pub fn outputs(
    rt: &impl Print,
    answer: Result<Option<Numbers>, Refusal>,
    out: &Outputs,
) -> io::Result<()> {
    let n = match answer {
        Ok(Some(n)) => n,
        _ => NO_LINES,
    };
    let kept = [
        edits(rt, out.edits, n.edits)?,
        lines(rt, "share", out.shares, n.shares, 2)?,
        lines(rt, "unref", out.unrefs, n.unrefs, 2)?,
        lines(rt, "release", out.releases, n.releases, 2)?,
        lines(rt, "add", out.adds, n.adds, 3)?,
        lines(rt, "write", out.writes, n.writes, 4)?,
    ];
    if kept.iter().all(|kept| *kept) {
        println!(rt; "  rest kept")
    } else {
        println!(rt; "  rest changed")
    }
}

const NO_LINES: Numbers = Numbers {
    edits: 0,
    shares: 0,
    unrefs: 0,
    releases: 0,
    adds: 0,
    writes: 0,
    size: 0,
    bytes: 0,
    prealloc: false,
};
