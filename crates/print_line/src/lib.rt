// The lines that extplan prints, each put together of its parts. What the line was before is gone.
#![tactic(auto, using(print_field::proofs::Parts::parts, crate::proofs::Bounds::wholes))]

ghost use Rattle.std.specs.Prelude.{◌≡◌, ◌≤◌};
ghost use lib.ListN.{length};
ghost use Rattle.records.specs.Refusals.{number};
ghost use Rattle.print_line.specs.Lines.{nothing_line, number_line, refused_line, fault_line, plan_line, delete_line, ref_line, add_line, write_line};

use print_field::Line;
use records::refusal::Refusal;

// Nothing to do.
#[tactic(auto, unfolding(print_field::specs::Added::added))]
pub fn nothing_line(line: &mut Line)
    ensures { line.new ≡ nothing_line }
{
    line.begin(b"(nothing)\n");
}

// A word and a number.
fn number_line(line: &mut Line, word: &[u8], n: u64)
    requires { length word.now ≤ 8 }
    ensures { line.new ≡ number_line word.now n }
{
    line.begin(word);
    line.spaced(n);
    line.text(b")\n");
}

// A refusal by its number.
pub fn refused_number_line(line: &mut Line, n: u8)
    ensures { line.new ≡ refused_line n }
{
    number_line(line, b"(refused", u64::from(n));
}

// A refusal.
pub fn refused_line(line: &mut Line, refusal: Refusal)
    ensures { line.new ≡ refused_line (number refusal) }
{
    refused_number_line(line, refusal.number());
}

// An input line that can't be read.
pub fn fault_line(line: &mut Line, n: u64)
    ensures { line.new ≡ fault_line n }
{
    number_line(line, b"(line", n);
}

// A plan's first line.
pub fn plan_line(line: &mut Line, size: u64, bytes: u64, prealloc: bool)
    ensures { line.new ≡ plan_line size bytes prealloc }
{
    line.begin(b"(plan");
    line.field(b"size", size);
    line.field(b"bytes", bytes);
    line.field(b"prealloc", u64::from(prealloc));
    line.text(b")\n");
}

// An item that is deleted.
pub fn delete_line(line: &mut Line, key: u64)
    ensures { line.new ≡ delete_line key }
{
    line.begin(b"(delete");
    line.field(b"key", key);
    line.text(b")\n");
}

// A reference, under the word of its line.
pub fn ref_line(line: &mut Line, word: &[u8], start: u64, offset: u64)
    requires { length (ref_line word.now (record { start = start; offset = offset })) ≤ 256 }
    ensures { line.new ≡ ref_line word.now (record { start = start; offset = offset }) }
{
    line.begin(word);
    line.field(b"at", start);
    line.field(b"ref", offset);
    line.text(b")\n");
}

// A new extent.
pub fn add_line(line: &mut Line, start: u64, length: u64, key: u64)
    ensures { line.new ≡ add_line (record { start = start; length = length; key = key }) }
{
    line.begin(b"(add");
    line.field(b"at", start);
    line.field(b"len", length);
    line.field(b"key", key);
    line.text(b")\n");
}

// A sector write.
pub fn write_line(line: &mut Line, key: u64, at: u64, first: u64, end: u64)
    ensures { line.new ≡ write_line (record { key = key; at = at; first = first; end = end }) }
{
    line.begin(b"(write");
    line.field(b"key", key);
    line.field(b"at", at);
    line.pair(b"zero", first, end);
    line.text(b")\n");
}
