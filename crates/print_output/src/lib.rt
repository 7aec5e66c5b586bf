// Line n of one output of a plan.
#![tactic(auto)]

ghost use Rattle.std.specs.Prelude.{◌≡◌, ◌*◌, ◌/◌, ◌≤◌, ◌<◌, length, drop};
ghost use Rattle.plan_def.specs.ReadBack.{edit_in, ref_in, add_in, write_in};
ghost use Rattle.print_line.specs.Lines.{edit_line, ref_line, add_line, write_line};

use print_field::Line;

// An edit.
#[tactic(auto, using(crate::proofs::Lines::edit_delete))]
pub fn edit_line(edits: &[u8], n: usize, line: &mut Line)
    requires { n < length edits.now / 71 }
    ensures { line.new ≡ edit_line (edit_in (drop (n * 71) edits.now)) }
{
    let item = plan_lines::edit_item(edits, n);
    if plan_lines::is_put(edits, n) {
        return line.put(item);
    }
    print_line::delete_line(line, item.key);
}

// A share, an unref or a release, by its word.
#[tactic(auto, using(crate::proofs::Lines::ref_read, print_line::proofs::Bounds::ref_fits))]
pub fn ref_line(word: &[u8], refs: &[u64], n: usize, line: &mut Line)
    requires { (length word.now ≤ 8) × (n < length refs.now / 2) }
    ensures { line.new ≡ ref_line word.now (ref_in (drop (n * 2) refs.now)) }
{
    print_line::ref_line(line, word, refs[n * 2], refs[n * 2 + 1]);
}

// An add.
#[tactic(auto, using(crate::proofs::Lines::add_read))]
pub fn add_line(adds: &[u64], n: usize, line: &mut Line)
    requires { n < length adds.now / 3 }
    ensures { line.new ≡ add_line (add_in (drop (n * 3) adds.now)) }
{
    print_line::add_line(line, adds[n * 3], adds[n * 3 + 1], adds[n * 3 + 2]);
}

// A sector write.
#[tactic(auto, using(crate::proofs::Lines::write_read))]
pub fn write_line(writes: &[u64], n: usize, line: &mut Line)
    requires { n < length writes.now / 4 }
    ensures { line.new ≡ write_line (write_in (drop (n * 4) writes.now)) }
{
    print_line::write_line(
        line,
        writes[n * 4],
        writes[n * 4 + 1],
        writes[n * 4 + 2],
        writes[n * 4 + 3],
    );
}
