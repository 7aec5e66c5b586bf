// The whole input of extplan, read line by line.
#![tactic(auto)]

ghost use Rattle.std.specs.Prelude.{◌≡◌, ◌==◌, ◌+◌, ◌≤◌, not, length, take, drop};
ghost use Rattle.std.specs.List.{prefix_len};
ghost use Rattle.records.specs.Lent.{old, new};
ghost use Rattle.read_order.specs.Few.{Few};
ghost use Rattle.read_order.specs.Numbers.{numbers};
ghost use Rattle.read_store.specs.Store.{buffers_in, Same};
ghost use Rattle.read_input.specs.Split.{line_length};
ghost use Rattle.read_input.specs.Input.{read_input};
ghost use Rattle.read_input.specs.Raw.{TakesLine, ReadsLines, ReadsIn};

use read_order::Read;
use read_store::Store;

// How long the first line is: to its LF, or to the text's end.
fn line_length(s: &[u8]) -> usize
    ensures { result ≡ prefix_len (λ b. not (b == 10)) s.now }
{
    s.iter().take_while(|b| **b != b'\n').count()
}

// The first line, and the text behind its LF. (`split` would find one more line, an empty one, behind the last LF.)
fn first_line(s: &[u8]) -> (&[u8], &[u8])
    ensures line { result.0.now ≡ take (line_length s.now) s.now }
    ensures behind { result.1.now ≡ drop (line_length s.now + 1) s.now }
{
    let (line, behind) = s.split_at(line_length(s));
    (line, &behind[behind.len().min(1)..])
}

// One line taken; None: no right input goes on with it.
#[tactic(auto, using(crate::proofs::Whole::unread))]
fn take_next(read: Read, line: &[u8], store: &mut Store) -> Option<Read>
    requires { Few (numbers read) 65537 }
    ensures taken { TakesLine read line.now (buffers_in store.old) result (buffers_in store.new) }
    ensures same { Same store.old store.new }
{
    let form = read_line::read_line(line)?;
    read_store::take_line(read, form, store)
}

// What an input says: its numbers, and in the buffers its items, the source's behind the file's, their shared bytes, the
// extents and the places. Where a line is at fault, what was read before it: then `line` is its number.
pub fn read_lines(input: &[u8], store: &mut Store) -> Result<Read, Read>
    requires { length input.now ≤ 65536 }
    ensures reads { ReadsLines (read_input input.now) (buffers_in store.old) result (buffers_in store.new) }
    ensures same { Same store.old store.new }
{
    let mut read = read_order::begin();
    let mut rest = input;
    while !rest.is_empty() {
        let (line, behind) = first_line(rest);
        let Some(next) = take_next(read, line, store) else {
            return Err(read);
        };
        read = next;
        rest = behind;
    }
    Ok(read)
}

// The same; where a line is at fault, its number alone. The buffers have what was read before it.
pub fn read_input(input: &[u8], store: &mut Store) -> Result<Read, usize>
    requires { length input.now ≤ 65536 }
    ensures reads { ReadsIn (read_input input.now) (buffers_in store.old) result (buffers_in store.new) }
    ensures same { Same store.old store.new }
{
    read_lines(input, store).map_err(|read| read.line)
}
