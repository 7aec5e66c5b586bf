// A chain of drops is walked in list order: `for (item, byte) in chain`.

ghost use Rattle.std.specs.Prelude.{◌≤◌, length};
ghost use Rattle.drop_chains.specs.Chains.{From, Onward};

use item::{Item, item_at};
use ref_def::Leaves;

// The list, what stands at each of its drops, and the number of the next: its index and one more; 0 at the end.
#[derive(Clone, Copy)]
pub struct Chain<'a> {
    pub leaves: Leaves<'a>,
    pub nexts: &'a [u32],
    pub number: usize,
    ghost room: { length leaves.shared.now ≤ length nexts.now },
    ghost inside: { From 0 (length leaves.shared.now) number },
    ghost onward: { Onward (length leaves.shared.now) nexts.now },
}

impl<'a> Iterator for Chain<'a> {
    ghost use Rattle.std.specs.Iterator.{YieldsFirstBy, item_count};
    ghost use Rattle.drop_chains.specs.Reading.{leaf, left};

    type Item = (Item, u8);

    ghost next_gives = { YieldsFirstBy leaf left };

    ghost remaining = { item_count left };

    fn next(&mut self) -> Option<(Item, u8)> {
        if self.number == 0 {
            return None;
        }
        let i = self.number - 1;
        let item = item_at(self.leaves.list, i);
        let byte = self.leaves.shared[i];
        self.number = self.nexts[i] as usize;
        Some((item, byte))
    }
}
