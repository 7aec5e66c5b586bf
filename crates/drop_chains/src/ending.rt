// As `chain`, but that any number may stand at an item that the chain does not pass: it ends all the same. The two types share no
// `next`: what that ensures is what is left, and not that the numbers stay.

ghost use Rattle.std.specs.Prelude.{◌≡◌, ◌≤◌, length};
ghost use Rattle.ref_def.specs.Lent.{leaves_of};
ghost use Rattle.drop_chains.specs.Chains.{From, number_behind};

use item::{Item, item_at};
use ref_def::Leaves;

// The list, what stands at each of its drops, and the number of the next: its index and one more; 0 at the end.
#[derive(Clone, Copy)]
pub struct EndingChain<'a> {
    pub leaves: Leaves<'a>,
    pub nexts: &'a [u32],
    pub number: usize,
    ghost room: { length leaves.shared.now ≤ length nexts.now },
    ghost inside: { From 0 (length leaves.shared.now) number },
    ghost ended: { number_behind nexts.now 0 number (leaves_of leaves) ≡ 0 },
}

impl<'a> Iterator for EndingChain<'a> {
    ghost use Rattle.std.specs.Iterator.{YieldsFirstBy, item_count};
    ghost use Rattle.drop_chains.specs.Reading.{leaf, left_ending};

    type Item = (Item, u8);

    ghost next_gives = { YieldsFirstBy leaf left_ending };

    ghost remaining = { item_count left_ending };

    fn next(&mut self) -> Option<(Item, u8)> {
        if self.number == 0 {
            return None;
        }
        let i = self.number - 1;
        let item = item_at(self.leaves.list, i);
        let byte = self.leaves.shared[i];
        self.number = self.nexts[i] as usize;
        Some((item, byte))
    }
}
