// A change as an operation asks for it.

ghost use Rattle.std.specs.Prelude.{◌≤◌, length};
ghost use Rattle.change_def.proofs.Fair.{Fair};
ghost use Rattle.change_ground.specs.Lent.{items_in};
ghost use Rattle.change_lay.specs.Laid.{ground_of};
ghost use Rattle.change_draft.specs.Whole.{filled};

use change_def::Fill;
use change_lay::Begun;

// Begun, with the stretch of the file whose holes are filled.
#[derive(Clone, Copy)]
pub struct Asked<'a> {
    pub begun: Begun<'a>,
    pub fill: Fill,
    ghost fair: { Fair (ground_of begun) (filled begun fill) },
    ghost sized: { length (items_in begun.base) ≤ 65536 },
}
