// A clone's plan laid over its outputs, as far as each has room: with outputs of no length it is only counted.
#![tactic(auto)]

pub mod ground;

ghost use Rattle.std.specs.Prelude.{◌≡◌};
ghost use Rattle.clone_lay.specs.Raw.{cut_for};

use clone_items::FileCopying;
use drop_lines::Cut;
pub use ground::CloneGround;

// The range that is replaced; no extent is written in place.
pub fn cut_for(copying: FileCopying) -> Cut
    ensures { result ≡ cut_for copying.range }
{
    let c = copying.range;
    Cut {
        lo: c.to,
        hi: c.to + c.span,
        one: 0,
        two: 0,
    }
}
