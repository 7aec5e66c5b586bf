// A sector that is written in place: its position in the extent, the refusals 14, 17 and 18, the item over it, and its write.

ghost use Rattle.std.specs.Prelude.{◌≡◌, true};
ghost use Rattle.item.specs.Items.{fields};
ghost use Rattle.lists.specs.Lists.{range_sound};
ghost use Rattle.cut_def.specs.Mappings.{holds};
ghost use Rattle.change_ground.specs.Lent.{ground};

use crate::{Holder, naming};
use change_def::Rewrite;
use change_ground::Ground;
use item::Item;
use records::refusal::{Refusal, check};

// The sector, and the item that holds it.
#[derive(Clone, Copy)]
pub struct InPlace {
    pub rewrite: Rewrite,
    pub holder: Holder,
    ghost ranged: { range_sound (fields holder.item) ≡ true },
    ghost held: { holds rewrite.sector (fields holder.item) ≡ true },
}

impl InPlace {
    ghost use Rattle.std.specs.Prelude.{◌+◌, ◌<◌, ◌^◌};
    ghost use Rattle.records.specs.Refusals.{why};
    ghost use Rattle.item.specs.Items.{written_in_place};
    ghost use Rattle.plan_def.specs.Outputs.{write_numbers};
    ghost use Rattle.plan_lines.specs.Lines.{Laid};
    ghost use Rattle.change_def.specs.Rewrites.{in_place_refusal, position_of};
    ghost use Rattle.change_rewrites.specs.Raw.{holder_leaf, item_of};

    // The sector's position in its extent.
    pub fn position(self) -> u64
        ensures { result ≡ position_of self.rewrite (holder_leaf self.holder) }
    {
        let item = self.holder.item;
        item.position() + (self.rewrite.sector - item.key)
    }

    // Refusals 14, 17 and 18.
    pub fn refusal(self, g: Ground) -> Result<(), Refusal>
        ensures { why result ≡ in_place_refusal (ground g.entry) self.rewrite (holder_leaf self.holder) }
    {
        let start = self.holder.item.extent_start();
        let Some((_, row)) = g.table.find_row(start) else {
            return Err(Refusal::NoRow);
        };
        let v = g.volume;
        check(
            table::item_window_inside(start, self.position(), v.sector, row.length),
            Refusal::Window,
        )?;
        let own = row.references == naming(g.leaves.list.records, start) as u64;
        check(
            own && (v.snapshot < row.made && self.holder.shared == 0),
            Refusal::ReadElsewhere,
        )
    }

    // The item over the sector, of a generation.
    pub fn item(self, generation: u64, sector: u64) -> Item
        ensures { fields result ≡ item_of generation sector self }
    {
        let at = self.position();
        self.holder
            .item
            .written_in_place(self.rewrite.sector, generation, at, sector)
    }
}
