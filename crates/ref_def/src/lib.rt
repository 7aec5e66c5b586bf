// References compared, and dropped items: definitions and laws, and which items name an extent in code.
#![tactic(auto)]

ghost use Rattle.std.specs.Prelude.{◌≡◌, [], ◌∷◌, length};
ghost use Rattle.item.specs.Items.{fields, items};
ghost use Rattle.cut_def.specs.Mappings.{named};
ghost use Rattle.cut_def.specs.Refs.{names};
ghost use Rattle.ref_def.specs.Compared.{among};

use item::Item;

// A list with the shared byte of each of its records.
#[derive(Clone, Copy)]
pub struct Leaves<'a> {
    pub list: &'a [u8],
    pub shared: &'a [u8],
    ghost one_each: { length shared.now ≡ length (items list.now) },
}

// An item of kind 1 or 2 that is no hole.
pub fn is_named(item: Item) -> bool
    ensures { result ≡ named (fields item) }
{
    lists::is_ranged(item) && !cut_def::is_hole(item)
}

// Whether an item names the extent at `start`.
pub fn is_naming(start: u64, item: Item) -> bool
    ensures { result ≡ names start (fields item) }
{
    is_named(item) && item.extent_start() == start
}

// Whether an item names one of two extents; 0 is none.
pub fn is_among(one: u64, two: u64, item: Item) -> bool
    ensures { result ≡ among (one ∷ two ∷ []) (fields item) }
{
    is_naming(one, item) || is_naming(two, item)
}
