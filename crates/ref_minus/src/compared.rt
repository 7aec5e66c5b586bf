// What is compared: the references of two lists to two extents.

ghost use Rattle.std.specs.Prelude.{◌+◌, ◌<◌, ◌^◌, length};
ghost use Rattle.item.specs.Items.{items};

// Asked for is a line for each reference that the items of x have more often than those of y, in order, from line n on. Extent
// 0 is none, as in `Cut` (drop_lines).
#[derive(Clone, Copy)]
pub struct Compared<'a> {
    pub x: &'a [u8],
    pub y: &'a [u8],
    pub one: u64,
    pub two: u64,
    pub n: usize,
    ghost countable: { n + length (items x.now) < 2 ^ 64 },
}
