// `change_range`: what a punch and a fallocate do once the range to cut, the sectors to rewrite and the holes to fill are
// known. Definitions and laws; in code the structs of a change, and rounding to sectors.
#![tactic(auto)]

ghost use Rattle.std.specs.Prelude.{◌≡◌, ◌+◌, ◌<◌, ◌^◌};
ghost use Rattle.change_def.specs.Rounding.{round_down, round_up};

// A sector of the file that is rewritten, and the offsets of it to zero.
#[derive(Clone, Copy)]
pub struct Rewrite {
    pub sector: u64,
    pub first: u64,
    pub end: u64,
}

// A range to cut, and the sectors rewritten in it, at most one at the front and one at the back.
#[derive(Clone, Copy)]
pub struct RangeChange {
    pub lo: u64,
    pub hi: u64,
    pub front: Option<Rewrite>,
    pub back: Option<Rewrite>,
}

// The stretch of the file whose holes are filled, [from, to), and the file's new size.
#[derive(Clone, Copy)]
pub struct Fill {
    pub from: u64,
    pub to: u64,
    pub size: u64,
}

// No holes to fill, and this size.
pub fn no_holes(size: u64) -> Fill
    ensures { result ≡ record { from = 0; to = 0; size = size } }
{
    Fill {
        from: 0,
        to: 0,
        size,
    }
}

// The start of the sector that holds x.
pub fn round_down(sector: u64, x: u64) -> u64
    requires { 0 < sector }
    ensures { result ≡ round_down sector x }
{
    x / sector * sector
}

// The first start of a sector at or past x.
pub fn round_up(sector: u64, x: u64) -> u64
    requires { (0 < sector) × (x + sector < 2 ^ 64) }
    ensures { result ≡ round_up sector x }
{
    (x + (sector - 1)) / sector * sector
}
