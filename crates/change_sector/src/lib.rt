// A sector of a volume that passed its checks, and rounding to sectors.
#![tactic(auto)]

ghost use Rattle.std.specs.Prelude.{◌≡◌, true, ◌<◌, ◌≤◌, ◌^◌};
ghost use Rattle.request.specs.Lent.{sector_sound};
ghost use Rattle.change_def.specs.Rounding.{round_down, round_up};

// A sector: a power of two from 4,096 to 65,536, and what follows of its size.
#[derive(Clone, Copy)]
pub struct Sector {
    pub bytes: u64,
    ghost sound: { sector_sound bytes ≡ true },
    ghost some: { 0 < bytes },
    ghost most: { bytes ≤ 65536 },
}

// The sector of this size.
pub fn sector_of(bytes: u64) -> Sector
    requires { sector_sound bytes ≡ true }
    ensures { result.bytes ≡ bytes }
{
    Sector { bytes }
}

impl Sector {
    // The start of the sector that holds x.
    pub fn round_down(self, x: u64) -> u64
        ensures start { result ≡ round_down self.bytes x }
        ensures below { result ≤ x }
    {
        change_def::round_down(self.bytes, x)
    }

    // The first start of a sector at or past x.
    pub fn round_up(self, x: u64) -> u64
        requires { x < 2 ^ 63 }
        ensures start { result ≡ round_up self.bytes x }
        ensures above { x ≤ result }
    {
        change_def::round_up(self.bytes, x)
    }
}
