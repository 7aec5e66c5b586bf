// What an item's data are. On disk it is a byte: 0 inline, 1 regular, 2 preallocated; a plan refuses any other with 8.

ghost use Rattle.std.specs.Prelude.{◌≡◌};
ghost use Rattle.item.specs.Kinds.{kind_of, byte_of};

#[derive(Clone, Copy, Debug, PartialEq, Eq)]
pub enum Kind {
    // The file's bytes stand in the item itself.
    Inline,

    // It names an extent, or is an explicit hole.
    Regular,

    // It names an extent that reads as zeros until it is written.
    Preallocated,

    // None of the three.
    Other,
}

impl Kind {
    // The byte that stands for it; of none of the three the first that stands for none.
    pub fn byte(self) -> u8
        ensures { result ≡ byte_of self }
    {
        self as u8
    }
}

impl From<u8> for Kind {
    fn from(byte: u8) -> Self
        ensures { result ≡ kind_of byte }
    {
        match byte {
            0 => Kind::Inline,
            1 => Kind::Regular,
            2 => Kind::Preallocated,
            _ => Kind::Other,
        }
    }
}
