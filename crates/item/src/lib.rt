// An item of a file's list: the port's `DiskKey` with the data of its `EXTENT_DATA` item, and `regular_extent_item`.
#![tactic(auto)]

pub mod kind;
pub mod reader;

ghost use Rattle.std.specs.Prelude.{◌≡◌, ◌+◌, ◌*◌, ◌^◌, ◌<◌, ◌≤◌, length, take, drop, replicate};
ghost use Rattle.records.specs.Lent.{old, new};
ghost use Rattle.endian.specs.Le.{num, enc, put};
ghost use Rattle.item.specs.Items.{fields, item_of, encode, reference, regular_item, windowed, joined, written_in_place, of_kind};
ghost use Rattle.item.specs.Kinds.{kind_of, byte_of};
ghost use Rattle.item.specs.Raw.{written, blank};

pub use kind::Kind;
pub use reader::{Reader, items, reader_at};

// An item's key and its data, kept together.
#[derive(Clone, Copy)]
pub struct Item {
    pub file: u64,
    pub key_type: u8,
    pub key: u64,
    pub data: [u8; 53],
}

// The bytes of a record, and of an edit: a byte and a record.
pub const RECORD: usize = 70;

pub const EDIT: usize = 71;

impl Item {
    // Where each number of the data stands, by the port's names.
    pub const GENERATION: usize = 0;

    pub const RAM_BYTES: usize = 8;

    pub const COMPRESSION: usize = 16;

    pub const ENCRYPTION: usize = 17;

    pub const OTHER_ENCODING: usize = 18;

    pub const TYPE: usize = 20;

    pub const DISK_BYTENR: usize = 21;

    pub const DISK_NUM_BYTES: usize = 29;

    pub const OFFSET: usize = 37;

    pub const NUM_BYTES: usize = 45;

    pub fn generation(self) -> u64
        ensures { result ≡ (fields self).generation }
    {
        endian::le64_at(&self.data, Self::GENERATION)
    }

    pub fn ram(self) -> u64
        ensures { result ≡ (fields self).ram }
    {
        endian::le64_at(&self.data, Self::RAM_BYTES)
    }

    pub fn compression(self) -> u8
        ensures { result ≡ (fields self).compression }
    {
        endian::le8_at(&self.data, Self::COMPRESSION)
    }

    pub fn encryption(self) -> u8
        ensures { result ≡ (fields self).encryption }
    {
        endian::le8_at(&self.data, Self::ENCRYPTION)
    }

    pub fn other(self) -> u16
        ensures { result ≡ (fields self).other }
    {
        endian::le16_at(&self.data, Self::OTHER_ENCODING)
    }

    pub fn kind(self) -> Kind
        ensures { result ≡ kind_of (fields self).kind }
    {
        Kind::from(self.kind_byte())
    }

    // Its kind as it stands on disk, which is printed.
    pub fn kind_byte(self) -> u8
        ensures { result ≡ (fields self).kind }
    {
        endian::le8_at(&self.data, Self::TYPE)
    }

    pub fn extent_start(self) -> u64
        ensures { result ≡ (fields self).extent_start }
    {
        endian::le64_at(&self.data, Self::DISK_BYTENR)
    }

    pub fn extent_length(self) -> u64
        ensures { result ≡ (fields self).extent_length }
    {
        endian::le64_at(&self.data, Self::DISK_NUM_BYTES)
    }

    pub fn position(self) -> u64
        ensures { result ≡ (fields self).position }
    {
        endian::le64_at(&self.data, Self::OFFSET)
    }

    pub fn length(self) -> u64
        ensures { result ≡ (fields self).length }
    {
        endian::le64_at(&self.data, Self::NUM_BYTES)
    }

    // The key minus the position, wrapping: where the extent's first byte would stand in the file.
    pub fn reference(self) -> u64
        ensures { result ≡ reference (fields self) }
    {
        self.key.wrapping_sub(self.position())
    }

    // w bytes of a number over the data, from `at`.
    fn with_num(self, at: usize, w: usize, v: u64) -> Self
        requires { at + w ≤ 53 }
        ensures { result ≡ written self at w v }
    {
        let mut data = self.data;
        endian::put_num(&mut data, at, w, v);
        Item { data, ..self }
    }

    // What a cut leaves of an item, and where a clone puts it.
    pub fn windowed(self, file: u64, key: u64, position: u64, length: u64) -> Self
        ensures { fields result ≡ windowed (fields self) file key position length }
    {
        let moved = self
            .with_num(Self::OFFSET, 8, position)
            .with_num(Self::NUM_BYTES, 8, length);
        Item { file, key, ..moved }
    }

    // An item joined with the one behind it: both lengths, the new generation.
    pub fn joined(self, behind: Self, generation: u64) -> Self
        requires { (fields self).length + (fields behind).length < 2 ^ 64 }
        ensures { fields result ≡ joined (fields self) (fields behind) generation }
    {
        let both = self.length() + behind.length();
        self.with_num(Self::GENERATION, 8, generation)
            .with_num(Self::NUM_BYTES, 8, both)
    }

    // An item of another kind.
    pub fn of_kind(self, kind: Kind) -> Self
        ensures { fields result ≡ of_kind (fields self) (byte_of kind) }
    {
        self.of_kind_byte(kind.byte())
    }

    // The same by its byte on disk, of which more are than there are kinds.
    pub fn of_kind_byte(self, kind: u8) -> Self
        ensures { fields result ≡ of_kind (fields self) kind }
    {
        self.with_num(Self::TYPE, 1, kind as u64)
    }

    // A part of a preallocated item, written where it lies.
    pub fn written_in_place(self, key: u64, generation: u64, position: u64, length: u64) -> Self
        ensures { fields result ≡ written_in_place (fields self) key generation position length }
    {
        self.windowed(self.file, key, position, length)
            .of_kind(Kind::Regular)
            .with_num(Self::GENERATION, 8, generation)
    }

    // An item with no data of its own.
    fn zeros(file: u64, key: u64) -> Self
        ensures { result ≡ blank file key }
    {
        Item {
            file,
            key_type: 108,
            key,
            data: [0u8; 53],
        }
    }

    // A new regular item over the whole of a new extent.
    pub fn regular_extent_item(
        file: u64,
        key: u64,
        generation: u64,
        start: u64,
        length: u64,
    ) -> Self
        ensures { fields result ≡ regular_item file key generation start length }
    {
        Self::zeros(file, key)
            .with_num(Self::GENERATION, 8, generation)
            .with_num(Self::RAM_BYTES, 8, length)
            .with_num(Self::TYPE, 1, Kind::Regular as u64)
            .with_num(Self::DISK_BYTENR, 8, start)
            .with_num(Self::DISK_NUM_BYTES, 8, length)
            .with_num(Self::NUM_BYTES, 8, length)
    }
}

// Record n of a list.
pub fn item_at(list: &[u8], n: usize) -> Item
    requires { n * 70 + 70 ≤ length list.now }
    ensures { result ≡ item_of (drop (n * 70) list.now) }
{
    let at = n * RECORD;
    Item {
        file: endian::le64_at(list, at),
        key_type: endian::le8_at(list, at + 8),
        key: endian::le64_at(list, at + 9),
        data: endian::bytes_at(list, at + 17),
    }
}

// An item over the 70 bytes from `at`.
pub fn put_item(out: &mut [u8], at: usize, item: Item)
    requires { at + 70 ≤ length out.old }
    ensures { out.new ≡ put (encode (fields item)) at out.old }
{
    endian::put_num(out, at, 8, item.file);
    endian::put_num(out, at + 8, 1, item.key_type as u64);
    endian::put_num(out, at + 9, 8, item.key);
    endian::copy(&item.data, 0, out, at + 17, 53);
}
