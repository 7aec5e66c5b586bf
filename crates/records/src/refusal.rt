// Why an operation is refused, by the numbers of document 01 (docs/REFERENCE.md has them in full), and stages: a function that
// passes or gives its refusal is a stage, and `?` after each says that the first refusal counts.

ghost use Rattle.std.specs.Prelude.{◌≡◌, ◌&&◌, ◌%◌, ◌/◌, ◌<◌, eqb, leb};
ghost use Rattle.records.specs.Refusals.{number, why};
ghost use Rattle.records.specs.Stages.{unless};

#[derive(Clone, Copy, Debug, PartialEq, Eq)]
pub enum Refusal {
    // A list, a table or a part of a plan of broken length or over-long; shared bytes that are not one a record, each 0 or 1.
    Broken = 1,

    // A list that is not well kept.
    NotKept,

    // A table that is not as it should be, or a count of references that leaves 64 bits.
    Table,

    // A sector or a size out of its range, or a list that is not whole sectors.
    Sector,

    // A range of no bytes.
    Empty,

    // A range that ends past 2^63 - 1.
    TooFar,

    // An inline record.
    Inline,

    // A kind over 2.
    Kind,

    // An encrypted record, or one of another encoding.
    Encoded,

    // An explicit hole in a fallocate's range.
    Hole,

    // A regular item at or past the size.
    PastSize,

    // Holes of more bytes than the volume has.
    NoSpace,

    // No generation is left.
    Generation,

    // An extent without a row.
    NoRow,

    // An extent with keyed references would be shared.
    Keyed,

    // A sector of a regular item would be rewritten in a nodatacow file.
    Nodatacow,

    // A window outside its extent.
    Window,

    // An extent that may not be written in place, as others may read it.
    ReadElsewhere,

    // A clone's start past the source's end.
    Start,

    // A clone's end past it.
    End,

    // A clone's offset that is not whole sectors.
    Offset,

    // A clone's length that is not whole sectors and ends short of the source's end.
    Length,

    // A partial sector inside a clone's destination.
    Partial,

    // Two ranges of one file that overlap.
    Overlap,

    // A clone's destination that has records and ends inside a sector would grow.
    Growth,

    // Places that are not as wanted.
    Place,

    // Too little room.
    Room,
}

impl Refusal {
    // Its number.
    pub fn number(self) -> u8
        ensures { result ≡ number self }
    {
        self as u8
    }
}

// A test with its refusal.
pub fn check(ok: bool, refusal: Refusal) -> Result<(), Refusal>
    ensures { why result ≡ unless ok (number refusal) }
{
    if ok { Ok(()) } else { Err(refusal) }
}

// Refusal 1 of n numbers that are to be records of `width` each: broken length, or over-long.
pub fn size_refusal(n: usize, width: usize) -> Result<(), Refusal>
    requires { 0 < width }
    ensures { why result ≡ unless (eqb (n % width) 0 && leb (n / width) 65536) 1 }
{
    check(n % width == 0 && n / width <= 65536, Refusal::Broken)
}
