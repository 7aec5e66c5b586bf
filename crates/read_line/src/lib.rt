// One line of extplan's input.
#![tactic(auto)]

ghost use Rattle.std.specs.Prelude.{◌≡◌, ◌+◌, ◌≤◌, drop};
ghost use Rattle.read_field.specs.Raw.{total};
ghost use Rattle.read_line.specs.Forms.{read_line, line_of, line_in, kind_number};
ghost use Rattle.read_line.specs.Raw.{whole_by};

use read_field::{Field, fields, numbers, word};

// Which of the eight shapes a line has.
#[derive(Clone, Copy, Debug, PartialEq, Eq)]
pub enum Kind {
    Volume,
    File,
    Item,
    Extent,
    Place,
    Punch,
    Fallocate,
    Clone,
}

// A line that was read: its shape, and its numbers, filled up with zeros.
#[derive(Clone, Copy, Debug, PartialEq, Eq)]
pub struct Form {
    pub kind: Kind,
    pub values: [u64; 12],
}

// A shape: how such a line opens, how many numbers stand right behind its word, and its fields in the paper's order.
#[derive(Clone, Copy)]
struct Shape {
    kind: Kind,
    opening: &'static [u8],
    count: usize,
    fields: &'static [Field<'static>],
}

static SHAPES: [Shape; 8] = [
    Shape {
        kind: Kind::Volume,
        opening: b"(volume",
        count: 0,
        fields: &[
            Field(b" (sector", 1, u64::MAX),
            Field(b" (total", 1, u64::MAX),
            Field(b" (generation", 1, u64::MAX),
            Field(b" (snapshot", 1, u64::MAX),
        ],
    },
    Shape {
        kind: Kind::File,
        opening: b"(file",
        count: 0,
        fields: &[
            Field(b" (number", 1, u64::MAX),
            Field(b" (size", 1, u64::MAX),
            Field(b" (cow", 1, 1),
        ],
    },
    Shape {
        kind: Kind::Item,
        opening: b"(item",
        count: 0,
        fields: &[
            Field(b" (key", 1, u64::MAX),
            Field(b" (kind", 1, 255),
            Field(b" (extent", 2, u64::MAX),
            Field(b" (window", 2, u64::MAX),
            Field(b" (generation", 1, u64::MAX),
            Field(b" (ram", 1, u64::MAX),
            Field(b" (compression", 1, 255),
            Field(b" (encryption", 1, 255),
            Field(b" (other", 1, 65535),
            Field(b" (shared", 1, 255),
        ],
    },
    Shape {
        kind: Kind::Extent,
        opening: b"(extent",
        count: 0,
        fields: &[
            Field(b" (at", 1, u64::MAX),
            Field(b" (len", 1, u64::MAX),
            Field(b" (refs", 1, u64::MAX),
            Field(b" (made", 1, u64::MAX),
            Field(b" (keyed", 1, u64::MAX),
        ],
    },
    Shape {
        kind: Kind::Place,
        opening: b"(place",
        count: 1,
        fields: &[],
    },
    Shape {
        kind: Kind::Punch,
        opening: b"(punch",
        count: 0,
        fields: &[Field(b" (from", 1, u64::MAX), Field(b" (len", 1, u64::MAX)],
    },
    Shape {
        kind: Kind::Fallocate,
        opening: b"(fallocate",
        count: 0,
        fields: &[
            Field(b" (from", 1, u64::MAX),
            Field(b" (len", 1, u64::MAX),
            Field(b" (keep", 1, 1),
        ],
    },
    Shape {
        kind: Kind::Clone,
        opening: b"(clone",
        count: 0,
        fields: &[
            Field(b" (from", 1, u64::MAX),
            Field(b" (to", 1, u64::MAX),
            Field(b" (len", 1, u64::MAX),
        ],
    },
];

impl Shape {
    // What stands behind such a line's word, to the line's end.
    #[tactic(auto, using(crate::proofs::Behind::behind_laws), unfolding(read_field::specs::Parts::into, read_field::specs::Parts::more))]
    fn read(&self, behind: &[u8]) -> Option<Form>
        requires { self.now.count + total self.now.fields.now ≤ 12 }
        ensures { line_in result ≡ line_of (kind_number self.now.kind) (whole_by self.now behind.now) }
    {
        let mut values = [0; 12];
        let rest = numbers(behind, &mut values[..self.count], u64::MAX)?;
        let rest = fields(rest, self.fields, &mut values[self.count..])?;
        let closed = word(rest, b")")?;
        if !closed.is_empty() {
            return None;
        }
        Some(Form {
            kind: self.kind,
            values,
        })
    }
}

// A line by its opening word; None if it is unreadable.
pub fn read_line(line: &[u8]) -> Option<Form>
    ensures { line_in result ≡ read_line line.now }
{
    for shape in &SHAPES {
        if let Some(behind) = word(line, shape.opening) {
            return shape.read(behind);
        }
    }
    None
}
