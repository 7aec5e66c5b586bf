// One line of extplan's input, taken into what was read before it.
#![tactic(auto, unfolding(crate::specs::Order::next, crate::specs::Taking::begin, crate::specs::Taking::taken, crate::specs::Taking::taken_to, crate::specs::Taking::fault))]

ghost use Rattle.std.specs.Prelude.{◌≡◌, MatchResult};
ghost use Rattle.read_order.specs.Taking.{volume_of, file_of, begin, fault};
ghost use Rattle.read_order.specs.Numbers.{numbers, range_in, span_in, Takes};
ghost use Rattle.read_order.specs.Few.{Few};

use clone_span::CloneRange;
use read_line::{Form, Kind};
use request::{File, Range, Volume};

// What is asked for. A fallocate may keep the size; a clone takes from its own file or from another.
#[derive(Clone, Copy)]
pub enum Request {
    Punch(Range),
    Fallocate(Range, bool),
    Clone(CloneRange),
    CloneFrom(CloneRange, File),
}

// How far the input has come: `File` and `Source`, a clone's second file, go with items of theirs.
#[derive(Clone, Copy)]
pub enum Phase {
    Nothing,
    Volume,
    File,
    Source(File),
    Extents,
    SourceExtents(File),
    Places,
    Request(Request),
}

// What was read: how far the input has come, the number of the next line, the volume and the file, and how many items of the
// file, item lines, rows and places were stored.
#[derive(Clone, Copy)]
pub struct Read {
    pub phase: Phase,
    pub line: usize,
    pub volume: Volume,
    pub file: File,
    pub items: usize,
    pub stored: usize,
    pub rows: usize,
    pub places: usize,
}

// Where there is none.
pub const NO_FILE: File = File {
    number: 0,
    size: 0,
    nodatacow: false,
};

fn volume_of(v: [u64; 12]) -> Volume
    ensures { result ≡ volume_of v }
{
    Volume {
        sector: v[0],
        total: v[1],
        generation: v[2],
        snapshot: v[3],
    }
}

fn file_of(v: [u64; 12]) -> File
    ensures { result ≡ file_of v }
{
    File {
        number: v[0],
        size: v[1],
        nodatacow: v[2] == 0,
    }
}

fn range_of(v: [u64; 12]) -> Range
    ensures { result ≡ range_in v }
{
    Range {
        offset: v[0],
        length: v[1],
    }
}

fn span_of(v: [u64; 12]) -> CloneRange
    ensures { result ≡ span_in v }
{
    CloneRange {
        from: v[0],
        to: v[1],
        length: v[2],
    }
}

// Before the first line.
pub fn begin() -> Read
    ensures { numbers result ≡ begin }
{
    Read {
        phase: Phase::Nothing,
        line: 1,
        volume: Volume {
            sector: 0,
            total: 0,
            generation: 0,
            snapshot: 0,
        },
        file: NO_FILE,
        items: 0,
        stored: 0,
        rows: 0,
        places: 0,
    }
}

// What is read after a line; None: no right input goes on with it.
pub fn taken(r: Read, line: Form) -> Option<Read>
    requires { Few (numbers r) 65537 }
    ensures { Takes r line result }
{
    let v = line.values;
    let read = Read {
        line: r.line + 1,
        ..r
    };
    match (r.phase, line.kind) {
        (Phase::Nothing, Kind::Volume) => Some(Read {
            phase: Phase::Volume,
            volume: volume_of(v),
            ..read
        }),
        (Phase::Volume, Kind::File) => Some(Read {
            phase: Phase::File,
            file: file_of(v),
            ..read
        }),
        (Phase::File, Kind::File) => Some(Read {
            phase: Phase::Source(file_of(v)),
            ..read
        }),
        (Phase::File, Kind::Item) => Some(Read {
            items: r.items + 1,
            stored: r.stored + 1,
            ..read
        }),
        (Phase::Source(_), Kind::Item) => Some(Read {
            stored: r.stored + 1,
            ..read
        }),
        (Phase::File | Phase::Extents, Kind::Extent) => Some(Read {
            phase: Phase::Extents,
            rows: r.rows + 1,
            ..read
        }),
        (Phase::Source(file) | Phase::SourceExtents(file), Kind::Extent) => Some(Read {
            phase: Phase::SourceExtents(file),
            rows: r.rows + 1,
            ..read
        }),
        (Phase::File | Phase::Extents | Phase::Places, Kind::Place) => Some(Read {
            phase: Phase::Places,
            places: r.places + 1,
            ..read
        }),
        (Phase::File | Phase::Extents | Phase::Places, Kind::Punch) => Some(Read {
            phase: Phase::Request(Request::Punch(range_of(v))),
            ..read
        }),
        (Phase::File | Phase::Extents | Phase::Places, Kind::Fallocate) => Some(Read {
            phase: Phase::Request(Request::Fallocate(range_of(v), v[2] == 1)),
            ..read
        }),
        (Phase::File | Phase::Extents, Kind::Clone) => Some(Read {
            phase: Phase::Request(Request::Clone(span_of(v))),
            ..read
        }),
        (Phase::Source(file) | Phase::SourceExtents(file), Kind::Clone) => Some(Read {
            phase: Phase::Request(Request::CloneFrom(span_of(v), file)),
            ..read
        }),
        _ => None,
    }
}

// The request; where there is none, the number of the line at fault.
pub fn asked(r: Read) -> Result<Request, usize>
    ensures { MatchResult result (λ q. (r.phase ≡ Phase.Request q) × (fault (numbers r) ≡ 0)) (λ n. (n ≡ r.line) × (fault (numbers r) ≡ n)) }
{
    match r.phase {
        Phase::Request(request) => Ok(request),
        _ => Err(r.line),
    }
}
