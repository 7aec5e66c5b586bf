// Cases of a clone: the worked examples P10 and P11, and others. The source is the worked examples' file, 257.
use crate::lent::{LAST_GENERATION, VOLUME, file, item, list, list_of, room, row};
use crate::print::{self, BLANK};
use clone_span::CloneRange;
use item::Item;
use plan_def::Outputs;
use request::{File, Lent, Volume};
use std::io;

// A clone, all that it is lent, and how many bytes of room there are for edits.
#[derive(Clone, Copy)]
struct Case<'a> {
    volume: Volume,
    dst: File,
    src: File,
    own: bool,
    span: CloneRange,
    list: &'a [u8],
    shared: &'a [u8],
    source: &'a [u8],
    table: &'a [u64],
    edits: usize,
}

// Runs the clone and prints its answer and outputs.
fn run(rt: &impl Print, name: &str, c: Case<'_>) -> io::Result<()> {
    let mut edits = [BLANK; 426];
    let mut shares = [BLANK as u64; 8];
    let mut unrefs = [BLANK as u64; 8];
    let mut releases = [BLANK as u64; 8];
    let lent = Lent {
        volume: c.volume,
        file: c.dst,
        list: c.list,
        shared: c.shared,
        table: c.table,
    };
    let mut out = Outputs {
        edits: room(&mut edits, c.edits),
        shares: &mut shares,
        unrefs: &mut unrefs,
        releases: &mut releases,
        adds: &mut [],
        writes: &mut [],
    };
    let answer = clone::clone_range(lent, c.src, c.own, c.source, c.span, &mut out);
    print!(rt; "{name}")?;
    print::answer(rt, answer)?;
    print::outputs(rt, answer, &out)
}

fn span(from: u64, to: u64, length: u64) -> CloneRange {
    CloneRange { from, to, length }
}

// ---- into another file, 258

fn other(size: u64) -> File {
    File {
        number: 258,
        ..file(size)
    }
}

// An item of file 258.
fn other_item(key: u64, kind: u64, start: u64, length: u64, position: u64, window: u64) -> Item {
    Item {
        file: 258,
        ..item(key, kind, start, length, position, window)
    }
}

// Its one item, of this kind, over an extent of its own.
fn other_list(kind: u64) -> [u8; 70] {
    list(&[other_item(0, kind, 4194304, 16384, 0, 16384)])
}

// The rows of both files' extents; the source's of this length, keyed or not.
fn rows(bytes: u64, keyed: u64) -> [u64; 10] {
    [1048576, bytes, 1, 5, keyed, 4194304, 16384, 1, 5, 0]
}

// The whole of the source into a file without items, of size 0.
fn into_empty<'a>(source: &'a [u8], table: &'a [u64]) -> Case<'a> {
    Case {
        volume: VOLUME,
        dst: other(0),
        src: file(16384),
        own: false,
        span: span(0, 0, 16384),
        list: &[],
        shared: &[],
        source,
        table,
        edits: 284,
    }
}

// Into a file of 16384 bytes with one item.
fn into_other<'a>(list: &'a [u8], source: &'a [u8], table: &'a [u64]) -> Case<'a> {
    Case {
        dst: other(16384),
        list,
        shared: &[0],
        ..into_empty(source, table)
    }
}

// Within the worked examples' file, of this size.
fn within<'a>(list: &'a [u8], table: &'a [u64], size: u64, span: CloneRange) -> Case<'a> {
    Case {
        dst: file(size),
        src: other(0),
        own: true,
        span,
        shared: &[0],
        list,
        ..into_empty(&[], table)
    }
}

fn into_others(rt: &impl Print) -> io::Result<()> {
    let (source, hole, list, table) = (
        list_of(1, 1048576),
        list_of(1, 0),
        other_list(1),
        rows(16384, 0),
    );
    let base = into_empty(&source, &table);
    let one = into_other(&list, &source, &table);
    run(rt, "whole", base)?;
    run(
        rt,
        "P11",
        Case {
            span: span(4096, 0, 8192),
            ..base
        },
    )?;
    run(
        rt,
        "to the end",
        Case {
            span: span(8192, 16384, 0),
            ..base
        },
    )?;
    run(
        rt,
        "split",
        Case {
            span: span(0, 4096, 4096),
            ..one
        },
    )?;
    run(rt, "released", one)?;
    run(
        rt,
        "leaf shared",
        Case {
            shared: &[1],
            ..one
        },
    )?;
    run(
        rt,
        "holes only",
        Case {
            source: &hole,
            table: &[],
            edits: 70,
            ..base
        },
    )
}

// Three items of the source, of two extents, over two of the destination: one that is cut behind, and one whose key a copy has.
fn several_items(rt: &impl Print) -> io::Result<()> {
    let source: [u8; 210] = list(&[
        item(0, 1, 1048576, 16384, 0, 8192),
        item(8192, 1, 2097152, 4096, 0, 4096),
        item(12288, 1, 1048576, 16384, 8192, 4096),
    ]);
    let list: [u8; 140] = list(&[
        other_item(0, 1, 4194304, 8192, 0, 8192),
        other_item(8192, 1, 5242880, 4096, 0, 4096),
    ]);
    let table = [
        1048576, 16384, 2, 5, 0, 2097152, 4096, 2, 5, 0, 4194304, 8192, 1, 5, 0, 5242880, 4096, 1,
        5, 0,
    ];
    let base = into_other(&list, &source, &table);
    run(
        rt,
        "several items",
        Case {
            span: span(4096, 4096, 12288),
            shared: &[0; 2],
            edits: 355,
            ..base
        },
    )
}

// Two items of one extent that go, at keys that no copy has.
fn two_deletes(rt: &impl Print) -> io::Result<()> {
    let source = list_of(1, 1048576);
    let list: [u8; 140] = list(&[
        other_item(4096, 1, 4194304, 8192, 0, 4096),
        other_item(12288, 1, 4194304, 8192, 4096, 4096),
    ]);
    let table = [1048576, 16384, 1, 5, 0, 4194304, 8192, 2, 5, 0];
    run(
        rt,
        "two deletes",
        Case {
            shared: &[0; 2],
            ..into_other(&list, &source, &table)
        },
    )
}

fn within_one(rt: &impl Print) -> io::Result<()> {
    let (list, table) = (list_of(1, 1048576), row(16384, 0));
    run(
        rt,
        "within one file",
        within(&list, &table, 16384, span(0, 16384, 8192)),
    )?;
    run(
        rt,
        "touching",
        within(&list, &table, 16384, span(0, 8192, 8192)),
    )
}

// ---- refusals

// 19 to 22, nothing, 6, 23 to 25.
fn range_refusals(rt: &impl Print) -> io::Result<()> {
    let (source, table, own) = (list_of(1, 1048576), rows(16384, 0), row(16384, 0));
    let base = into_empty(&source, &table);
    run(
        rt,
        "start past the end",
        Case {
            span: span(16385, 1, 1),
            ..base
        },
    )?;
    run(
        rt,
        "end past the end",
        Case {
            span: span(16383, 1, 2),
            ..base
        },
    )?;
    run(
        rt,
        "P10 size 100",
        within(&source, &own, 100, span(100, 32768, 0)),
    )?;
    run(
        rt,
        "length inside",
        Case {
            span: span(0, 0, 100),
            ..base
        },
    )?;
    run(
        rt,
        "P10",
        within(&source, &own, 16384, span(16384, 32768, 0)),
    )?;
    run(
        rt,
        "nothing before 6",
        Case {
            span: span(16384, 9223372036854775808, 0),
            ..base
        },
    )?;
    run(
        rt,
        "largest offset",
        Case {
            span: span(0, 9223372036854771712, 4096),
            ..base
        },
    )?;
    run(
        rt,
        "partial sector inside",
        within(&source, &own, 8193, span(8192, 4096, 1)),
    )?;
    run(
        rt,
        "overlap",
        within(&source, &own, 16384, span(0, 4096, 8192)),
    )?;
    run(
        rt,
        "growing inside a sector",
        within(&source, &own, 100, span(0, 4096, 100)),
    )
}

// 7, 8.
fn record_refusals(rt: &impl Print) -> io::Result<()> {
    let (source, inline, third, table) = (
        list_of(1, 1048576),
        other_list(0),
        other_list(3),
        rows(16384, 0),
    );
    let base = Case {
        span: span(0, 4096, 4096),
        ..into_other(&inline, &source, &table)
    };
    run(rt, "inline destination", base)?;
    run(
        rt,
        "destination of kind 3",
        Case {
            list: &third,
            ..base
        },
    )
}

// 2, 13.
fn lent_refusals(rt: &impl Print) -> io::Result<()> {
    let (source, table) = (list_of(1, 1048576), rows(16384, 0));
    let base = into_empty(&source, &table);
    run(
        rt,
        "second list of one number",
        Case {
            src: other(16384),
            ..base
        },
    )?;
    run(
        rt,
        "last generation",
        Case {
            volume: LAST_GENERATION,
            ..base
        },
    )
}

// 14, 15, 17, 27.
fn table_refusals(rt: &impl Print) -> io::Result<()> {
    let (source, table, keyed, short) = (
        list_of(1, 1048576),
        rows(16384, 0),
        rows(16384, 1),
        rows(12288, 0),
    );
    let base = into_empty(&source, &table);
    run(rt, "no row", Case { table: &[], ..base })?;
    run(
        rt,
        "keyed",
        Case {
            table: &keyed,
            ..base
        },
    )?;
    run(
        rt,
        "window outside",
        Case {
            table: &short,
            ..base
        },
    )?;
    run(rt, "edits too short", Case { edits: 70, ..base })
}

pub fn all(rt: &impl Print) -> io::Result<()> {
    into_others(rt)?;
    several_items(rt)?;
    two_deletes(rt)?;
    within_one(rt)?;
    range_refusals(rt)?;
    record_refusals(rt)?;
    lent_refusals(rt)?;
    table_refusals(rt)
}
