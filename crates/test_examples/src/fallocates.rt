// Cases of a fallocate: the worked examples P5 to P9, and others.
use crate::lent::{Case, LAST_GENERATION, VOLUME, file, item, list, list_of, range, row, run};
use request::{File, Volume};
use std::io;
use test_call::Operation;

const ALLOC: Operation = Operation::Fallocate(false);

const KEEP: Operation = Operation::Fallocate(true);

// A fallocate of the worked examples' file, with this item and row: of its size, with no place lent.
fn whole<'a>(list: &'a [u8], table: &'a [u64]) -> Case<'a> {
    Case {
        operation: ALLOC,
        volume: VOLUME,
        file: file(16384),
        range: range(0, 16384),
        list,
        shared: &[0],
        table,
        places: &[],
        edits: 426,
        adds: 18,
    }
}

// Of a file of size 0 without items.
fn empty<'a>(length: u64, places: &'a [u64]) -> Case<'a> {
    Case {
        file: file(0),
        range: range(0, length),
        shared: &[],
        places,
        ..whole(&[], &[])
    }
}

// A file of two items of one extent, at 4096 and at 16384, a sector each.
fn two_items() -> [u8; 140] {
    list(&[
        item(4096, 1, 1048576, 8192, 0, 4096),
        item(16384, 1, 1048576, 8192, 4096, 4096),
    ])
}

const TWO_ROW: [u64; 5] = [1048576, 8192, 2, 5, 0];

// A fallocate of it, of this size, from 0 on.
fn two<'a>(list: &'a [u8], size: u64, length: u64, places: &'a [u64]) -> Case<'a> {
    Case {
        file: file(size),
        range: range(0, length),
        shared: &[0; 2],
        places,
        ..whole(list, &TWO_ROW)
    }
}

// ---- the cases

fn worked(rt: &impl Print) -> io::Result<()> {
    let (list, table) = (list_of(1, 1048576), row(16384, 0));
    let base = whole(&list, &table);
    let one = Case {
        places: &[4194304],
        ..base
    };
    run(
        rt,
        "P5",
        Case {
            range: range(16384, 1),
            ..one
        },
    )?;
    run(rt, "P6", base)?;
    run(
        rt,
        "P7",
        Case {
            range: range(4096, 0),
            ..base
        },
    )?;
    run(
        rt,
        "P8 length 1",
        Case {
            range: range(9223372036854775806, 1),
            ..one
        },
    )?;
    run(
        rt,
        "P8 length 2",
        Case {
            range: range(9223372036854775806, 2),
            ..one
        },
    )?;
    run(rt, "P9 268435456", empty(268435456, &[4194304]))?;
    run(rt, "P9 268435457", empty(268435457, &[4194304, 272629760]))
}

// The size at the end of a sector: it is moved, or kept.
fn sizes(rt: &impl Print) -> io::Result<()> {
    let (list, table) = (list_of(1, 1048576), row(16384, 0));
    let past = Case {
        range: range(16384, 5000),
        places: &[4194304],
        ..whole(&list, &table)
    };
    run(rt, "past the size", past)?;
    run(
        rt,
        "past the size, kept",
        Case {
            operation: KEEP,
            ..past
        },
    )
}

// The size inside a sector, which is rewritten if the range ends past the size.
fn old_ends(rt: &impl Print) -> io::Result<()> {
    let (list, preallocated, table) = (list_of(1, 1048576), list_of(2, 1048576), row(16384, 0));
    let base = Case {
        file: file(16000),
        range: range(15000, 8000),
        places: &[4194304, 8388608],
        ..whole(&list, &table)
    };
    run(rt, "old end", base)?;
    run(
        rt,
        "old end, kept",
        Case {
            operation: KEEP,
            ..base
        },
    )?;
    run(
        rt,
        "old end in place",
        Case {
            list: &preallocated,
            places: &[4194304],
            ..base
        },
    )
}

// Its sector outside the range, the range up to the size and one byte past it, and no item at all.
fn old_end_edges(rt: &impl Print) -> io::Result<()> {
    let (list, table) = (list_of(1, 1048576), row(16384, 0));
    let base = Case {
        file: file(16000),
        ..whole(&list, &table)
    };
    run(
        rt,
        "old end outside",
        Case {
            range: range(32768, 4096),
            places: &[4194304, 8388608],
            ..base
        },
    )?;
    run(
        rt,
        "old end reached",
        Case {
            range: range(12288, 3712),
            ..base
        },
    )?;
    run(
        rt,
        "old end passed",
        Case {
            range: range(12288, 3713),
            places: &[4194304],
            ..base
        },
    )?;
    run(
        rt,
        "old end in a hole",
        Case {
            file: file(5000),
            ..empty(8192, &[4194304, 8388608])
        },
    )
}

// Pieces before, between and behind items; the old end's sector is the second item whole.
fn between_items(rt: &impl Print) -> io::Result<()> {
    let list = two_items();
    run(
        rt,
        "between items",
        two(&list, 20480, 24576, &[4194304, 8388608, 12582912]),
    )?;
    run(
        rt,
        "between items, old end",
        two(&list, 20000, 24576, &[4194304, 8388608, 12582912, 16777216]),
    )
}

// 10 and 11, and what is near to them.
fn item_refusals(rt: &impl Print) -> io::Result<()> {
    let (regular, preallocated, hole, table) = (
        list_of(1, 1048576),
        list_of(2, 1048576),
        list_of(1, 0),
        row(16384, 0),
    );
    let list = two_items();
    let base = whole(&regular, &table);
    let holed = Case {
        list: &hole,
        ..base
    };
    run(
        rt,
        "hole record in the range",
        Case {
            range: range(0, 4096),
            ..holed
        },
    )?;
    run(
        rt,
        "hole record outside",
        Case {
            range: range(16384, 4096),
            places: &[4194304],
            ..holed
        },
    )?;
    run(rt, "regular at the size", two(&list, 16384, 24576, &[]))?;
    run(rt, "regular past the size", two(&list, 12288, 24576, &[]))?;
    run(
        rt,
        "regular past the range",
        two(&list, 8192, 16384, &[4194304, 4198400]),
    )?;
    run(
        rt,
        "regular reaching past the size",
        Case {
            file: file(4096),
            ..base
        },
    )?;
    run(
        rt,
        "preallocated at the size",
        Case {
            file: file(0),
            list: &preallocated,
            ..base
        },
    )
}

// 12, at its limit.
fn volume_refusals(rt: &impl Print) -> io::Result<()> {
    let volume = Volume {
        total: 8192,
        ..VOLUME
    };
    run(
        rt,
        "holes of the volume's bytes",
        Case {
            volume,
            ..empty(8192, &[4194304])
        },
    )?;
    run(
        rt,
        "one sector more",
        Case {
            volume,
            ..empty(12288, &[4194304])
        },
    )
}

// 13, due for a plan without edits too, and 16.
fn change_refusals(rt: &impl Print) -> io::Result<()> {
    let (list, table) = (list_of(1, 1048576), row(16384, 0));
    let base = whole(&list, &table);
    let nodatacow = File {
        nodatacow: true,
        ..file(16000)
    };
    run(
        rt,
        "last generation",
        Case {
            volume: LAST_GENERATION,
            ..base
        },
    )?;
    run(
        rt,
        "nodatacow",
        Case {
            file: nodatacow,
            range: range(15000, 8000),
            places: &[4194304, 8388608],
            ..base
        },
    )
}

// 26; places that only touch stand above.
fn place_refusals(rt: &impl Print) -> io::Result<()> {
    let (list, table, items) = (list_of(1, 1048576), row(16384, 0), two_items());
    let base = whole(&list, &table);
    let past = Case {
        range: range(16384, 1),
        ..base
    };
    run(rt, "place missing", past)?;
    run(
        rt,
        "place too many",
        Case {
            places: &[4194304],
            ..base
        },
    )?;
    run(
        rt,
        "places meet",
        two(&items, 8192, 16384, &[4194304, 4198399]),
    )?;
    run(
        rt,
        "place in a table extent",
        Case {
            places: &[1064959],
            ..past
        },
    )
}

// 27, at its limit: of two edits and two adds.
fn room_refusals(rt: &impl Print) -> io::Result<()> {
    let list = two_items();
    let base = Case {
        edits: 142,
        adds: 6,
        ..two(&list, 8192, 16384, &[4194304, 8388608])
    };
    run(rt, "just enough room", base)?;
    run(rt, "adds too short", Case { adds: 5, ..base })?;
    run(rt, "edits too short", Case { edits: 141, ..base })
}

// A hole of 2^63 bytes, 2^35 pieces: 26, at once.
fn largest(rt: &impl Print) -> io::Result<()> {
    let volume = Volume {
        total: u64::MAX,
        ..VOLUME
    };
    let base = empty(9223372036854775807, &[4194304]);
    run(rt, "2^63 bytes, sector 4096", Case { volume, ..base })?;
    run(
        rt,
        "2^63 bytes, sector 65536",
        Case {
            volume: Volume {
                sector: 65536,
                ..volume
            },
            ..base
        },
    )
}

pub fn all(rt: &impl Print) -> io::Result<()> {
    worked(rt)?;
    sizes(rt)?;
    old_ends(rt)?;
    old_end_edges(rt)?;
    between_items(rt)?;
    item_refusals(rt)?;
    volume_refusals(rt)?;
    change_refusals(rt)?;
    place_refusals(rt)?;
    room_refusals(rt)?;
    largest(rt)
}
