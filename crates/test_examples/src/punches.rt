// Cases of a punch: the worked examples P1 to P4, P7, P8 and P12, and others.
use crate::lent::{Case, LAST_GENERATION, VOLUME, file, item, list, list_of, range, row, run};
use request::{File, Volume};
use std::io;
use test_call::Operation;

// A punch of the worked examples' file, with this item and row: its second sector, with no place lent.
fn second_sector<'a>(list: &'a [u8], table: &'a [u64]) -> Case<'a> {
    Case {
        operation: Operation::Punch,
        volume: VOLUME,
        file: file(16384),
        range: range(4096, 4096),
        list,
        shared: &[0],
        table,
        places: &[],
        edits: 426,
        adds: 18,
    }
}

fn worked(rt: &impl Print) -> io::Result<()> {
    let (regular, preallocated, table) = (list_of(1, 1048576), list_of(2, 1048576), row(16384, 0));
    let base = second_sector(&regular, &table);
    run(rt, "P1", base)?;
    run(
        rt,
        "P2",
        Case {
            range: range(0, 16384),
            ..base
        },
    )?;
    run(
        rt,
        "P3",
        Case {
            range: range(100, 50),
            places: &[4194304],
            ..base
        },
    )?;
    run(
        rt,
        "P4",
        Case {
            range: range(16384, 4096),
            ..base
        },
    )?;
    run(
        rt,
        "P7",
        Case {
            range: range(4096, 0),
            ..base
        },
    )?;
    run(
        rt,
        "P8 length 1",
        Case {
            range: range(9223372036854775806, 1),
            ..base
        },
    )?;
    run(
        rt,
        "P8 length 2",
        Case {
            range: range(9223372036854775806, 2),
            ..base
        },
    )?;
    run(
        rt,
        "P12",
        Case {
            range: range(100, 50),
            list: &preallocated,
            ..base
        },
    )
}

// A punch over two items of one extent, which goes, and one of another, which someone else holds too.
fn three_items(rt: &impl Print) -> io::Result<()> {
    let list: [u8; 210] = list(&[
        item(0, 1, 1048576, 16384, 0, 8192),
        item(8192, 1, 2097152, 4096, 0, 4096),
        item(12288, 1, 1048576, 16384, 8192, 4096),
    ]);
    let table = [1048576, 16384, 2, 5, 0, 2097152, 4096, 2, 5, 0];
    let base = second_sector(&list, &table);
    run(
        rt,
        "three items",
        Case {
            range: range(0, 16384),
            shared: &[0; 3],
            ..base
        },
    )
}

// Refusals beyond the worked examples', in the order of their numbers: 1, 3, 4, 7.
fn early_refusals(rt: &impl Print) -> io::Result<()> {
    let (regular, inline, table, empty) = (
        list_of(1, 1048576),
        list_of(0, 1048576),
        row(16384, 0),
        row(0, 0),
    );
    let base = second_sector(&regular, &table);
    run(
        rt,
        "shared byte 2",
        Case {
            shared: &[2],
            ..base
        },
    )?;
    run(
        rt,
        "row of length 0",
        Case {
            table: &empty,
            ..base
        },
    )?;
    run(
        rt,
        "sector 0",
        Case {
            volume: Volume {
                sector: 0,
                ..VOLUME
            },
            ..base
        },
    )?;
    run(
        rt,
        "inline",
        Case {
            list: &inline,
            ..base
        },
    )
}

// 13, 15, 16, 26, 27.
fn late_refusals(rt: &impl Print) -> io::Result<()> {
    let (regular, table, keyed) = (list_of(1, 1048576), row(16384, 0), row(16384, 1));
    let base = second_sector(&regular, &table);
    let inside = Case {
        range: range(100, 50),
        ..base
    };
    run(
        rt,
        "last generation",
        Case {
            volume: LAST_GENERATION,
            ..base
        },
    )?;
    run(
        rt,
        "keyed",
        Case {
            table: &keyed,
            ..base
        },
    )?;
    run(
        rt,
        "nodatacow",
        Case {
            file: File {
                nodatacow: true,
                ..file(16384)
            },
            ..inside
        },
    )?;
    run(rt, "place missing", inside)?;
    run(rt, "edits too short", Case { edits: 141, ..base })
}

pub fn all(rt: &impl Print) -> io::Result<()> {
    worked(rt)?;
    three_items(rt)?;
    early_refusals(rt)?;
    late_refusals(rt)
}
