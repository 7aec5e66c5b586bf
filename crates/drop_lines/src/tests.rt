ghost use Rattle.std.specs.Prelude.{◌/◌, ◌≤◌, ◌<◌, length};

use super::*;
use drop_chains::Chain;

// The chains of all rows, as `put_sized` makes them: the keys of the first three drops of the first row, and the lines of all, by the
// function that asks for a kept table and for numbers that all lead onward.
fn walk_and_put(
    c: Cut,
    leaves: Leaves,
    table: Table,
    unrefs: &mut [u64],
    releases: &mut [u64],
) -> ([Option<u64>; 3], DropCounts)
    requires { (0 < length table.numbers.now / 5) × (length table.numbers.now / 5 ≤ 4) × (length leaves.list.now / 70 ≤ 4) }
{
    let mut heads = [0u32; 4];
    let mut nexts = [0u32; 4];
    let mut chains = Chains {
        heads: &mut heads,
        nexts: &mut nexts,
        span: table.numbers.len() / table::WIDTH..0,
    };
    link(c, leaves, table, &mut chains);
    let none = DropCounts {
        unrefs: 0,
        releases: 0,
    };
    let counts = chains.put_lines(leaves, table, unrefs, releases, none);
    let number = chains.heads[0] as usize;
    let nexts = &chains.nexts[..];
    let mut keys = Chain {
        leaves,
        nexts,
        number,
    }
    .map(|(item, _)| item.key);
    ([keys.next(), keys.next(), keys.next()], counts)
}

// Three items are dropped: both references of one extent, and one of the two of another.
#[test]
fn lines_by_row(rt: HostRuntime) {
    let mut list = [0u8; 210];
    item::put_item(
        &mut list,
        0,
        Item::regular_extent_item(257, 0, 7, 1048576, 8192),
    );
    item::put_item(
        &mut list,
        70,
        Item::regular_extent_item(257, 8192, 7, 2097152, 8192),
    );
    item::put_item(
        &mut list,
        140,
        Item::regular_extent_item(257, 16384, 7, 1048576, 8192),
    );
    let leaves = Leaves {
        list: &list,
        shared: &[0; 3],
    };
    let numbers = [1048576, 8192, 2, 7, 0, 2097152, 8192, 2, 7, 0];
    assert!(rt; table::table_refusal(&numbers).is_ok());
    let table = Table { numbers: &numbers };
    let all = Cut {
        lo: 0,
        hi: 24576,
        one: 0,
        two: 0,
    };
    let (mut unrefs, mut releases) = ([9u64; 4], [9u64; 6]);
    let (keys, counts) = walk_and_put(all, leaves, table, &mut unrefs, &mut releases);
    assert_eq!(rt; keys, [Some(0), Some(16384), None]);
    assert_eq!(rt; (counts.unrefs, counts.releases), (1, 2));
    assert_eq!(rt; unrefs, [2097152, 8192, 9, 9]);
    assert_eq!(rt; releases, [1048576, 0, 1048576, 16384, 9, 9]);
}
