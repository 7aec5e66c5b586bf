// Drops chained by row, through arrays, in list order: whether those of a row free its extent, and a line for each. A number
// in the arrays is an index and one more, and 0 ends a chain: numbers of 32 bits in arrays that are lent, as there is no heap, and
// as half the memory is half the time to zero it.
#![tactic(auto)]

pub mod chain;
pub mod ending;

ghost use Rattle.std.specs.Prelude.{◌≡◌, Bool, List, ℕ, [], ◌∷◌, map, ◌+◌, ◌≤◌, ◌<◌, ◌^◌, length};
ghost use Rattle.std.specs.Iterator.{IsFinite};
ghost use Rattle.std.proofs.lemmas.Iterator.{YieldsList};
ghost use Rattle.records.specs.Lent.{old, new};
ghost use Rattle.item.specs.Items.{Fields, fields};
ghost use Rattle.table.specs.Rows.{rows, find};
ghost use Rattle.cut_def.specs.Refs.{ref_of};
ghost use Rattle.plan_def.specs.Outputs.{ref_numbers};
ghost use Rattle.plan_lines.specs.Lines.{Laid};
ghost use Rattle.ref_def.specs.Drops.{releases as all_releases, unrefs as all_unrefs};
ghost use Rattle.ref_def.specs.Lent.{leaves_of};
ghost use Rattle.drop_chains.specs.Chains.{byte, byte_in, freed, line_in, unref_lines, release_lines};
ghost use Rattle.drop_chains.specs.Links.{drops_by, links, linked, Chained, Linked};
ghost use Rattle.drop_chains.specs.Reading.{left_ending};

pub use chain::Chain;
pub use ending::EndingChain;
use item::Item;
use ref_def::Leaves;
use std::ops::Range;
use table::Table;

// How many lines of drops there are: unrefs, and releases.
#[derive(Clone, Copy)]
pub struct DropCounts {
    pub unrefs: usize,
    pub releases: usize,
}

// Whether the drops of an extent free it, by their shared bytes: they are all its references, and none of their leaves is shared.
pub fn is_freed<I: Iterator<Item = u8> + Drop>(references: u64, bytes: I) -> bool
    requires can { I.can_next bytes }
    requires ends { IsFinite (I.remaining bytes) }
    requires few { (bs : List ℕ) × YieldsList I.next_gives byte bytes bs × (length bs < 2 ^ 64) }
    ensures { (bs : List ℕ) → YieldsList I.next_gives byte bytes bs → result ≡ freed references bs }
{
    let mut drops: u64 = 0;
    for byte in bytes {
        if byte != 0 {
            return false;
        }
        drops += 1;
    }
    references == drops
}

// Whether the drops of a chain do.
fn is_chain_freed(references: u64, chain: EndingChain) -> bool
    ensures { result ≡ freed references (map byte_in (left_ending chain.entry)) }
{
    is_freed(references, chain.map(|(_, byte)| byte))
}

// A line for each drop of a chain.
fn put_all(chain: EndingChain, out: &mut [u64], n: usize) -> usize
    requires { n + length (left_ending chain) < 2 ^ 64 }
    ensures { Laid ref_numbers 2 n (map line_in (left_ending chain.entry)) out.old result out.new }
{
    plan_lines::put_refs(chain.map(|(item, _)| item), out, n)
}

// The lines of a chain: releases if its drops free their extent, else unrefs.
pub fn put_chain(
    references: u64,
    chain: EndingChain,
    unrefs: &mut [u64],
    releases: &mut [u64],
    at: DropCounts,
) -> DropCounts
    requires { (at.unrefs + length (unref_lines references (left_ending chain)) < 2 ^ 64) × (at.releases + length (release_lines references (left_ending chain)) < 2 ^ 64) }
    ensures unrefs { Laid ref_numbers 2 at.unrefs (unref_lines references (left_ending chain.entry)) unrefs.old result.unrefs unrefs.new }
    ensures releases { Laid ref_numbers 2 at.releases (release_lines references (left_ending chain.entry)) releases.old result.releases releases.new }
{
    if is_chain_freed(references, chain) {
        let n = put_all(chain, releases, at.releases);
        return DropCounts { releases: n, ..at };
    }
    let n = put_all(chain, unrefs, at.unrefs);
    DropCounts { unrefs: n, ..at }
}

// ---- the chains of all rows

// The number of each row's first drop, what stands at each drop, and a range with all rows that have one.
#[derive(Drop)]
pub struct Chains<'a> {
    pub heads: &'a mut [u32],
    pub nexts: &'a mut [u32],
    pub span: Range<usize>,
}

impl<'a> Chains<'a> {
    // Item i put before the chain of its row, if it has one.
    #[tactic(auto, using(table::proofs::Laws::found_below))]
    pub fn link(&mut self, table: Table, item: Item, i: usize)
        requires { (length (rows table.numbers.now) ≤ length self.old.heads.now) × (i < length self.old.nexts.now) × (i < 65536) }
        ensures { links self.new ≡ linked (find (fields item).extent_start (rows table.entry.numbers.now)) i (links self.old) }
    {
        let Some((k, _)) = table.find_row(item.extent_start()) else {
            return;
        };
        self.nexts[i] = self.heads[k];
        self.heads[k] = (i + 1) as u32;
        self.span = self.span.start.min(k)..self.span.end.max(k + 1);
    }
    // The lines of all rows, by the chains of their drops. The table need not be kept, and at items that no chain passes any number
    // may stand.
    pub fn put_rows(
        &self,
        leaves: Leaves,
        table: &[u64],
        unrefs: &mut [u64],
        releases: &mut [u64],
        at: DropCounts,
    ) -> DropCounts
        requires { (p : Fields → Bool) × Chained p (rows table.now) (leaves_of leaves) 0 (links self.now)
            × (at.unrefs + length (all_unrefs (rows table.now) (drops_by p (leaves_of leaves))) < 2 ^ 64)
            × (at.releases + length (all_releases (rows table.now) (drops_by p (leaves_of leaves))) < 2 ^ 64) }
        ensures unrefs { (p : Fields → Bool) → Chained p (rows table.now) (leaves_of leaves.entry) 0 (links self.now)
            → Laid ref_numbers 2 at.unrefs (all_unrefs (rows table.now) (drops_by p (leaves_of leaves.entry))) unrefs.old result.unrefs unrefs.new }
        ensures releases { (p : Fields → Bool) → Chained p (rows table.now) (leaves_of leaves.entry) 0 (links self.now)
            → Laid ref_numbers 2 at.releases (all_releases (rows table.now) (drops_by p (leaves_of leaves.entry))) releases.old result.releases releases.new }
    {
        let mut counts = at;
        // k picks the row and the head of its chain.
        for k in self.span.start..self.span.end {
            let row = table::row_at(table, k);
            let number = self.heads[k] as usize;
            let nexts = &self.nexts[..];
            let chain = EndingChain {
                leaves,
                nexts,
                number,
            };
            counts = put_chain(row.references, chain, unrefs, releases, counts);
        }
        counts
    }

    // The same of a table that is kept, where each number leads onward.
    pub fn put_lines(
        &self,
        leaves: Leaves,
        table: Table,
        unrefs: &mut [u64],
        releases: &mut [u64],
        at: DropCounts,
    ) -> DropCounts
        requires { (p : Fields → Bool) × Linked p (rows table.numbers.now) (leaves_of leaves) 0 (links self.now)
            × (at.unrefs + length (all_unrefs (rows table.numbers.now) (drops_by p (leaves_of leaves))) < 2 ^ 64)
            × (at.releases + length (all_releases (rows table.numbers.now) (drops_by p (leaves_of leaves))) < 2 ^ 64) }
        ensures unrefs { (p : Fields → Bool) → Linked p (rows table.entry.numbers.now) (leaves_of leaves.entry) 0 (links self.now)
            → Laid ref_numbers 2 at.unrefs (all_unrefs (rows table.entry.numbers.now) (drops_by p (leaves_of leaves.entry))) unrefs.old result.unrefs unrefs.new }
        ensures releases { (p : Fields → Bool) → Linked p (rows table.entry.numbers.now) (leaves_of leaves.entry) 0 (links self.now)
            → Laid ref_numbers 2 at.releases (all_releases (rows table.entry.numbers.now) (drops_by p (leaves_of leaves.entry))) releases.old result.releases releases.new }
    {
        self.put_rows(leaves, table.numbers, unrefs, releases, at)
    }
}
