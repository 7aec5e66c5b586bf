// What a request is lent, the checks behind refusals 1 to 4, and what an operation answers.
#![tactic(auto, unfolding(records::specs::Stages::first))]

ghost use Rattle.std.specs.Prelude.{◌≡◌};
ghost use Rattle.records.specs.Refusals.{why};
ghost use Rattle.records.specs.Stages.{unless};
ghost use Rattle.request.specs.Lent.{sector_sound, size_sound};
ghost use Rattle.request.specs.Raw.{fours, fours2, ones, twos};
ghost use Rattle.request.specs.Call.{lent_in, lent2_in};

use records::refusal::{Refusal, check};

// The volume: its sector and its size in bytes, the current generation, and that of the last snapshot.
#[derive(Clone, Copy)]
pub struct Volume {
    pub sector: u64,
    pub total: u64,
    pub generation: u64,
    pub snapshot: u64,
}

// A file: its number and size, and whether it is nodatacow.
#[derive(Clone, Copy)]
pub struct File {
    pub number: u64,
    pub size: u64,
    pub nodatacow: bool,
}

// A range of a file's bytes.
#[derive(Clone, Copy)]
pub struct Range {
    pub offset: u64,
    pub length: u64,
}

// The numbers of a plan: how many records it has in each output, the file's new size and byte count, and whether the
// file is marked for preallocation.
#[derive(Clone, Copy)]
pub struct Numbers {
    pub edits: usize,
    pub shares: usize,
    pub unrefs: usize,
    pub releases: usize,
    pub adds: usize,
    pub writes: usize,
    pub size: u64,
    pub bytes: u64,
    pub prealloc: bool,
}

// What a punch or a fallocate is lent: the volume, the file, its list with the shared bytes, and the table. Any bytes may be lent.
#[derive(Clone, Copy)]
pub struct Lent<'a> {
    pub volume: Volume,
    pub file: File,
    pub list: &'a [u8],
    pub shared: &'a [u8],
    pub table: &'a [u64],
}

// Whether a sector is a power of two from 4,096 to 65,536.
pub fn sector_sound(s: u64) -> bool
    ensures { result ≡ sector_sound s }
{
    matches!(s, 4096 | 8192 | 16384 | 32768 | 65536)
}

// Refusal 4 of a file's size.
pub fn size_refusal(size: u64) -> Result<(), Refusal>
    ensures { why result ≡ unless (size_sound size) 4 }
{
    check(size < 9223372036854775808, Refusal::Sector)
}

// Refusals 4 of one file: the sector, its size, the sectors of its list.
fn fours(sector: u64, size: u64, list: &[u8]) -> Result<(), Refusal>
    ensures { why result ≡ fours sector size list.now }
{
    if !sector_sound(sector) {
        return Err(Refusal::Sector);
    }
    size_refusal(size)?;
    lists::sectors_refusal(list, sector)
}

// The same of two files.
fn fours2(sector: u64, size: u64, size2: u64, list: &[u8], source: &[u8]) -> Result<(), Refusal>
    ensures { why result ≡ fours2 sector size size2 list.now source.now }
{
    if !sector_sound(sector) {
        return Err(Refusal::Sector);
    }
    size_refusal(size)?;
    size_refusal(size2)?;
    lists::sectors_refusal(list, sector)?;
    lists::sectors_refusal(source, sector)
}

// Refusals 1 of a list, its shared bytes and the table.
fn ones(list: &[u8], shared: &[u8], table: &[u64]) -> Result<(), Refusal>
    ensures { why result ≡ ones list.now shared.now table.now }
{
    lists::list_size_refusal(list)?;
    lists::shared_refusal(shared, list)?;
    table::table_size_refusal(table)
}

// Refusals 2 of two lists: each is kept, and the second is not the first one's under another name.
fn twos(number: u64, number2: u64, own: bool, list: &[u8], source: &[u8]) -> Result<(), Refusal>
    ensures { why result ≡ twos number number2 own list.now source.now }
{
    lists::list_refusal(list, number)?;
    lists::list_refusal(source, number2)?;
    check(own || number2 != number, Refusal::NotKept)
}

// Refusals 1 to 4 of what a punch or a fallocate is lent.
pub fn lent_refusal(l: Lent) -> Result<(), Refusal>
    ensures { why result ≡ lent_in l.entry }
{
    ones(l.list, l.shared, l.table)?;
    lists::list_refusal(l.list, l.file.number)?;
    table::table_refusal(l.table)?;
    fours(l.volume.sector, l.file.size, l.list)
}

// Refusals 1 to 4 of what a clone is lent, its destination first; `own` says that the source is the destination itself.
pub fn lent_refusal2(l: Lent, src: File, own: bool, source: &[u8]) -> Result<(), Refusal>
    ensures { why result ≡ lent2_in l.entry src own source.now }
{
    lists::list_size_refusal(source)?;
    ones(l.list, l.shared, l.table)?;
    twos(l.file.number, src.number, own, l.list, source)?;
    table::table_refusal(l.table)?;
    fours2(l.volume.sector, l.file.size, src.size, l.list, source)
}
