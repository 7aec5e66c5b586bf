// What a clone asks of its range in both files: the length that is meant, and refusals 19 to 22, 6, 23 to 25, and those of the
// destination's records.
#![tactic(auto, unfolding(records::specs::Stages::first, records::specs::Stages::first_of, records::specs::Stages::stage))]

ghost use Rattle.std.specs.Prelude.{◌≡◌, ◌+◌, ◌<◌, ◌^◌};
ghost use Rattle.records.specs.Refusals.{why};
ghost use Rattle.records.specs.Stages.{stage};
ghost use Rattle.item.specs.Items.{fields, items};
ghost use Rattle.clone_span.specs.Spans.{resolved, span_of, source_refusal, destination_refusal, destination_record, growth_refusal};

use change_sector::Sector;
use item::{Item, Kind};
use records::refusal::{Refusal, check};
use records::{sum_at_most, sum_is};

// What is cloned: `length` bytes from `from` in the source to `to` in the destination; 0 means to the source's end.
#[derive(Clone, Copy)]
pub struct CloneRange {
    pub from: u64,
    pub to: u64,
    pub length: u64,
}

// The length that is meant: 0 is all up to the source's end, of which none is past it.
pub fn resolved(size: u64, from: u64, length: u64) -> u64
    ensures { result ≡ resolved size from length }
{
    if length == 0 {
        size.saturating_sub(from)
    } else {
        length
    }
}

// Refusals 19 to 22: the range in a source of this size, and whole sectors. The length is the one that is meant.
pub fn source_refusal(sector: u64, size: u64, s: CloneRange) -> Result<(), Refusal>
    ensures { why result ≡ source_refusal sector size s.from s.to s.length }
{
    check(s.from <= size, Refusal::Start)?;
    check(sum_at_most(s.from, s.length, size), Refusal::End)?;
    check(
        s.from.is_multiple_of(sector) && s.to.is_multiple_of(sector),
        Refusal::Offset,
    )?;
    check(
        s.length.is_multiple_of(sector) || sum_is(s.from, s.length, size),
        Refusal::Length,
    )
}

// A range that passed those: its length is the one that is meant, and it ends below 2^63 in the source.
#[derive(Clone, Copy)]
pub struct CloneSpan {
    pub sector: Sector,
    pub range: CloneRange,
    ghost ends: { range.from + range.length < 2 ^ 63 },
}

impl CloneSpan {
    // What is cloned of the extents: up to the end of the sector that the range ends in.
    pub fn span(self) -> u64
        ensures { result ≡ span_of self.sector.bytes self.range.from self.range.length }
    {
        let s = self.range;
        self.sector.round_up(s.from + s.length) - s.from
    }

    // Refusals 6, 23 and 24: the range in a destination of this size, which may be the source itself.
    pub fn destination_refusal(self, own: bool, size: u64) -> Result<(), Refusal>
        ensures { why result ≡ destination_refusal self.sector.bytes own size self.range.from self.range.to self.range.length }
    {
        let s = self.range;
        let span = self.span();
        check(
            sum_at_most(s.to, s.length, 9223372036854775807),
            Refusal::TooFar,
        )?;
        check(
            s.length.is_multiple_of(self.sector.bytes) || size.saturating_sub(s.to) <= s.length,
            Refusal::Partial,
        )?;
        check(
            !own || sum_at_most(s.to, span, s.from) || sum_at_most(s.from, span, s.to),
            Refusal::Overlap,
        )
    }
}

// Refusals 7 and 8 of a destination record.
fn destination_record(item: Item) -> Result<(), Refusal>
    ensures { why result ≡ destination_record (fields item) }
{
    let kind = item.kind();
    check(kind != Kind::Inline, Refusal::Inline)?;
    check(kind != Kind::Other, Refusal::Kind)
}

// Refusals 7 and 8, record by record. Why it is a loop of its own says `lists::records_refusal`.
pub fn destination_records(list: &[u8]) -> Result<(), Refusal>
    ensures { why result ≡ stage destination_record (items list.now) }
{
    for item in item::items(list) {
        destination_record(item)?;
    }
    Ok(())
}

// Refusal 25: a destination that grows, has records and ends inside a sector.
pub fn growth_refusal(
    sector: u64,
    size: u64,
    to: u64,
    length: u64,
    list: &[u8],
) -> Result<(), Refusal>
    ensures { why result ≡ growth_refusal sector size to length (items list.now) }
{
    check(
        sum_at_most(to, length, size)
            || size.is_multiple_of(sector)
            || item::items(list).next().is_none(),
        Refusal::Growth,
    )
}
