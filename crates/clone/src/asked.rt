// A clone that is asked for, with its source chosen: the refusals in order, and what it goes by.

ghost use Rattle.std.specs.Prelude.{◌≡◌, ◌<◌, true};

use clone_copies::Copies;
use clone_items::{Copying, FileCopying};
use clone_lay::CloneGround;
use clone_span::{CloneRange, CloneSpan};
use cut_segment::{Running, RunningLeaves};
use records::refusal::{Refusal, check};
use request::{File, Lent};
use table::Table;

// What is lent, the destination in it; the source's file and list, which for one file (`own`) are the destination's; and the
// range, whose length is the one that is meant.
#[derive(Clone, Copy)]
pub struct Asked<'a> {
    pub lent: Lent<'a>,
    pub own: bool,
    pub file: File,
    pub source: &'a [u8],
    pub range: CloneRange,
    ghost own_file: { own ≡ true → file ≡ lent.file },
    ghost own_list: { own ≡ true → source.now ≡ lent.list.now },
}

// Where its range passed: what is copied, and the destination's records and the table.
#[derive(Clone, Copy)]
pub struct Parts<'a> {
    pub copying: FileCopying,
    pub leaves: RunningLeaves<'a>,
    pub table: Table<'a>,
}

impl<'a> Parts<'a> {
    ghost use Rattle.records.specs.Refusals.{why};
    ghost use Rattle.records.specs.Stages.{every};
    ghost use Rattle.item.specs.Items.{items};
    ghost use Rattle.clone_items.specs.Raw.{range_kept};
    ghost use Rattle.clone.specs.Raw.{copies_in};

    // The refusals of drops, of splits and of the source's records, and 13.
    fn copies_refusal(self, generation: u64, source: &[u8]) -> Result<(), Refusal>
        requires { every range_kept (items source.now) ≡ true }
        ensures { why result ≡ copies_in self.entry generation (items source.now) }
    {
        let list = self.leaves.list;
        let k = clone_lay::cut_for(self.copying);
        cut_touched::drops_refusal(k, list, self.table)?;
        cut_touched::splits_refusal(list, self.table, k.lo, k.hi)?;
        self.copying.source_records(self.table, source)?;
        check(generation != 18446744073709551615, Refusal::Generation)
    }
}

impl<'a> Asked<'a> {
    ghost use Rattle.clone.specs.Raw.{AskedOf, Given, lent_asked, destination_asked, copies_asked, copying_of, SpanOf, PartsOf, GroundOf, Drafted};

    // A clone of a range of one file into another, or into itself.
    pub fn new(l: Lent<'a>, src: File, own: bool, source: &'a [u8], s: CloneRange) -> Self
        ensures { AskedOf l.entry src own source.now s result }
    {
        let file = if own { l.file } else { src };
        let length = clone_span::resolved(file.size, s.from, s.length);
        Asked {
            lent: l,
            own,
            file,
            source: if own { l.list } else { source },
            range: CloneRange { length, ..s },
        }
    }

    // Refusals 1 to 4 of what a clone is lent, and 19 to 22.
    fn span(self) -> Result<CloneSpan, Refusal>
        ensures { Given (lent_asked self.entry) (SpanOf self.entry) result }
    {
        let l = self.lent;
        request::lent_refusal2(l, self.file, self.own, self.source)?;
        clone_span::source_refusal(l.volume.sector, self.file.size, self.range)?;
        Ok(CloneSpan {
            sector: change_sector::sector_of(l.volume.sector),
            range: self.range,
        })
    }

    // What is copied, of a range that passed.
    fn copying(self, span: CloneSpan) -> Copying
        requires { SpanOf self span }
        ensures { result ≡ copying_of self.entry }
    {
        Copying {
            number: self.lent.file.number,
            from: self.range.from,
            to: self.range.to,
            span: span.span(),
        }
    }

    // Refusals 6, 23 and 24, those of the destination's records, and 25.
    fn parts(self, span: CloneSpan) -> Result<Parts<'a>, Refusal>
        requires { SpanOf self span × (0 < self.range.length) }
        ensures { Given (destination_asked self.entry) (PartsOf self.entry) result }
    {
        let l = self.lent;
        let s = self.range;
        span.destination_refusal(self.own, l.file.size)?;
        clone_span::destination_records(l.list)?;
        clone_span::growth_refusal(l.volume.sector, l.file.size, s.to, s.length, l.list)?;
        Ok(Parts {
            copying: FileCopying {
                range: self.copying(span),
            },
            leaves: RunningLeaves {
                list: Running { records: l.list },
                shared: l.shared,
            },
            table: Table { numbers: l.table },
        })
    }

    // The refusals of what is copied; what passes is what the clone goes by.
    fn ground(self, p: Parts<'a>) -> Result<CloneGround<'a>, Refusal>
        requires { PartsOf self p }
        ensures { Given (copies_asked self.entry) (GroundOf self.entry) result }
    {
        let l = self.lent;
        let s = self.range;
        p.copies_refusal(l.volume.generation, self.source)?;
        Ok(CloneGround {
            copies: Copies {
                copying: p.copying,
                source: self.source,
            },
            leaves: p.leaves,
            table: p.table,
            size: l.file.size.max(s.to + s.length),
        })
    }

    // What a clone goes by, nothing to do, or what refuses it but for 27.
    pub fn draft(self) -> Result<Option<CloneGround<'a>>, Refusal>
        ensures { Drafted self.entry result }
    {
        let span = self.span()?;
        let empty = self.range.length == 0;
        if empty {
            return Ok(None);
        }
        let parts = self.parts(span)?;
        Ok(Some(self.ground(parts)?))
    }
}
