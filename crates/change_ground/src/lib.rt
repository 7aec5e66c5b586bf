// What a change of a file goes by: what was lent, once it has passed its checks.
#![tactic(auto)]

ghost use Rattle.item.specs.Items.{items};
ghost use Rattle.table.specs.Rows.{rows};
ghost use Rattle.change_def.specs.Rewrites.{ground_of};
ghost use Rattle.change_def.proofs.Fair.{Sound};

use cut_segment::RunningLeaves;
use request::{File, Volume};
use table::Table;

// The volume, the file with its records, and the table: the list is well kept, of kinds 1 and 2 in whole sectors.
#[derive(Clone, Copy)]
pub struct Ground<'a> {
    pub volume: Volume,
    pub file: File,
    pub leaves: RunningLeaves<'a>,
    pub table: Table<'a>,
    ghost sound: { Sound (ground_of volume file (items leaves.list.records.now) leaves.shared.now (rows table.numbers.now)) },
}
