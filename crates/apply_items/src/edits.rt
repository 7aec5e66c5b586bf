// A plan's edits, as lines of 71 bytes, in order of their keys.

ghost use Rattle.std.specs.Prelude.{◌≡◌, true, length, map};
ghost use Rattle.records.specs.Stages.{pairs};
ghost use Rattle.apply_def.specs.Apply.{edits_rise};
ghost use Rattle.plan_def.specs.ReadBack.{edit_in};

use item::EDIT;

// Edits whose keys rise.
#[derive(Clone, Copy)]
pub struct Edits<'a> {
    pub lines: &'a [[u8; EDIT]],
    ghost rise: { pairs edits_rise (map edit_in lines.now) ≡ true },
}

impl<'a> Edits<'a> {
    ghost use Rattle.cut_def.specs.Edits.{edited};
    ghost use Rattle.apply_items.specs.Passes.{edits_of, puts_in, Passed};

    // Whether one of them names a key. Those of lower keys are passed, and so not asked again.
    pub fn names(&mut self, key: u64) -> bool
        ensures { (result ≡ edited (edits_of self.old) key) × Passed key self.old self.new }
    {
        while let Some((line, behind)) = self.lines.split_first() {
            let next = plan_lines::edit_item(line, 0).key;
            if next >= key {
                return next == key;
            }
            self.lines = behind;
        }
        false
    }

    // How many put a record.
    pub fn count_puts(self) -> usize
        ensures { result ≡ length (puts_in (edits_of self.entry)) }
    {
        self.lines
            .iter()
            .filter(|line| plan_lines::is_put(*line, 0))
            .count()
    }
}
