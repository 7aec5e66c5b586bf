// The list after a plan's edits, walked record by record with nothing stored: `for item in edited.walk()`.

ghost use Rattle.std.specs.Prelude.{◌≡◌, ◌+◌, ◌-◌, ◌*◌, ◌/◌, ◌≤◌, ◌<◌, length, drop, MatchOption};
ghost use Rattle.std.specs.Iterator.{YieldsFirstBy, at_most};
ghost use Rattle.item.specs.Items.{fields, item_of};
ghost use Rattle.apply_walk.specs.Merge.{Rising};
ghost use Rattle.apply_walk.specs.Checks.{items_now};

use item::Item;

// A list and edits of it, whose keys rise: the list after the edits is a merge of both.
#[derive(Clone, Copy)]
pub struct Edited<'a> {
    pub list: &'a [u8],
    pub edits: &'a [u8],
    ghost rising: { Rising list.now edits.now },
}

// Which record of the list a record of the result is, or which edit puts it.
#[derive(Clone, Copy)]
pub enum Origin {
    Kept(usize),
    Put(usize),
}

// A record of the result, and where it is from.
#[derive(Clone, Copy)]
pub struct Step {
    pub origin: Origin,
    pub item: Item,
}

// A walk along the result, at old record i and edit j.
#[derive(Clone, Copy)]
pub struct Walk<'a> {
    edited: Edited<'a>,
    pub i: usize,
    pub j: usize,
    ghost old_in: { i ≤ length edited.list.now / 70 },
    ghost new_in: { j ≤ length edited.edits.now / 71 },
}

impl<'a> Edited<'a> {
    ghost use Rattle.apply_walk.specs.Walks.{ahead};

    // The records of the list after the edits.
    pub fn walk(self) -> Walk<'a>
        ensures { ahead result ≡ items_now self.entry.list.now self.entry.edits.now }
    {
        self.walk_from(0, 0)
    }

    // The same from old record i and edit j on.
    pub fn walk_from(self, i: usize, j: usize) -> Walk<'a>
        requires { (i ≤ length self.list.now / 70) × (j ≤ length self.edits.now / 71) }
        ensures { (result.edited ≡ self.entry) × (result.i ≡ i) × (result.j ≡ j) }
    {
        let edited = self;
        Walk { edited, i, j }
    }
}

impl<'a> Walk<'a> {
    ghost use Rattle.apply_walk.specs.Walks.{Stepped, DeletePassed, Ended};

    // Old record i, passed.
    fn keep(&mut self) -> Step
        requires { self.old.i < length self.old.edited.list.now / 70 }
        ensures { (result ≡ record { origin = Origin.Kept self.old.i; item = item_of (drop (self.old.i * 70) self.old.edited.list.now) })
            × (self.new.edited ≡ self.old.edited) × (self.new.i ≡ self.old.i + 1) × (self.new.j ≡ self.old.j) }
    {
        let i = self.i;
        self.i = i + 1;
        Step {
            origin: Origin::Kept(i),
            item: item::item_at(self.edited.list, i),
        }
    }

    // A step of the walk: the next record of the result, and where it is from, or nothing where it passes a delete. It takes the one with
    // the lower key, of old record i and edit j. An edit passes the old record of its key. By number: a cursor over two lists.
    pub fn step(&mut self) -> Option<Step>
        requires { self.old.i + self.old.j < length self.old.edited.list.now / 70 + length self.old.edited.edits.now / 71 }
        ensures { MatchOption result (DeletePassed self.old self.new) (λ s. Stepped self.old s self.new) }
    {
        let list = self.edited.list;
        let edits = self.edited.edits;
        let j = self.j;
        if j >= edits.len() / item::EDIT {
            return Some(self.keep());
        }
        let edit = plan_lines::edit_item(edits, j);
        if edit_merge::is_gone(list, self.i, Some(edit.key)) {
            return Some(self.keep());
        }
        self.i = edit_merge::passed(list, self.i, edit.key);
        self.j = j + 1;
        if plan_lines::is_put(edits, j) {
            return Some(Step {
                origin: Origin::Put(j),
                item: edit,
            });
        }
        None
    }

    // The next record of the result, and where it is from, behind the deletes before it.
    pub fn next_record(&mut self) -> Option<Step>
        ensures { MatchOption result (Ended self.old self.new) (λ s. Stepped self.old s self.new) }
    {
        while self.j < self.edited.edits.len() / item::EDIT
            || self.i < self.edited.list.len() / item::RECORD
        {
            if let Some(step) = self.step() {
                return Some(step);
            }
        }
        None
    }
}

impl<'a> Iterator for Walk<'a> {
    ghost use Rattle.apply_walk.specs.Walks.{ahead};

    type Item = Item;

    ghost next_gives = { YieldsFirstBy fields ahead };

    ghost remaining = { λ w. at_most (length w.edited.list.now / 70 - w.i + (length w.edited.edits.now / 71 - w.j)) };

    // Built into the loops that call it for each record.
    #[inline(always)]
    fn next(&mut self) -> Option<Item> {
        Some(self.next_record()?.item)
    }
}
