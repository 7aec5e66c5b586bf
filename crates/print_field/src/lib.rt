// What a printed line is made of: a line of at most 256 bytes, to which texts, decimal numbers and fields are appended, and the
// line of an item that is put.
#![tactic(auto, using(crate::proofs::Parts::parts), unfolding(crate::specs::Fields::spaced, crate::specs::Fields::field, crate::specs::Fields::pair, crate::specs::Puts::item_fields, crate::specs::Puts::added_fields, crate::specs::Puts::put_line))]

ghost use Rattle.std.specs.Prelude.{◌≡◌, ◌≤◌, ◌++◌, List, [], ℕ, length, take};
ghost use Rattle.print_field.specs.Text.{decimal};
ghost use Rattle.print_field.specs.Added.{added};
ghost use Rattle.print_field.specs.Fields.{spaced, field, pair, unless_zero};
ghost use Rattle.item.specs.Items.{fields};
ghost use Rattle.print_field.specs.Puts.{item_fields, added_fields, put_line};

use item::Item;
use std::marker::Model;

// A line as it is put together; a contract sees its bytes. What no longer fits is dropped: no line that is printed is so long.
#[derive(Drop)]
pub struct Line {
    bytes: [u8; 256],
    used: usize,
}

impl Model for Line {
    ghost Value = { List ℕ };

    ghost view = { λ l. take l.used l.bytes };

    ghost invariant = { λ l. l.used ≤ 256 };
}

impl Line {
    pub fn new() -> Self
        ensures { result ≡ [] }
    {
        Line {
            bytes: [0; 256],
            used: 0,
        }
    }

    pub fn bytes(&self) -> &[u8]
        ensures { result.now ≡ self.now }
    {
        &self.bytes[..self.used]
    }

    // Empties it.
    pub fn clear(&mut self)
        ensures { self.new ≡ [] }
    {
        self.used = 0;
    }

    // Begins it anew, with a text.
    pub fn begin(&mut self, text: &[u8])
        ensures { self.new ≡ added [] text.now }
    {
        self.clear();
        self.text(text);
    }

    // A text.
    pub fn text(&mut self, text: &[u8])
        ensures { self.new ≡ added self.old text.now }
    {
        let n = (256 - self.used).min(text.len());
        self.bytes[self.used..self.used + n].copy_from_slice(&text[..n]);
        self.used += n;
    }

    // A number.
    #[tactic(auto, using(crate::proofs::Decimal::as_written))]
    pub fn number(&mut self, n: u64)
        ensures { self.new ≡ added self.old (decimal n) }
    {
        let mut buffer = itoa::Buffer::new();
        self.text(buffer.format(n).as_bytes());
    }

    // A space and a number.
    pub fn spaced(&mut self, n: u64)
        ensures { self.new ≡ added self.old (spaced n) }
    {
        self.text(b" ");
        self.number(n);
    }

    // A field with one number.
    pub fn field(&mut self, name: &[u8], n: u64)
        ensures { self.new ≡ added self.old (field name.now n) }
    {
        self.text(b" (");
        self.text(name);
        self.spaced(n);
        self.text(b")");
    }

    // A field with two numbers.
    pub fn pair(&mut self, name: &[u8], n: u64, m: u64)
        ensures { self.new ≡ added self.old (pair name.now n m) }
    {
        self.text(b" (");
        self.text(name);
        self.spaced(n);
        self.spaced(m);
        self.text(b")");
    }

    // A field with one number, where that is not 0.
    #[tactic(auto, using(crate::proofs::Parts::nothing_kept), unfolding(crate::specs::Fields::unless_zero, crate::specs::Added::added))]
    pub fn unless_zero(&mut self, name: &[u8], n: u64)
        ensures { self.new ≡ added self.old (unless_zero name.now n) }
    {
        let _ = &self.used; // a line is not longer than it may be
        if n != 0 {
            self.field(name, n);
        }
    }

    // The fields that every put has.
    fn item_fields(&mut self, item: Item)
        ensures { self.new ≡ added self.old (item_fields (fields item)) }
    {
        self.field(b"key", item.key);
        self.field(b"kind", item.kind_byte() as u64);
        self.pair(b"extent", item.extent_start(), item.extent_length());
        self.pair(b"window", item.position(), item.length());
    }

    // The fields that it has where they are not 0.
    fn added_fields(&mut self, item: Item)
        ensures { self.new ≡ added self.old (added_fields (fields item)) }
    {
        self.unless_zero(b"generation", item.generation());
        self.unless_zero(b"ram", item.ram());
        self.unless_zero(b"compression", item.compression() as u64);
        self.unless_zero(b"encryption", item.encryption() as u64);
        self.unless_zero(b"other", item.other() as u64);
    }

    // The line of an item that is put.
    pub fn put(&mut self, item: Item)
        ensures { self.new ≡ added [] (put_line (fields item)) }
    {
        self.begin(b"(put");
        self.item_fields(item);
        self.added_fields(item);
        self.text(b")\n");
    }
}
