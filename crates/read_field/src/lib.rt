// What a line of extplan's input is made of, read at a text's start: fixed words, decimal numbers with a limit, and fields by
// their names. What was read comes with the text behind it; None: the text can't be read.
#![tactic(auto)]

ghost use Rattle.std.specs.Prelude.{◌≡◌, ◌≤◌, ◌^◌, [], length, take, drop, replicate, MatchOption};
ghost use Rattle.std.specs.List.{prefix_len};
ghost use Rattle.read_field.specs.Decimal.{is_digit, plain, value};
ghost use Rattle.read_field.specs.Parts.{word, number, numbers};
ghost use Rattle.read_field.specs.Raw.{part, counted, read_over, field_by, field_over, total, fields_by};

// The text behind a fixed word.
#[tactic(auto, using(crate::proofs::Steps::word_is))]
pub fn word<'a>(s: &'a [u8], text: &[u8]) -> Option<&'a [u8]>
    ensures { part [] result ≡ word text.now s.now }
{
    s.strip_prefix(text)
}

// How many digits stand at the start.
fn digit_count(s: &[u8]) -> usize
    ensures { result ≡ prefix_len is_digit s.now }
{
    s.iter().take_while(|b| b.is_ascii_digit()).count()
}

// Whether digits may be a number: there is one, and "0" stands before no other.
#[tactic(auto, using(crate::proofs::Runs::plain_laws))]
fn is_plain(digits: &[u8]) -> bool
    ensures { result ≡ plain digits.now }
{
    match digits {
        [] => false,
        [_] => true,
        [first, ..] => *first != b'0',
    }
}

// The number that digits make; None where it needs more than 64 bits.
#[tactic(auto, using(crate::proofs::Runs::value_laws))]
fn value(digits: &[u8]) -> Option<u64>
    ensures { MatchOption result (2 ^ 64 ≤ value 0 digits.now) (λ v. v ≡ value 0 digits.now) }
{
    let mut value: u64 = 0;
    for digit in digits {
        value = value
            .checked_mul(10)?
            .checked_add(u64::from(digit.saturating_sub(b'0')))?;
    }
    Some(value)
}

// A number of at most `limit`.
#[tactic(auto, using(crate::proofs::Runs::number_laws))]
pub fn number(s: &[u8], limit: u64) -> Option<(u64, &[u8])>
    ensures { counted result ≡ number limit s.now }
{
    let (digits, rest) = s.split_at(digit_count(s));
    if !is_plain(digits) {
        return None;
    }
    let n = value(digits)?;
    if n > limit {
        return None;
    }
    Some((n, rest))
}

// Numbers with one limit, each behind one space: as many as there are places for them. From the first that can't be read on, the
// places stay as they were.
#[tactic(auto, using(crate::proofs::Steps::places_laws))]
pub fn numbers<'a>(s: &'a [u8], places: &mut [u64], limit: u64) -> Option<&'a [u8]>
    ensures read { part places.new result ≡ numbers (replicate (length places.old) limit) s.now }
    ensures over { places.new ≡ read_over limit places.old s.now }
{
    let mut rest = s;
    for place in places.iter_mut() {
        let (n, behind) = number(word(rest, b" ")?, limit)?;
        *place = n;
        rest = behind;
    }
    Some(rest)
}

// The same; from the first that can't be read on, the places are 0.
pub fn numbers_told<'a>(s: &'a [u8], places: &mut [u64], limit: u64) -> Option<&'a [u8]>
    ensures read { part places.new result ≡ numbers (replicate (length places.old) limit) s.now }
    ensures over { places.new ≡ read_over limit (replicate (length places.old) 0) s.now }
{
    places.fill(0);
    numbers(s, places, limit)
}

// A field: how it opens, how many numbers it has, and their limit.
#[derive(Clone, Copy)]
pub struct Field<'a>(pub &'a [u8], pub usize, pub u64);

impl Field<'_> {
    // Its numbers; where it isn't there they are 0.
    #[tactic(auto, using(crate::proofs::Steps::field_laws))]
    pub fn read<'a>(&self, s: &'a [u8], places: &mut [u64]) -> Option<&'a [u8]>
        ensures { part places.new result ≡ field_by self.now.0.now (replicate (length places.old) self.now.2) (replicate (length places.old) 0) s.now }
    {
        let Some(inside) = word(s, self.0) else {
            places.fill(0);
            return Some(s);
        };
        word(numbers(inside, places, self.2)?, b")")
    }

    // Its numbers; where it isn't there the places stay as they were. Those of its numbers that can't be read are 0.
    #[tactic(auto, using(crate::proofs::Steps::field_laws, crate::proofs::Over::field_over_laws))]
    pub fn read_over<'a>(&self, s: &'a [u8], places: &mut [u64]) -> Option<&'a [u8]>
        ensures read { part places.new result ≡ field_by self.now.0.now (replicate (length places.old) self.now.2) places.old s.now }
        ensures over { places.new ≡ field_over self.now.0.now self.now.2 places.old s.now }
    {
        match word(s, self.0) {
            Some(inside) => word(numbers_told(inside, places, self.2)?, b")"),
            None => Some(s),
        }
    }
}

// The numbers of fields in this order, at the start of `values`.
#[tactic(auto, using(crate::proofs::Several::several_laws))]
pub fn fields<'a>(s: &'a [u8], fields: &[Field], values: &mut [u64]) -> Option<&'a [u8]>
    requires { total fields.now ≤ length values.old }
    ensures read { part (take (total fields.now) values.new) result ≡ fields_by fields.now s.now }
    ensures rest { drop (total fields.now) values.new ≡ drop (total fields.now) values.old }
{
    let mut rest = s;
    let mut k = 0;
    for field in fields {
        rest = field.read(rest, &mut values[k..k + field.1])?;
        k += field.1;
    }
    Some(rest)
}
