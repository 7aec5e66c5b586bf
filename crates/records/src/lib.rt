// Refusals, tests of sums that may leave 64 bits, and (specs/, proofs/) records of one width with the laws of loops over them.
#![tactic(auto)]

pub mod refusal;

ghost use Rattle.std.specs.Prelude.{◌≡◌, ◌+◌, ◌^◌, eqb, leb, ltb};

// Whether a + b is at most a limit.
pub fn sum_at_most(a: u64, b: u64, limit: u64) -> bool
    ensures { result ≡ leb (a + b) limit }
{
    if limit < a {
        return false;
    }
    b <= limit - a
}

// Whether a + b is past a limit.
pub fn sum_past(a: u64, b: u64, limit: u64) -> bool
    ensures { result ≡ ltb limit (a + b) }
{
    !sum_at_most(a, b, limit)
}

// Whether a + b is c.
pub fn sum_is(a: u64, b: u64, c: u64) -> bool
    ensures { result ≡ eqb (a + b) c }
{
    if c < a {
        return false;
    }
    b == c - a
}

// Whether a + b fits 64 bits.
pub fn sum_fits(a: u64, b: u64) -> bool
    ensures { result ≡ ltb (a + b) (2 ^ 64) }
{
    b <= 18446744073709551615 - a
}
