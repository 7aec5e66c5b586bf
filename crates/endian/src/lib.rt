// Little-endian numbers in a slice: the port's `le64` and `to_le_bytes`.
#![tactic(auto)]

ghost use Rattle.std.specs.Prelude.{◌≡◌, ◌+◌, ◌*◌, ◌≤◌, length, take, drop, get_or};
ghost use Rattle.records.specs.Lent.{old, new};
ghost use Rattle.endian.specs.Le.{num, enc, put};

// The N bytes from `at`.
pub fn bytes_at<const N: usize>(s: &[u8], at: usize) -> [u8; N]
    requires { at + N ≤ length s.now }
    ensures { result ≡ take N (drop at s.now) }
{
    let mut bytes = [0u8; N];
    bytes.copy_from_slice(&s[at..at + N]);
    bytes
}

// The u64 in the eight bytes from `at`. A function for each width, by the port's name, as the library's `from_le_bytes` is one of each
// type; they are one law over the width, `num`.
pub fn le64_at(s: &[u8], at: usize) -> u64
    requires { at + 8 ≤ length s.now }
    ensures { result ≡ num 8 at s.now }
{
    u64::from_le_bytes(bytes_at(s, at))
}

// The u16 in the two bytes from `at`.
pub fn le16_at(s: &[u8], at: usize) -> u16
    requires { at + 2 ≤ length s.now }
    ensures { result ≡ num 2 at s.now }
{
    u16::from_le_bytes(bytes_at(s, at))
}

// The byte at `at`, as the number that one byte is: an item's one-byte numbers then read as all others do.
pub fn le8_at(s: &[u8], at: usize) -> u8
    requires { at + 1 ≤ length s.now }
    ensures { result ≡ num 1 at s.now }
{
    s[at]
}

// The lowest w bytes of v over out, from `at`. A loop over any w, with one law for all numbers of an item: `to_le_bytes` is one
// of each type, as `from_le_bytes` is.
pub fn put_num(out: &mut [u8], at: usize, w: usize, v: u64)
    requires { at + w ≤ length out.old }
    ensures { out.new ≡ put (enc w v) at out.old }
{
    let mut rest = v;
    for byte in &mut out[at..at + w] {
        *byte = (rest % 256) as u8;
        rest /= 256;
    }
}

// n bytes of src from `from` over out, from `to`. `copy_from_slice` was tried: where the bytes were written just before, as in an
// item's, it takes twice the time, since the optimizer no longer sees that src and out are apart.
pub fn copy(src: &[u8], from: usize, out: &mut [u8], to: usize, n: usize)
    requires { (from + n ≤ length src.now) × (to + n ≤ length out.old) }
    ensures { out.new ≡ put (take n (drop from src.now)) to out.old }
{
    for i in 0..n {
        out[to + i] = src[from + i];
    }
}
