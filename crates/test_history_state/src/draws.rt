// Numbers drawn at random: each is a function of the turn's number and a name.

// One step of xorshift with 64 bits; it never leaves 0, and never comes to it.
pub fn stirred(x: u64) -> u64 {
    let a = x ^ (x << 13);
    let b = a ^ (a >> 7);
    b ^ (b << 17)
}

// A number whose every bit hangs on every bit of x: both halves multiplied.
fn mixed(x: u64) -> u64 {
    let low = (x % 4294967296) * 3266489917;
    let high = (x / 4294967296) * 2654435761;
    stirred(low.wrapping_add(high ^ (low >> 29)))
}

// The draw with this name from a turn's number: below n.
pub fn draw(x: u64, name: u64, n: u64) -> u64 {
    let named = x.wrapping_add((name % 4294967296) * 2246822519);
    (mixed(mixed(named)) >> 20).checked_rem(n).unwrap_or(0)
}

// One time in n.
pub fn once_in(x: u64, name: u64, n: u64) -> bool {
    draw(x, name, n) == 0
}

// A number that depends on every element and their order, and on what came before.
pub fn summed<T: Copy + Into<u64>>(elements: &[T], before: u64) -> u64 {
    let mut sum = before;
    for x in elements {
        let x: u64 = (*x).into();
        sum = stirred((sum ^ x).wrapping_add(1));
    }
    sum
}
