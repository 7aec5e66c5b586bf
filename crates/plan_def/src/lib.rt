// A plan: its parts, how they lie in the lent outputs, and the tests of places and of room. Definitions and laws; the
// code follows with the operations.
#![tactic(auto)]

// The six outputs that an operation is lent.
#[derive(Drop)]
pub struct Outputs<'a> {
    pub edits: &'a mut [u8],
    pub shares: &'a mut [u64],
    pub unrefs: &'a mut [u64],
    pub releases: &'a mut [u64],
    pub adds: &'a mut [u64],
    pub writes: &'a mut [u64],
}
