// Definitions and laws of applying a plan, and the plan's parts as code lends them (crate apply applies them).
#![tactic(auto)]

// A plan's five parts, as an operation's outputs hold them.
#[derive(Clone, Copy)]
pub struct Parts<'a> {
    pub edits: &'a [u8],
    pub shares: &'a [u64],
    pub unrefs: &'a [u64],
    pub releases: &'a [u64],
    pub adds: &'a [u64],
}
