// What a random history runs on: the volume and what is done to it between calls, the calls drawn, and what is read off its bytes
// (mappings, ledgers of references). Functions promise safety alone.
#![tactic(auto)]

pub mod between;
pub mod calls;
pub mod draws;
pub mod ledgers;
pub mod maps;
pub mod sectors;
pub mod state;
