// The lanes: a network that keeps a ring of its own for each link.
#![tactic(auto)]

use ring::Ring;

mod calls;
mod ring;

// A ring for each pair of ledgers; those of a ledger with itself stay empty.
pub const RINGS: usize = 64;

#[derive(Drop)]
pub struct Lanes {
    // One array: a ring in an array of arrays cannot be reached yet.
    rings: [Ring; RINGS],
}
