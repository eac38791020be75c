// What the ledgers wrote: what a set of journals means, and the rows, a set that keeps it.
#![tactic(auto)]

pub mod codes;
pub mod entry;
pub mod fault;
pub mod limits;
pub mod rows;
pub mod set;
