// How journals are printed: a ledger's entries as letters, and the verdict on a tape.
#![tactic(auto)]

pub mod letters;
pub mod verdict;
