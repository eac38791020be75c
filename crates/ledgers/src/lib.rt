// What ledgers are called, and what every refusal tells.
#![tactic(auto)]

pub mod fault;
pub mod ledger;
