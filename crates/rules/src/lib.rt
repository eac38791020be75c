// The rules of one ledger: what it does with a step, a message and an expiry.
#![tactic(auto)]

mod announcement;
pub mod effect;
pub mod expiry;
pub mod ledger_set;
pub mod messages;
pub mod row;
pub mod stage;
pub mod step;
