// The floor: one batch carried through EasyCommit among its ledgers, over any network and any journals.
#![tactic(auto)]

// What its calls answer and why they refuse, which the floor's callers name by its path.
pub use protocol::{delivery, fault, recovery};

pub mod floor;
pub mod opening;
