// What a floor means: its calls, what each answers and what it leaves, and why it is refused.
#![tactic(auto)]

pub mod call;
pub mod delivery;
pub mod fault;
pub mod note;
pub mod recovery;
pub mod standing;
