// Scripts: lines of calls, read and played on a floor.
#![tactic(auto)]

mod calls;
pub mod fault;
pub mod first;
pub mod line;
pub mod reading;
pub mod rehearsal;
pub mod start;
mod texts;
pub mod work;
pub mod writing;
