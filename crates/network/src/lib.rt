// What ledgers send each other, and what a network of links between them means.
#![tactic(auto)]

pub mod fault;
pub mod forward;
pub mod link;
pub mod message;
