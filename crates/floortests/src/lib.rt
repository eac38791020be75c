// Tests of the floor.
#![tactic(auto)]

#[cfg(test)]
mod batches;
#[cfg(test)]
mod refusals;
#[cfg(test)]
mod rest;
