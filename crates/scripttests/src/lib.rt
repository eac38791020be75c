// Tests of scripts.
#![tactic(auto)]

#[cfg(test)]
mod edges;
#[cfg(test)]
mod plays;
#[cfg(test)]
mod trials;
