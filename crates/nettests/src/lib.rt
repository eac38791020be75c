// Tests of the networks.
#![tactic(auto)]

#[cfg(test)]
mod links;
