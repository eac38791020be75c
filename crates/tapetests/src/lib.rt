// Tests of the journals, of the tape's bytes and of what is printed of a tape.
#![tactic(auto)]

#[cfg(test)]
mod calls;
#[cfg(test)]
mod tapes;
