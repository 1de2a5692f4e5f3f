//! A test of what no session and no call for C shows: what the sides of a pair are, and its packets.
#![tactic(auto)]

#[cfg(test)]
mod answers;
