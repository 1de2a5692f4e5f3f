//! Tests of what no clause of the association's crates says, no C test and no session: packets worked out by hand; what
//! queues, states and errors print; and that timers have codes in their order.
#![tactic(auto)]

#[cfg(test)]
mod packets;
#[cfg(test)]
mod printed;
mod timers;
