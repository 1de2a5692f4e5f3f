//! Tests of what C does not show beside a driver: a watch and an observer of datagrams, which C has in code of its own,
//! and what names a channel's limits and a refused OPEN. What C shows is tested in `host/`.
#![tactic(auto)]

#[cfg(test)]
mod channels;
#[cfg(test)]
mod watches;
