//! What one association answers that no session, no driver and no call for C shows: questions that these never ask, and
//! packets that a driver does not hand on. `host/` has the other tests of one association.
#![tactic(auto)]

#[cfg(test)]
mod association;
#[cfg(test)]
mod rows;
