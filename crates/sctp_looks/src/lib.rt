//! How often a data structure looks at its elements: a bound on work that a contract can state.
#![tactic(auto)]

mod looks;

pub use looks::Looks;
