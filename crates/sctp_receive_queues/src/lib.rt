//! What came and was not read yet: the pieces of one stream's messages until they are read.
#![tactic(auto)]

mod chunks;
mod group;
mod groups;
mod pieces;
mod reassembly;
mod row;
mod runs;

pub use chunks::Chunks;
pub use reassembly::ReassemblyQueue;
