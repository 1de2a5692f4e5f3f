//! What the static libraries for C share: a slot of 16 bytes that C owns, with a driver in it or none, and the numbers
//! of codes, reasons and reliabilities. No crate can stand on a static library, so this is one below them.
#![tactic(auto)]

mod codes;
mod handle;
mod numbers;
mod slot;

pub use codes::{DONE, EMPTY_SLOT, NO_MEMORY, NO_ROOM, NOTHING, code_of, refusal_code};
pub use handle::Handle;
pub use numbers::{BAD_RELIABILITY, names_reliability, reason_of, reliability_of};
pub use slot::Slot;
