//! CRC32c, the checksum of an SCTP packet (RFC 4960 section 6.8 and appendix B).
#![tactic(auto)]

mod fold;
mod sum;
mod table;

pub use sum::{crc32c, packet_sum};
