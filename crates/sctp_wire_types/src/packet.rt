// The common header of a packet (RFC 4960 section 3.1).

/// Ports and verification tag (RFC 4960 section 3.1). The sum is made and compared where packets are written and read.
#[derive(Clone, Copy, Debug, PartialEq, Eq)]
pub struct CommonHeader {
    pub source_port: u16,
    pub destination_port: u16,
    pub verification_tag: u32,
}
