// Chunks that are refused before they are processed.
ghost use Rattle.std.specs.Prelude.{◌≡◌};
ghost use Rattle.sctp_wire_types.specs.Checks.{checked_init, checked_chunk};

use crate::{Chunk, ChunkInit, Error, Fault};

/// Least receive window that an INIT or INIT ACK may offer, in bytes (RFC 4960 section 3.3.2).
const LEAST_WINDOW: u32 = 1500;

impl ChunkInit {
    /// Refuses an initiate tag 0, a number of streams 0 and a receive window below 1500 bytes (RFC 4960 sections 3.3.2
    /// and 3.3.3).
    pub fn check(&self) -> Result<(), Error>
        ensures { result ≡ checked_init self.now }
    {
        if self.initiate_tag == 0 {
            return Err(Error::Malformed(Fault::InitiateTag));
        }
        if self.num_outbound_streams == 0 || self.num_inbound_streams == 0 {
            return Err(Error::Malformed(Fault::StreamCount));
        }
        if self.advertised_receiver_window_credit < LEAST_WINDOW {
            return Err(Error::Malformed(Fault::Window));
        }
        Ok(())
    }
}

impl Chunk {
    /// Refuses an INIT or INIT ACK as `ChunkInit::check` does; other chunks pass.
    pub fn check(&self) -> Result<(), Error>
        ensures { result ≡ checked_chunk self.now }
    {
        match self {
            Chunk::Init(init) => init.check(),
            Chunk::InitAck(init) => init.check(),
            _ => Ok(()),
        }
    }
}
