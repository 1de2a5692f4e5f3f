// What two sides exchange in another way than by a handshake.
ghost use Rattle.std.specs.Prelude.{◌≡◌, IfOk};
ghost use Rattle.sctp_assoc.specs.Created.{token_of};

use bytes::Bytes;
use sctp_inbound::{Handshake, Offer};
use sctp_wire_queues::{ChunkInit, TransportConfig};
use std::alloc::{AllocError, Global};

/// The token of a side with this configuration: the INIT chunk that it would send (RFC 4960 section 3.3.2), for
/// `Association::new_with_out_of_band_init`. `initiate_tag` is its verification tag (a peer refuses 0), `initial_tsn`
/// its first TSN; window and numbers of streams are those of the configuration. Its one error is want of memory.
pub fn token(
    alloc: Global,
    config: &TransportConfig,
    initiate_tag: u32,
    initial_tsn: u32,
) -> Result<ChunkInit, AllocError>
    ensures { IfOk result (λ token. token ≡ token_of config.now initiate_tag initial_tsn) }
{
    let handshake = Handshake::fresh(config, initiate_tag, initial_tsn, Bytes::new(), None);
    handshake.init(alloc, Offer::new(config))
}
