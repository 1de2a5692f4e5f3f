// The packets that go out in front of DATA: those of the handshake, and answers.
ghost use Rattle.std.specs.Prelude.{◌≡◌, OnOk};
ghost use Rattle.sctp_assoc.specs.Control.{queued, queued_under};

use crate::Association;
use sctp_wire_queues::{Chunk, CommonHeader};
use std::alloc::AllocError;

/// What waits to go out in front of DATA.
#[derive(Debug, Drop)]
pub enum Control {
    Packet(ControlPacket),
    /// The oldest request to reset streams that was never sent; it goes out once no DATA of its streams waits or is
    /// unacknowledged.
    OwnRequest,
}

/// A packet of one chunk that waits to go out, under the header of the moment at which it was queued.
#[derive(Debug, Drop)]
pub struct ControlPacket {
    pub(crate) header: CommonHeader,
    pub(crate) chunk: Chunk,
}

impl Association {
    // Goes out with the next poll, behind what is queued already.
    pub(crate) fn queue_control(&mut self, chunk: Chunk) -> Result<(), AllocError>
        ensures { OnOk result (self.new ≡ queued self.old chunk) }
    {
        let header = self.handshake.header();
        self.queue_under(header, chunk)
    }

    // The same under this header.
    pub(crate) fn queue_under(
        &mut self,
        header: CommonHeader,
        chunk: Chunk,
    ) -> Result<(), AllocError>
        ensures { OnOk result (self.new ≡ queued_under header self.old chunk) }
    {
        self.control
            .push(Control::Packet(ControlPacket { header, chunk }))?;
        Ok(())
    }
}
