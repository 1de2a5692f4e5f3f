// What a channel wants of one stream of one side.
ghost use Rattle.dcep_channel.specs.Deeds.{Deed, fault_in};

use sctp_assoc::{Chunks, PayloadProtocolIdentifier};

/// One stream of one side, for a channel. Each fault is the number of a refusal, as `Error::number` of `sctp_assoc`
/// gives it.
pub trait Port: Sized {
    ghost does: { Self → Deed → Self → Type 0 };

    /// Opens the stream.
    fn open(&mut self) -> Result<(), u8>
        ensures { does self.old (Deed.Opened (fault_in result)) self.new };

    /// Has the stream send what is written from now on in order, and as often as it takes.
    fn keep_reliable(&mut self) -> Result<(), u8>
        ensures { does self.old (Deed.Kept (fault_in result)) self.new };

    /// Writes one message under this payload type, and answers its length in bytes.
    fn write(&mut self, ppi: PayloadProtocolIdentifier, bytes: &[u8]) -> Result<usize, u8>
        ensures { does self.old (Deed.Wrote ppi bytes.now result) self.new };

    /// Takes out the next message, whole; None where none is ready.
    fn read(&mut self) -> Result<Option<Chunks>, u8>
        ensures { does self.old (Deed.Read result) self.new };
}
