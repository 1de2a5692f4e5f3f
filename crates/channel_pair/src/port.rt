// The port of a stream of one side of a pair.
ghost use Rattle.std.specs.Prelude.{◌≡◌};
ghost use Rattle.channel_pair.specs.PairDeeds.{DoesAsPairPort, id_of, lender, pair_of, side_of};

use bytes::Bytes;
use dcep_channel::Port;
use sctp_assoc::{Chunks, Error, PayloadProtocolIdentifier, ReliabilityType, StreamId};
use sctp_pair::{Pair, Reply, Side2, Step};
use std::alloc::Global;

/// The port of one stream of one side of a pair, which it borrows. Each call is one step of the pair. A fault is the
/// number of what that is refused for.
#[derive(Drop)]
pub struct PairPort<'a> {
    pair: &'a mut Pair,
    side: Side2,
    id: StreamId,
    alloc: Global,
}

impl<'a> PairPort<'a> {
    /// The port of the stream of this identifier, which need not be open. Bytes that are written are copied.
    pub fn new(alloc: Global, pair: &'a mut Pair, side: Side2, id: StreamId) -> Self
        ensures same { lender result ≡ pair.entry.ghost_name }
        ensures value { pair_of result ≡ pair.entry.now }
        ensures of_side { side_of result ≡ side }
        ensures of_stream { id_of result ≡ id }
    {
        PairPort {
            pair,
            side,
            id,
            alloc,
        }
    }
}

impl Port for PairPort<'_> {
    ghost does = { DoesAsPairPort };

    fn open(&mut self) -> Result<(), u8> {
        match self.pair.step(&Step::OpenStream {
            side: self.side,
            id: self.id,
            payload_type: PayloadProtocolIdentifier::Binary,
        }) {
            Reply::Done => Ok(()),
            Reply::Refused(number) => Err(number),
            _ => Err(0),
        }
    }

    fn keep_reliable(&mut self) -> Result<(), u8> {
        match self.pair.step(&Step::SetReliabilityParams {
            side: self.side,
            id: self.id,
            unordered: false,
            rel_type: ReliabilityType::Reliable,
            rel_val: 0,
        }) {
            Reply::Done => Ok(()),
            Reply::Refused(number) => Err(number),
            _ => Err(0),
        }
    }

    fn write(&mut self, ppi: PayloadProtocolIdentifier, bytes: &[u8]) -> Result<usize, u8> {
        let Ok(bytes) = Bytes::copy_from_slice(self.alloc, bytes) else {
            return Err(Error::ErrNoMemory.number());
        };
        match self.pair.step(&Step::WriteWithPpi {
            side: self.side,
            id: self.id,
            bytes,
            ppi,
        }) {
            Reply::Wrote(count) => Ok(count),
            Reply::Refused(number) => Err(number),
            _ => Err(0),
        }
    }

    fn read(&mut self) -> Result<Option<Chunks>, u8> {
        match self.pair.step(&Step::Read {
            side: self.side,
            id: self.id,
        }) {
            Reply::Read(message) => Ok(message),
            Reply::Refused(number) => Err(number),
            _ => Err(0),
        }
    }
}
