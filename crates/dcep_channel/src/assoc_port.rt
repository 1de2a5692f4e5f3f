// The port of a stream of an association.
ghost use Rattle.std.specs.Prelude.{◌≡◌, IfOk, OnErr, OnOk, Some, length};
ghost use Rattle.sctp_assoc.specs.Calls.{RefusesOrLacksMemory, refusal_to_write, written};
ghost use Rattle.dcep_channel.specs.AssocDeeds.{DoesAsAssocPort, DoesAtAssociation, association_of, id_of, lender};
ghost use Rattle.dcep_channel.specs.Deeds.{Deed, fault_in};

use crate::port::Port;
use sctp_assoc::{
    Association, Chunks, Error, PayloadProtocolIdentifier, ReliabilityType, Reply, StreamId,
};
use sctp_calls::calls;

/// The port of one stream of an association, which it borrows. A fault is the number of what the association refuses.
#[derive(Drop)]
pub struct AssocPort<'a> {
    association: &'a mut Association,
    id: StreamId,
}

impl<'a> AssocPort<'a> {
    /// The port of the stream of this identifier, which need not be open.
    pub fn new(association: &'a mut Association, id: StreamId) -> Self
        ensures same { lender result ≡ association.entry.ghost_name }
        ensures value { association_of result ≡ association.entry.now }
        ensures id { id_of result ≡ id }
    {
        AssocPort { association, id }
    }
}

impl Port for AssocPort<'_> {
    ghost does = { DoesAsAssocPort };

    fn open(&mut self) -> Result<(), u8> {
        open(self.association, self.id)
    }

    fn keep_reliable(&mut self) -> Result<(), u8> {
        keep_reliable(self.association, self.id)
    }

    fn write(&mut self, ppi: PayloadProtocolIdentifier, bytes: &[u8]) -> Result<usize, u8> {
        write(self.association, self.id, ppi, bytes)
    }

    fn read(&mut self) -> Result<Option<Chunks>, u8> {
        read(self.association, self.id)
    }
}

fn open(association: &mut Association, id: StreamId) -> Result<(), u8>
    ensures { DoesAtAssociation id association.old (Deed.Opened (fault_in result)) association.new }
{
    match calls::open_stream(association, id, PayloadProtocolIdentifier::Binary) {
        Reply::Done => Ok(()),
        Reply::Refused(number) => Err(number),
        _ => Err(0),
    }
}

fn keep_reliable(association: &mut Association, id: StreamId) -> Result<(), u8>
    ensures { DoesAtAssociation id association.old (Deed.Kept (fault_in result)) association.new }
{
    match calls::set_reliability_params(association, id, false, ReliabilityType::Reliable, 0) {
        Reply::Done => Ok(()),
        Reply::Refused(number) => Err(number),
        _ => Err(0),
    }
}

fn write(
    association: &mut Association,
    id: StreamId,
    ppi: PayloadProtocolIdentifier,
    bytes: &[u8],
) -> Result<usize, u8>
    ensures { DoesAtAssociation id association.old (Deed.Wrote ppi bytes.now result) association.new }
{
    match write_on(association, id, ppi, bytes) {
        Ok(count) => Ok(count),
        Err(error) => Err(error.number()),
    }
}

fn write_on(
    association: &mut Association,
    id: StreamId,
    ppi: PayloadProtocolIdentifier,
    bytes: &[u8],
) -> Result<usize, Error>
    ensures refused { RefusesOrLacksMemory result (refusal_to_write association.old id (length bytes.now)) }
    ensures ok { IfOk result (λ n. n ≡ length bytes.now) }
    ensures accepted { OnOk result (association.new ≡ written association.old id (Some ppi) bytes.now) }
    ensures err { OnErr result (association.new ≡ association.old) }
{
    let mut stream = association.stream(id)?;
    stream.write_with_ppi(bytes, ppi)
}

fn read(association: &mut Association, id: StreamId) -> Result<Option<Chunks>, u8>
    ensures { DoesAtAssociation id association.old (Deed.Read result) association.new }
{
    match calls::read(association, id) {
        Reply::Read(message) => Ok(message),
        Reply::Refused(number) => Err(number),
        _ => Err(0),
    }
}
