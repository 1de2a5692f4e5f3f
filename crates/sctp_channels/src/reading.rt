// The first message of a stream.
ghost use Rattle.std.specs.Prelude.{◌≡◌, IfErr, IfOk, OnErr, true};
ghost use Rattle.sctp_driver.specs.Messages.{ReadFails};
ghost use Rattle.sctp_channels.specs.Looking.{may_pass};
ghost use Rattle.sctp_channels.specs.Reading.{BeginsWith, FirstBy, IsFirst, ReadsFirst, ReadsOrEnded, ReadsWhole};
ghost use Rattle.sctp_channels.specs.Reading.{is_dcep};

use channel_table::{MAX_OPEN_LENGTH, OpenMessage};
use sctp_driver::{Driver, Error, PayloadProtocolIdentifier, ReadAnswer};
use sctp_wire_types::StreamId;
use std::alloc::Global;

/// The first message of a stream of the peer.
pub(crate) enum First {
    /// None is ready, or the stream is gone.
    Nothing,
    /// An OPEN.
    Open(OpenMessage),
    /// Something else, which was read or waits in the driver.
    Other,
}

/// Whether a refusal may pass: the call can be made again, or the association failed. Any other one says that the
/// stream cannot do it.
pub(crate) fn may_pass(error: Error) -> bool
    ensures { result ≡ may_pass error }
{
    matches!(error, Error::ErrNoMemory | Error::ErrAssociationFailed)
}

/// The next message of a stream; `Nothing` also where the stream is gone or its read half closed. It is put into its
/// callers, so that what was read is not handed on once more.
#[inline(always)]
pub(crate) fn read(
    driver: &mut Driver,
    id: StreamId,
    buffer: &mut [u8],
) -> Result<ReadAnswer, Error>
    ensures ok { IfOk result (λ answer. ReadsOrEnded id driver.old buffer.old answer driver.new buffer.new) }
    ensures err { IfErr result (λ error. ReadFails driver.old id error driver.new) }
    ensures passes { IfErr result (λ error. may_pass error ≡ true) }
    ensures unfilled { OnErr result (buffer.new ≡ buffer.old) }
{
    match driver.read(id, buffer) {
        Ok(answer) => Ok(answer),
        Err(error) => {
            if may_pass(error) {
                Err(error)
            } else {
                Ok(ReadAnswer::Nothing)
            }
        }
    }
}

/// The first message of a stream. One that is longer than any OPEN is not read.
#[tactic(auto, unfolding(crate::specs::Reading::ReadsFirst))]
pub(crate) fn read_first(alloc: Global, driver: &mut Driver, id: StreamId) -> Result<First, Error>
    ensures reads { ReadsFirst id driver.old result driver.new }
    ensures passes { IfErr result (λ error. may_pass error ≡ true) }
{
    let mut nothing = [];
    let answer = read(driver, id, &mut nothing)?;
    first_by(alloc, driver, id, answer)
}

// The same behind a read without a buffer.
#[tactic(auto, unfolding(crate::specs::Reading::FirstBy))]
fn first_by(
    alloc: Global,
    driver: &mut Driver,
    id: StreamId,
    answer: ReadAnswer,
) -> Result<First, Error>
    ensures by { FirstBy answer id driver.old result driver.new }
    ensures passes { IfErr result (λ error. may_pass error ≡ true) }
{
    match answer {
        ReadAnswer::Nothing => Ok(First::Nothing),
        ReadAnswer::Message { .. } => Ok(First::Other),
        ReadAnswer::NoRoom { length } => {
            if length > MAX_OPEN_LENGTH {
                return Ok(First::Other);
            }
            read_whole(alloc, driver, id, length)
        }
    }
}

#[tactic(auto, unfolding(crate::specs::Reading::ReadsWhole))]
fn read_whole(
    alloc: Global,
    driver: &mut Driver,
    id: StreamId,
    length: usize,
) -> Result<First, Error>
    ensures reads { ReadsWhole length id driver.old result driver.new }
    ensures passes { IfErr result (λ error. may_pass error ≡ true) }
{
    let mut bytes = vec![in alloc; 0; length]?;
    let answer = read(driver, id, bytes.as_mut_slice())?;
    Ok(first_in(answer, bytes))
}

// What a message is that was read into these bytes.
#[tactic(auto, unfolding(crate::specs::Reading::IsFirst))]
fn first_in(answer: ReadAnswer, bytes: Vec<u8>) -> First
    ensures { IsFirst answer bytes.items result }
{
    match answer {
        ReadAnswer::Message { payload_type, .. } => first_of(payload_type, bytes),
        ReadAnswer::Nothing | ReadAnswer::NoRoom { .. } => First::Other,
    }
}

fn first_of(payload_type: PayloadProtocolIdentifier, bytes: Vec<u8>) -> First
    ensures { BeginsWith payload_type bytes.items result }
{
    if !is_dcep(payload_type) {
        return First::Other;
    }
    match OpenMessage::read(bytes) {
        Ok(message) => First::Open(message),
        Err(_) => First::Other,
    }
}

/// Whether a payload type is that of DCEP, 50.
pub(crate) fn is_dcep(payload_type: PayloadProtocolIdentifier) -> bool
    ensures { result ≡ is_dcep payload_type }
{
    matches!(payload_type, PayloadProtocolIdentifier::Dcep)
}
