// Calls of an association: of its timers, and of one stream by the stream's identifier.
ghost use Rattle.std.specs.Prelude.{◌≡◌, ◌↔◌, ◌⊎◌, length, Err, IfErr, IfOk, IfSome, IsErrOf, OnErr, OnOk, true};
ghost use Rattle.sctp_streams.specs.declared.setting.Setting.TheVariants as settings;
ghost use Rattle.sctp_streams.specs.Stream.{params_of};
ghost use Rattle.sctp_assoc.specs.Calls.{Refuses, RefusesOrLacksMemory, accepted_stream, adjusted, open_refusal};
ghost use Rattle.sctp_assoc.specs.Calls.{opened, read_from_stream, refusal_to_write, stop_takes_memory};
ghost use Rattle.sctp_assoc.specs.Calls.{stopped, stream_refusal, written};
ghost use Rattle.sctp_assoc.specs.Shown.{HasFailed, answers_of};
ghost use Rattle.sctp_assoc.specs.Timeouts.{after_timeouts, timeouts_take_memory};
ghost use Rattle.sctp_driver.specs.Messages.{StopsRead};
ghost use Rattle.sctp_driver.specs.Streams.{asked_of, buffered_on, refusal_to_stop, stream_closed};

use sctp_assoc::{
    Association, Chunks, DataChannelStats, Error, Instant, PayloadProtocolIdentifier,
    ReliabilityType, StreamId,
};

// Does what the timers ask for that expired by this moment, in nanoseconds.
pub(crate) fn meet_timers(association: &mut Association, now: u64) -> Result<(), Error>
    ensures ok { OnOk result (association.new ≡ after_timeouts association.old now) }
    ensures failed { IsErrOf result Error.ErrAssociationFailed ↔ (association.old.failed ≡ true) }
    ensures refused { IsErrOf result Error.ErrAssociationFailed → association.new ≡ association.old }
    ensures memory { IsErrOf result Error.ErrNoMemory → HasFailed (answers_of association.old) association.new }
    ensures again { IsErrOf result Error.ErrNoMemory → timeouts_take_memory association.old now ≡ true }
    ensures only { OnErr result ((result ≡ Err Error.ErrAssociationFailed) ⊎ (result ≡ Err Error.ErrNoMemory)) }
{
    association.handle_timeout(Instant::from_nanos(now))
}

pub(crate) fn open_stream(
    association: &mut Association,
    id: StreamId,
    payload_type: PayloadProtocolIdentifier,
) -> Result<(), Error>
    ensures refused { RefusesOrLacksMemory result (open_refusal association.old id) }
    ensures ok { OnOk result (association.new ≡ opened association.old id payload_type) }
    ensures err { OnErr result (association.new ≡ association.old) }
{
    match association.open_stream(id, payload_type) {
        Ok(_) => Ok(()),
        Err(error) => Err(error),
    }
}

pub(crate) fn accept_stream(association: &mut Association) -> Option<StreamId>
    ensures { accepted_stream association.old ≡ (association.new, result) }
{
    match association.accept_stream() {
        Some(stream) => Some(stream.stream_identifier()),
        None => None,
    }
}

pub(crate) fn write(
    association: &mut Association,
    id: StreamId,
    payload_type: Option<PayloadProtocolIdentifier>,
    bytes: &[u8],
) -> Result<usize, Error>
    ensures refused { RefusesOrLacksMemory result (refusal_to_write association.old id (length bytes.now)) }
    ensures ok { IfOk result (λ n. n ≡ length bytes.now) }
    ensures accepted { OnOk result (association.new ≡ written association.old id payload_type bytes.now) }
    ensures err { OnErr result (association.new ≡ association.old) }
{
    let mut stream = association.stream(id)?;
    match payload_type {
        None => stream.write(bytes),
        Some(payload_type) => stream.write_with_ppi(bytes, payload_type),
    }
}

pub(crate) fn read(association: &mut Association, id: StreamId) -> Result<Option<Chunks>, Error>
    ensures ok { IfOk result (λ message. read_from_stream association.old id ≡ (association.new, message)) }
    ensures err { IfErr result (λ error. StopsRead association.old id error association.new) }
{
    let mut stream = association.stream(id)?;
    stream.read()
}

pub(crate) fn finish(association: &mut Association, id: StreamId) -> Result<(), Error>
    ensures refused { Refuses result (stream_refusal association.old id) }
    ensures ok { OnOk result (association.new ≡ adjusted association.old id settings.WriteHalfClosed) }
    ensures err { OnErr result (association.new ≡ association.old) }
{
    let mut stream = association.stream(id)?;
    stream.finish()
}

pub(crate) fn stop(association: &mut Association, id: StreamId) -> Result<(), Error>
    ensures refused { RefusesOrLacksMemory result (refusal_to_stop association.old id) }
    ensures ok { OnOk result (association.new ≡ stopped association.old id) }
    ensures unchanged { IfSome (refusal_to_stop association.old id) (λ error. association.new ≡ association.old) }
    ensures memory { IsErrOf result Error.ErrNoMemory → HasFailed (answers_of association.old) association.new }
    ensures grows { IsErrOf result Error.ErrNoMemory → stop_takes_memory association.old id ≡ true }
{
    let mut stream = association.stream(id)?;
    stream.stop()
}

pub(crate) fn close_stream(association: &mut Association, id: StreamId) -> Result<(), Error>
    ensures refused { RefusesOrLacksMemory result (refusal_to_stop association.old id) }
    ensures ok { OnOk result (association.new ≡ stream_closed association.old id) }
    ensures unchanged { IfSome (refusal_to_stop association.old id) (λ error. association.new ≡ association.old) }
    ensures memory { IsErrOf result Error.ErrNoMemory → HasFailed (answers_of association.old) association.new }
    ensures grows { IsErrOf result Error.ErrNoMemory → stop_takes_memory association.old id ≡ true }
{
    let mut stream = association.stream(id)?;
    stream.close()
}

pub(crate) fn set_reliability_params(
    association: &mut Association,
    id: StreamId,
    unordered: bool,
    kind: ReliabilityType,
    value: u32,
) -> Result<(), Error>
    ensures refused { Refuses result (stream_refusal association.old id) }
    ensures ok { OnOk result (association.new
        ≡ adjusted association.old id (settings.Reliability (params_of unordered kind value))) }
    ensures err { OnErr result (association.new ≡ association.old) }
{
    let mut stream = association.stream(id)?;
    stream.set_reliability_params(unordered, kind, value)
}

pub(crate) fn buffered_amount(association: &mut Association, id: StreamId) -> Result<usize, Error>
    ensures answer { result ≡ buffered_on association.old id }
    ensures same { association.new ≡ association.old }
{
    let stream = association.stream(id)?;
    stream.buffered_amount()
}

pub(crate) fn stream_stats(
    association: &mut Association,
    id: StreamId,
) -> Result<DataChannelStats, Error>
    ensures answer { result ≡ asked_of (λ s. s.stats) association.old id }
    ensures same { association.new ≡ association.old }
{
    let stream = association.stream(id)?;
    stream.stats()
}

pub(crate) fn default_payload_type(
    association: &mut Association,
    id: StreamId,
) -> Result<PayloadProtocolIdentifier, Error>
    ensures answer { result ≡ asked_of (λ s. s.default_payload_type) association.old id }
    ensures same { association.new ≡ association.old }
{
    let stream = association.stream(id)?;
    stream.get_default_payload_type()
}

pub(crate) fn set_default_payload_type(
    association: &mut Association,
    id: StreamId,
    payload_type: PayloadProtocolIdentifier,
) -> Result<(), Error>
    ensures refused { Refuses result (stream_refusal association.old id) }
    ensures ok { OnOk result (association.new
        ≡ adjusted association.old id (settings.DefaultPayloadType payload_type)) }
    ensures err { OnErr result (association.new ≡ association.old) }
{
    let mut stream = association.stream(id)?;
    stream.set_default_payload_type(payload_type)
}

pub(crate) fn low_mark(association: &mut Association, id: StreamId) -> Result<usize, Error>
    ensures answer { result ≡ asked_of (λ s. s.low_mark) association.old id }
    ensures same { association.new ≡ association.old }
{
    let stream = association.stream(id)?;
    stream.buffered_amount_low_threshold()
}

pub(crate) fn set_low_mark(
    association: &mut Association,
    id: StreamId,
    bytes: usize,
) -> Result<(), Error>
    ensures refused { Refuses result (stream_refusal association.old id) }
    ensures ok { OnOk result (association.new ≡ adjusted association.old id (settings.LowMark bytes)) }
    ensures err { OnErr result (association.new ≡ association.old) }
{
    let mut stream = association.stream(id)?;
    stream.set_buffered_amount_low_threshold(bytes)
}

pub(crate) fn high_mark(association: &mut Association, id: StreamId) -> Result<usize, Error>
    ensures answer { result ≡ asked_of (λ s. s.high_mark) association.old id }
    ensures same { association.new ≡ association.old }
{
    let stream = association.stream(id)?;
    stream.buffered_amount_high_threshold()
}

pub(crate) fn set_high_mark(
    association: &mut Association,
    id: StreamId,
    bytes: usize,
) -> Result<(), Error>
    ensures refused { Refuses result (stream_refusal association.old id) }
    ensures ok { OnOk result (association.new ≡ adjusted association.old id (settings.HighMark bytes)) }
    ensures err { OnErr result (association.new ≡ association.old) }
{
    let mut stream = association.stream(id)?;
    stream.set_buffered_amount_high_threshold(bytes)
}
