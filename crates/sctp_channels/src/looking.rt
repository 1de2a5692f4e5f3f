// What is to be done for one channel, by how far it came.
ghost use Rattle.std.specs.Prelude.{◌≡◌, ◌⊎◌, false, IfErr, IfOk, length, not, OnErr, OnOk, Some, None, Err, true};
ghost use Rattle.sctp_assoc.specs.Calls.{Refuses, RefusesOrLacksMemory, refusal_to_write, stream_refusal};
ghost use Rattle.channel_table.specs.declared.channel.Stage.TheVariants as stages;
ghost use Rattle.dcep_messages.specs.Codec.{ordered_in};
ghost use Rattle.std.specs.BTreeMap.{is_at};
ghost use Rattle.std.specs.Map.{remove_entry};
ghost use Rattle.std.specs.Ordering.{nat_cmp};
ghost use Rattle.channel_table.specs.Tables.{at_stage, keeping_first, stage_at};
ghost use Rattle.sctp_channels.specs.Looking.{Acks, AnnouncesNone, Begins, Looks, Unacknowledged, acknowledged};
ghost use Rattle.sctp_channels.specs.Looking.{begun, goes_on, may_pass, names_stream, with_dcep, with_sending};
ghost use Rattle.sctp_channels.specs.Looking.{with_stream};
ghost use Rattle.sctp_channels.specs.Steps.{AnnouncesChannel, AnsweredBy, AnsweredByDcep, AwaitsAnswer, BeginsChannel};
ghost use Rattle.sctp_channels.specs.Steps.{Confirms, FailsToBegin, FailsToBeginOn, HasBegun, IsNotOpened, LooksAt};
ghost use Rattle.sctp_channels.specs.Steps.{MeetsFirst, MeetsStream, ResetsOrNot, goes_after, goes_by, sending_by};

use crate::event::ChannelEvent;
use crate::reading::{First, is_dcep, may_pass, read, read_first};
use channel_table::{ACK_MESSAGE, Channel, ShortMessage, Stage, Table, is_ack};
use sctp_driver::{Driver, Error, PayloadProtocolIdentifier, ReadAnswer};
use sctp_wire_types::StreamId;
use std::alloc::Global;

/// What a look at a channel gave.
#[derive(Clone, Copy)]
pub(crate) enum Looked {
    /// Nothing more is to be done for it.
    Done,
    /// It is to be looked at again.
    Again,
    /// This is to be told, and then it is to be looked at again.
    Tells(ChannelEvent),
    /// This is to be told, and nothing more is to be done for it.
    Ends(ChannelEvent),
}

/// Does what is to be done for the channel of a stream, of which something came.
#[tactic(auto, using(crate::proofs::Unannounced::acks_unannounced), unfolding(crate::specs::Steps::LooksAt))]
pub(crate) fn look(
    alloc: Global,
    table: &mut Table,
    driver: &mut Driver,
    id: StreamId,
) -> Result<Looked, Error>
    ensures exact { LooksAt id table.old driver.old result table.new driver.new }
    ensures looks { IfOk result (λ looked. Looks table.old looked table.new) }
    ensures acks { IfOk result (λ looked. Acks driver.old table.old looked driver.new) }
    ensures err { OnErr result (table.new ≡ table.old) }
    ensures passes { IfErr result (λ error. may_pass error ≡ true) }
{
    match table.recall(id) {
        None => meet(alloc, table, driver, id),
        Some(Stage::Waiting) => begin(table, driver, id),
        Some(Stage::Begun) => await_answer(table, driver, id),
        Some(Stage::Announcing) => acknowledge(table, driver, id),
        Some(Stage::Open) => Ok(Looked::Ends(ChannelEvent::Message(id))),
        Some(Stage::Closing) => Ok(Looked::Done),
    }
}

// A stream without a channel: it has to begin with an OPEN.
#[tactic(auto, unfolding(crate::specs::Steps::MeetsStream))]
fn meet(
    alloc: Global,
    table: &mut Table,
    driver: &mut Driver,
    id: StreamId,
) -> Result<Looked, Error>
    requires { stage_at table.old id ≡ None }
    ensures exact { MeetsStream id table.old driver.old result table.new driver.new }
    ensures looks { IfOk result (λ looked. Looks table.old looked table.new) }
    ensures unannounced { IfOk result (λ looked. AnnouncesNone looked) }
    ensures err { OnErr result (table.new ≡ table.old) }
    ensures passes { IfErr result (λ error. may_pass error ≡ true) }
{
    let first = read_first(alloc, driver, id)?;
    Ok(meet_first(table, driver, id, first))
}

#[tactic(auto, unfolding(crate::specs::Steps::MeetsFirst))]
fn meet_first(table: &mut Table, driver: &mut Driver, id: StreamId, first: First) -> Looked
    requires { stage_at table.old id ≡ None }
    ensures exact { MeetsFirst first id table.old driver.old result table.new driver.new }
    ensures looks { Looks table.old result table.new }
    ensures unannounced { AnnouncesNone result }
{
    match first {
        First::Nothing => Looked::Done,
        First::Other => refuse(driver, id),
        First::Open(message) => match table.insert(id, Channel::announced(message)) {
            Ok(()) => Looked::Again,
            Err(_) => refuse(driver, id),
        },
    }
}

// Resets a stream that has no channel.
fn refuse(driver: &mut Driver, id: StreamId) -> Looked
    ensures looked { result ≡ Looked.Ends (ChannelEvent.Failed id) }
    ensures resets { ResetsOrNot id driver.old driver.new }
{
    let _ = driver.close_stream(id);
    Looked::Ends(ChannelEvent::Failed(id))
}

// A channel of this side: its OPEN is written, or its stream opened where it is negotiated, if its stream is one of
// those that both sides agreed on. It is to be looked at once for itself, so that where it cannot be begun, what came
// on its stream meanwhile is still looked at behind it.
#[tactic(auto, unfolding(crate::specs::Steps::BeginsChannel))]
fn begin(table: &mut Table, driver: &mut Driver, id: StreamId) -> Result<Looked, Error>
    requires { stage_at table.old id ≡ Some stages.Waiting }
    ensures exact { BeginsChannel id table.old driver.old result table.new driver.new }
    ensures looks { IfOk result (λ looked. Looks table.old looked table.new) }
    ensures unannounced { IfOk result (λ looked. AnnouncesNone looked) }
    ensures err { OnErr result (table.new ≡ table.old) }
    ensures passes { IfErr result (λ error. may_pass error ≡ true) }
{
    if id >= driver.outbound_streams() {
        return Ok(fail(table, id));
    }
    let Some(channel) = table.get(id) else {
        return Ok(Looked::Done);
    };
    let negotiated = channel.is_negotiated();
    match begin_stream(channel, driver, id) {
        Ok(()) => Ok(mark_begun(table, id, negotiated)),
        Err(error) => {
            if may_pass(error) {
                return Err(error);
            }
            Ok(fail(table, id))
        }
    }
}

// A channel that is not begun is gone.
fn fail(table: &mut Table, id: StreamId) -> Looked
    ensures exact { table.new ≡ remove_entry (is_at (nat_cmp id)) table.old }
    ensures looked { result ≡ Looked.Ends (ChannelEvent.Failed id) }
    ensures looks { Looks table.old result table.new }
{
    table.remove(id);
    Looked::Ends(ChannelEvent::Failed(id))
}

#[tactic(auto, unfolding(crate::specs::Steps::HasBegun))]
fn mark_begun(table: &mut Table, id: StreamId, negotiated: bool) -> Looked
    requires { stage_at table.old id ≡ Some stages.Waiting }
    ensures exact { HasBegun negotiated id table.old result table.new }
    ensures looks { Looks table.old result table.new }
    ensures unannounced { AnnouncesNone result }
{
    if negotiated {
        table.mark_open(id);
        return Looked::Tells(ChannelEvent::Opened(id));
    }
    table.mark_begun(id);
    Looked::Again
}

#[tactic(auto, unfolding(crate::specs::Steps::FailsToBegin))]
fn begin_stream(channel: &Channel, driver: &mut Driver, id: StreamId) -> Result<(), Error>
    ensures ok { OnOk result (Begins driver.old id channel.now driver.new) }
    ensures err { IfErr result (λ error. FailsToBegin id channel.now driver.old error driver.new) }
{
    open_stream(driver, id)?;
    begin_on(channel, driver, id)
}

// On a stream that is there.
#[tactic(auto, unfolding(crate::specs::Steps::FailsToBeginOn))]
fn begin_on(channel: &Channel, driver: &mut Driver, id: StreamId) -> Result<(), Error>
    ensures ok { OnOk result (driver.new ≡ begun channel.now.negotiated driver.old id channel.now) }
    ensures err { IfErr result (λ error. FailsToBeginOn channel.now.negotiated id channel.now driver.old error
        driver.new) }
{
    if channel.is_negotiated() {
        return set_sending(channel, driver, id);
    }
    write_dcep(driver, id, channel.open_message().as_slice())?;
    set_in_order(channel, driver, id)
}

// Makes the stream, where the peer has not made it.
fn open_stream(driver: &mut Driver, id: StreamId) -> Result<(), Error>
    ensures ok { OnOk result ((driver.new ≡ driver.old) ⊎ (driver.new ≡ with_stream driver.old id)) }
    ensures err { IfErr result (λ error. IsNotOpened id driver.old error driver.new) }
{
    match driver.open_stream(id, PayloadProtocolIdentifier::Binary) {
        Ok(()) => Ok(()),
        Err(Error::ErrStreamAlreadyExist) => Ok(()),
        Err(error) => Err(error),
    }
}

// Whether a refusal says that a stream is gone or ends at this side, which is told by itself.
fn names_stream(error: Error) -> bool
    ensures { result ≡ names_stream error }
{
    matches!(
        error,
        Error::ErrStreamNotExisted | Error::ErrStreamClosed | Error::ErrStreamResetPending
    )
}

// Whether a channel goes on by what was done at its stream: also where the stream is gone or ends. Where it is refused
// for another reason, as in an association that ends, the channel stays as it is.
fn goes_on(answer: Result<(), Error>) -> Result<bool, Error>
    ensures exact { result ≡ goes_after answer }
    ensures ok { IfOk result (λ goes. goes ≡ goes_on answer) }
    ensures err { IfErr result (λ error. (may_pass error ≡ true) × (answer ≡ Err error)) }
{
    match answer {
        Ok(()) => Ok(true),
        Err(error) => {
            if may_pass(error) {
                Err(error)
            } else {
                Ok(names_stream(error))
            }
        }
    }
}

// A channel whose OPEN was written: the ACK comes, or another message, which says the same.
#[tactic(auto, unfolding(crate::specs::Steps::AwaitsAnswer))]
fn await_answer(table: &mut Table, driver: &mut Driver, id: StreamId) -> Result<Looked, Error>
    requires { stage_at table.old id ≡ Some stages.Begun }
    ensures exact { AwaitsAnswer id table.old driver.old result table.new driver.new }
    ensures looks { IfOk result (λ looked. Looks table.old looked table.new) }
    ensures unannounced { IfOk result (λ looked. AnnouncesNone looked) }
    ensures err { OnErr result (table.new ≡ table.old) }
    ensures passes { IfErr result (λ error. may_pass error ≡ true) }
{
    let mut byte = [0];
    let answer = read(driver, id, &mut byte)?;
    meet_answer(table, driver, id, answer, byte[0])
}

// What was read came, into one byte.
#[tactic(auto, unfolding(crate::specs::Steps::AnsweredBy))]
fn meet_answer(
    table: &mut Table,
    driver: &mut Driver,
    id: StreamId,
    answer: ReadAnswer,
    byte: u8,
) -> Result<Looked, Error>
    requires { stage_at table.old id ≡ Some stages.Begun }
    ensures exact { AnsweredBy answer byte id table.old driver.old result table.new driver.new }
    ensures looks { IfOk result (λ looked. Looks table.old looked table.new) }
    ensures unannounced { IfOk result (λ looked. AnnouncesNone looked) }
    ensures err { OnErr result (table.new ≡ table.old) }
    ensures passes { IfErr result (λ error. may_pass error ≡ true) }
{
    match answer {
        ReadAnswer::Nothing => Ok(Looked::Done),
        ReadAnswer::NoRoom { .. } => confirm(table, driver, id),
        ReadAnswer::Message { payload_type, .. } => {
            if is_dcep(payload_type) {
                return answer_dcep(table, driver, id, byte);
            }
            let message = ShortMessage { payload_type, byte };
            confirm_by(table, driver, id, message)
        }
    }
}

// A DCEP message of one byte came.
#[tactic(auto, unfolding(crate::specs::Steps::AnsweredByDcep))]
fn answer_dcep(
    table: &mut Table,
    driver: &mut Driver,
    id: StreamId,
    byte: u8,
) -> Result<Looked, Error>
    requires { stage_at table.old id ≡ Some stages.Begun }
    ensures exact { AnsweredByDcep byte id table.old driver.old result table.new driver.new }
    ensures looks { IfOk result (λ looked. Looks table.old looked table.new) }
    ensures unannounced { IfOk result (λ looked. AnnouncesNone looked) }
    ensures err { OnErr result (table.new ≡ table.old) }
    ensures passes { IfErr result (λ error. may_pass error ≡ true) }
{
    if is_ack(&[byte]) {
        return confirm(table, driver, id);
    }
    table.remove(id);
    Ok(refuse(driver, id))
}

// The ACK came, or what says the same: from now on messages go as the channel says.
#[tactic(auto, unfolding(crate::specs::Steps::Confirms))]
fn confirm(table: &mut Table, driver: &mut Driver, id: StreamId) -> Result<Looked, Error>
    requires { stage_at table.old id ≡ Some stages.Begun }
    ensures exact { Confirms id table.old driver.old result table.new driver.new (at_stage table.old id stages.Open) }
    ensures looks { IfOk result (λ looked. Looks table.old looked table.new) }
    ensures unannounced { IfOk result (λ looked. AnnouncesNone looked) }
    ensures err { OnErr result (table.new ≡ table.old) }
    ensures passes { IfErr result (λ error. may_pass error ≡ true) }
{
    let Some(channel) = table.get(id) else {
        return Ok(Looked::Done);
    };
    if !go_on_sending(channel, driver, id)? {
        return Ok(Looked::Done);
    }
    table.mark_open(id);
    Ok(Looked::Tells(ChannelEvent::Opened(id)))
}

// The same of a message of one byte, which is kept.
#[tactic(auto, unfolding(crate::specs::Steps::Confirms))]
fn confirm_by(
    table: &mut Table,
    driver: &mut Driver,
    id: StreamId,
    message: ShortMessage,
) -> Result<Looked, Error>
    requires { stage_at table.old id ≡ Some stages.Begun }
    ensures exact { Confirms id table.old driver.old result table.new driver.new
        (keeping_first (at_stage table.old id stages.Open) id message) }
    ensures looks { IfOk result (λ looked. Looks table.old looked table.new) }
    ensures unannounced { IfOk result (λ looked. AnnouncesNone looked) }
    ensures err { OnErr result (table.new ≡ table.old) }
    ensures passes { IfErr result (λ error. may_pass error ≡ true) }
{
    let Some(channel) = table.get(id) else {
        return Ok(Looked::Done);
    };
    if !go_on_sending(channel, driver, id)? {
        return Ok(Looked::Done);
    }
    table.mark_open_by(id, message);
    Ok(Looked::Tells(ChannelEvent::Opened(id)))
}

// A channel of the peer: its ACK is written. In an association that ends none can be, and then it is not announced.
#[tactic(auto, unfolding(crate::specs::Steps::AnnouncesChannel))]
fn acknowledge(table: &mut Table, driver: &mut Driver, id: StreamId) -> Result<Looked, Error>
    requires { stage_at table.old id ≡ Some stages.Announcing }
    ensures exact { AnnouncesChannel id table.old driver.old result table.new driver.new }
    ensures looks { IfOk result (λ looked. Looks table.old looked table.new) }
    ensures acks { IfOk result (λ looked. Acks driver.old table.old looked driver.new) }
    ensures err { OnErr result (table.new ≡ table.old) }
    ensures passes { IfErr result (λ error. may_pass error ≡ true) }
{
    let Some(channel) = table.get(id) else {
        return Ok(Looked::Done);
    };
    if !goes_on(write_ack(channel, driver, id))? {
        return Ok(Looked::Done);
    }
    table.mark_open(id);
    Ok(Looked::Tells(ChannelEvent::Announced(id)))
}

fn write_ack(channel: &Channel, driver: &mut Driver, id: StreamId) -> Result<(), Error>
    ensures ok { OnOk result (driver.new ≡ acknowledged driver.old id channel.now) }
    ensures err { IfErr result (λ error. Unacknowledged driver.old id error driver.new) }
{
    write_dcep(driver, id, &ACK_MESSAGE)?;
    set_sending(channel, driver, id)
}

// The stream sends as its channel says, and whether the channel goes on by that.
fn go_on_sending(channel: &Channel, driver: &mut Driver, id: StreamId) -> Result<bool, Error>
    ensures goes { result ≡ goes_by (stream_refusal driver.old.association id) }
    ensures sends { driver.new ≡ sending_by (stream_refusal driver.old.association id) driver.old id channel.now }
    ensures passes { IfErr result (λ error. may_pass error ≡ true) }
{
    goes_on(set_sending(channel, driver, id))
}

// The stream sends as its channel says.
fn set_sending(channel: &Channel, driver: &mut Driver, id: StreamId) -> Result<(), Error>
    ensures refused { Refuses result (stream_refusal driver.old.association id) }
    ensures ok { OnOk result
        (driver.new ≡ with_sending driver.old id (not (ordered_in channel.now.open_message)) channel.now) }
    ensures err { OnErr result (driver.new ≡ driver.old) }
{
    driver.set_reliability_params(
        id,
        !channel.is_ordered(),
        channel.reliability_type(),
        channel.reliability_value(),
    )
}

// The same in order, which a channel is until it is known that the peer read its OPEN.
fn set_in_order(channel: &Channel, driver: &mut Driver, id: StreamId) -> Result<(), Error>
    ensures refused { Refuses result (stream_refusal driver.old.association id) }
    ensures ok { OnOk result (driver.new ≡ with_sending driver.old id false channel.now) }
    ensures err { OnErr result (driver.new ≡ driver.old) }
{
    driver.set_reliability_params(
        id,
        false,
        channel.reliability_type(),
        channel.reliability_value(),
    )
}

fn write_dcep(driver: &mut Driver, id: StreamId, message: &[u8]) -> Result<(), Error>
    ensures refused { RefusesOrLacksMemory result (refusal_to_write driver.old.association id (length message.now)) }
    ensures ok { OnOk result (driver.new ≡ with_dcep driver.old id message.now) }
    ensures err { OnErr result (driver.new ≡ driver.old) }
{
    match driver.write(id, Some(PayloadProtocolIdentifier::Dcep), message) {
        Ok(_) => Ok(()),
        Err(error) => Err(error),
    }
}
