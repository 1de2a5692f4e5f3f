// The calls of streams.
ghost use Rattle.std.specs.Prelude.{◌≡◌, ◌≢◌, true, false, None, IfSome, length};
ghost use Rattle.sctp_wire_types.specs.Ids.{identifier_of};
ghost use Rattle.sctp_streams.specs.declared.setting.Setting.TheVariants as settings;
ghost use Rattle.sctp_streams.specs.Stream.{params_of};
ghost use Rattle.sctp_assoc.specs.Calls.{accepted_stream, adjusted, open_refusal, opened, refusal_to_write};
ghost use Rattle.sctp_assoc.specs.Calls.{stopped, stream_refusal, written};
ghost use Rattle.sctp_driver.specs.Driving.{RunsOutOfMemory, with_association};
ghost use Rattle.sctp_driver.specs.Messages.{Reads, with_message};
ghost use Rattle.sctp_driver.specs.Streams.{refusal_to_stop, stream_closed, with_stopped};
ghost use Rattle.sctp_slots.specs.Codes.{code_of};
ghost use Rattle.sctp_slots.specs.Numbers.{names_reliability, reliability_by};
ghost use Rattle.sctp_c.specs.Codes.{answer_in, code_with, found_by, may_be_written, names_payload_type};
ghost use Rattle.sctp_c.specs.Codes.{payload_type_by, read_by, read_code};
ghost use Rattle.sctp_c.specs.Slots.{OnAny, OnHeld, RefusesBy, RefusesOrLacksMemoryBy};

use crate::numbers::{BAD_PAYLOAD_TYPE, may_be_written, names_payload_type};
use sctp_driver::{Error, PayloadProtocolIdentifier, ReadAnswer};
use sctp_slots::{
    BAD_RELIABILITY, DONE, EMPTY_SLOT, NO_ROOM, NOTHING, Slot, code_of, names_reliability,
    refusal_code, reliability_of,
};
use std::alloc::Global;

/// Makes a stream on this side.
#[unsafe(no_mangle)]
#[tactic(auto, using(crate::proofs::Refusals::of_refusal_or_memory, crate::proofs::Refusals::when_done, crate::proofs::Refusals::when_refused))]
pub extern "C" fn sctp_assoc_open_stream(
    slot: &mut Slot,
    alloc: Global,
    stream: u16,
    payload_type: u32,
) -> u32
    ensures unnamed { names_payload_type payload_type ≡ false → result ≡ 68 }
    ensures code { names_payload_type payload_type ≡ true → RefusesOrLacksMemoryBy
        (λ d. open_refusal d.association stream) slot.old.handle.driver result }
    ensures done { result ≡ 0 → OnHeld slot.old.handle.driver slot.new.handle.driver
        (λ d e. e ≡ with_association d
        (opened d.association stream (identifier_of payload_type))) }
    ensures left { result ≢ 0 → slot.new.handle.driver ≡ slot.old.handle.driver }
{
    if !names_payload_type(payload_type) {
        return BAD_PAYLOAD_TYPE;
    }
    let Some(mut driver) = slot.take(alloc) else {
        return EMPTY_SLOT;
    };
    let answer = driver.open_stream(stream, PayloadProtocolIdentifier::from_number(payload_type));
    slot.put(driver);
    code_of(answer)
}

/// Takes out the oldest stream that the peer opened and that was not accepted yet.
#[unsafe(no_mangle)]
pub extern "C" fn sctp_assoc_accept_stream(slot: &mut Slot, alloc: Global, stream: &mut u16) -> u32
    ensures accepted { OnAny slot.old.handle.driver slot.new.handle.driver (λ d e. accepted_stream d.association
        ≡ (e.association, found_by result stream.new)) }
    ensures others { OnAny slot.old.handle.driver slot.new.handle.driver
        (λ d e. e ≡ with_association d e.association) }
    ensures empty { slot.old.handle.driver ≡ None → result ≡ 1 }
{
    let Some(mut driver) = slot.take(alloc) else {
        return EMPTY_SLOT;
    };
    let accepted = driver.accept_stream();
    slot.put(driver);
    match accepted {
        Some(id) => {
            *stream = id;
            DONE
        }
        None => NOTHING,
    }
}

// The greatest number stands for the payload type of the stream.
fn payload_type_of(number: u32) -> Option<PayloadProtocolIdentifier>
    ensures { result ≡ payload_type_by number }
{
    if number == u32::MAX {
        None
    } else {
        Some(PayloadProtocolIdentifier::from_number(number))
    }
}

fn code_of_write(answer: Result<usize, Error>) -> u32
    ensures { result ≡ code_of answer }
{
    match answer {
        Ok(_) => DONE,
        Err(error) => refusal_code(error),
    }
}

/// Accepts one message.
#[unsafe(no_mangle)]
#[tactic(auto, using(crate::proofs::Refusals::of_refusal_or_memory, crate::proofs::Refusals::when_done, crate::proofs::Refusals::when_refused))]
pub extern "C" fn sctp_assoc_write(
    slot: &mut Slot,
    alloc: Global,
    stream: u16,
    payload_type: u32,
    message: &[u8],
) -> u32
    ensures unnamed { may_be_written payload_type ≡ false → result ≡ 68 }
    ensures code { may_be_written payload_type ≡ true → RefusesOrLacksMemoryBy
        (λ d. refusal_to_write d.association stream (length message.now)) slot.old.handle.driver result }
    ensures done { result ≡ 0 → OnHeld slot.old.handle.driver slot.new.handle.driver
        (λ d e. e ≡ with_association d
        (written d.association stream (payload_type_by payload_type) message.now)) }
    ensures left { result ≢ 0 → slot.new.handle.driver ≡ slot.old.handle.driver }
{
    if !may_be_written(payload_type) {
        return BAD_PAYLOAD_TYPE;
    }
    let Some(mut driver) = slot.take(alloc) else {
        return EMPTY_SLOT;
    };
    let answer = driver.write(stream, payload_type_of(payload_type), message);
    slot.put(driver);
    code_of_write(answer)
}

// Writes what is known of the message that was read, or that did not fit.
#[tactic(auto, using(crate::proofs::Refusals::none_read, crate::proofs::Refusals::number_names))]
fn tell_read(answer: Result<ReadAnswer, Error>, length: &mut usize, payload_type: &mut u32) -> u32
    ensures answer { read_by result length.new payload_type.new ≡ answer_in answer }
    ensures code { result ≡ code_with read_code answer }
{
    match answer {
        Ok(
            ReadAnswer::Message {
                payload_type: kind,
                length: read,
            },
        ) => {
            *length = read;
            *payload_type = kind.number();
            DONE
        }
        Ok(ReadAnswer::Nothing) => NOTHING,
        Ok(ReadAnswer::NoRoom { length: wanted }) => {
            *length = wanted;
            NO_ROOM
        }
        Err(error) => refusal_code(error),
    }
}

/// Reads the next message of a stream.
#[unsafe(no_mangle)]
#[tactic(auto, using(crate::proofs::Refusals::when_answered, crate::proofs::Refusals::unfilled_read))]
pub extern "C" fn sctp_assoc_read(
    slot: &mut Slot,
    alloc: Global,
    stream: u16,
    buffer: &mut [u8],
    length: &mut usize,
    payload_type: &mut u32,
) -> u32
    ensures given { IfSome (read_by result length.new payload_type.new) (λ answer.
        OnHeld slot.old.handle.driver slot.new.handle.driver
        (λ d e. Reads (with_message d stream) stream buffer.old answer e buffer.new)) }
    ensures empty { slot.old.handle.driver ≡ None → (result ≡ 1) × (slot.new.handle.driver ≡ None) }
    ensures unfilled { result ≢ 0 → buffer.new ≡ buffer.old }
{
    let Some(mut driver) = slot.take(alloc) else {
        return EMPTY_SLOT;
    };
    let answer = driver.read(stream, buffer);
    slot.put(driver);
    tell_read(answer, length, payload_type)
}

/// Closes the write half of a stream.
#[unsafe(no_mangle)]
#[tactic(auto, using(crate::proofs::Refusals::of_refusal, crate::proofs::Refusals::when_done, crate::proofs::Refusals::when_refused))]
pub extern "C" fn sctp_assoc_finish(slot: &mut Slot, alloc: Global, stream: u16) -> u32
    ensures code { RefusesBy (λ d. stream_refusal d.association stream) slot.old.handle.driver result }
    ensures done { result ≡ 0 → OnHeld slot.old.handle.driver slot.new.handle.driver
        (λ d e. e ≡ with_association d
        (adjusted d.association stream settings.WriteHalfClosed)) }
    ensures left { result ≢ 0 → slot.new.handle.driver ≡ slot.old.handle.driver }
{
    let Some(mut driver) = slot.take(alloc) else {
        return EMPTY_SLOT;
    };
    let answer = driver.finish(stream);
    slot.put(driver);
    code_of(answer)
}

/// Closes the read half of a stream, and asks for a reset of it.
#[unsafe(no_mangle)]
#[tactic(auto, using(crate::proofs::Refusals::of_refusal_or_memory, crate::proofs::Refusals::when_done, crate::proofs::Refusals::when_memory, crate::proofs::Refusals::when_unchanged))]
pub extern "C" fn sctp_assoc_stop(slot: &mut Slot, alloc: Global, stream: u16) -> u32
    ensures code { RefusesOrLacksMemoryBy (λ d. refusal_to_stop d.association stream)
        slot.old.handle.driver result }
    ensures done { result ≡ 0 → OnHeld slot.old.handle.driver slot.new.handle.driver
        (λ d e. e ≡ with_stopped d stream (stopped d.association stream)) }
    ensures left { result ≢ 0 → result ≢ 2 → slot.new.handle.driver ≡ slot.old.handle.driver }
    ensures memory { result ≡ 2 → OnHeld slot.old.handle.driver slot.new.handle.driver (λ d e. RunsOutOfMemory d e) }
{
    let Some(mut driver) = slot.take(alloc) else {
        return EMPTY_SLOT;
    };
    let answer = driver.stop(stream);
    slot.put(driver);
    code_of(answer)
}

/// Closes both halves of a stream.
#[unsafe(no_mangle)]
#[tactic(auto, using(crate::proofs::Refusals::of_refusal_or_memory, crate::proofs::Refusals::when_done, crate::proofs::Refusals::when_memory, crate::proofs::Refusals::when_unchanged))]
pub extern "C" fn sctp_assoc_close_stream(slot: &mut Slot, alloc: Global, stream: u16) -> u32
    ensures code { RefusesOrLacksMemoryBy (λ d. refusal_to_stop d.association stream)
        slot.old.handle.driver result }
    ensures done { result ≡ 0 → OnHeld slot.old.handle.driver slot.new.handle.driver
        (λ d e. e ≡ with_stopped d stream (stream_closed d.association stream)) }
    ensures left { result ≢ 0 → result ≢ 2 → slot.new.handle.driver ≡ slot.old.handle.driver }
    ensures memory { result ≡ 2 → OnHeld slot.old.handle.driver slot.new.handle.driver (λ d e. RunsOutOfMemory d e) }
{
    let Some(mut driver) = slot.take(alloc) else {
        return EMPTY_SLOT;
    };
    let answer = driver.close_stream(stream);
    slot.put(driver);
    code_of(answer)
}

/// Sets how messages of a stream are sent.
#[unsafe(no_mangle)]
#[tactic(auto, using(crate::proofs::Refusals::of_refusal, crate::proofs::Refusals::when_done, crate::proofs::Refusals::when_refused))]
pub extern "C" fn sctp_assoc_set_reliability(
    slot: &mut Slot,
    alloc: Global,
    stream: u16,
    unordered: bool,
    kind: u32,
    value: u32,
) -> u32
    ensures unnamed { names_reliability kind ≡ false → result ≡ 69 }
    ensures code { names_reliability kind ≡ true
        → RefusesBy (λ d. stream_refusal d.association stream) slot.old.handle.driver result }
    ensures done { result ≡ 0 → OnHeld slot.old.handle.driver slot.new.handle.driver
        (λ d e. e ≡ with_association d (adjusted d.association stream
        (settings.Reliability (params_of unordered (reliability_by kind) value)))) }
    ensures left { result ≢ 0 → slot.new.handle.driver ≡ slot.old.handle.driver }
{
    if !names_reliability(kind) {
        return BAD_RELIABILITY;
    }
    let Some(mut driver) = slot.take(alloc) else {
        return EMPTY_SLOT;
    };
    let answer = driver.set_reliability_params(stream, unordered, reliability_of(kind), value);
    slot.put(driver);
    code_of(answer)
}
