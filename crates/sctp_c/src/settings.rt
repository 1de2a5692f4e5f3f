// What is set: how long a message may be, and of a stream its payload type and its marks.
ghost use Rattle.std.specs.Prelude.{◌≡◌, ◌≢◌, true, false, None};
ghost use Rattle.sctp_wire_types.specs.Ids.{identifier_of, number_of};
ghost use Rattle.sctp_streams.specs.declared.setting.Setting.TheVariants as settings;
ghost use Rattle.sctp_assoc.specs.Calls.{adjusted, stream_refusal, with_max_send_message_size};
ghost use Rattle.sctp_driver.specs.Driving.{with_association};
ghost use Rattle.sctp_driver.specs.Streams.{asked_of, buffered_on};
ghost use Rattle.sctp_c.specs.Codes.{Writes, WritesNumber, names_payload_type};
ghost use Rattle.sctp_c.specs.Slots.{OnAny, OnHeld, RefusesBy};

use crate::numbers::{BAD_PAYLOAD_TYPE, names_payload_type};
use sctp_driver::{Error, PayloadProtocolIdentifier};
use sctp_slots::{DONE, EMPTY_SLOT, Slot, code_of, refusal_code};
use std::alloc::Global;

/// Sets how long a message may be.
#[unsafe(no_mangle)]
pub extern "C" fn sctp_assoc_set_max_send_message_size(
    slot: &mut Slot,
    alloc: Global,
    bytes: u32,
) -> u32
    ensures set { OnAny slot.old.handle.driver slot.new.handle.driver (λ d e. (result ≡ 0)
        × (e ≡ with_association d (with_max_send_message_size d.association bytes))) }
    ensures empty { slot.old.handle.driver ≡ None → result ≡ 1 }
{
    let Some(mut driver) = slot.take(alloc) else {
        return EMPTY_SLOT;
    };
    driver.set_max_send_message_size(bytes);
    slot.put(driver);
    DONE
}

/// The payload type of a stream.
#[unsafe(no_mangle)]
pub extern "C" fn sctp_assoc_payload_type(
    slot: &mut Slot,
    alloc: Global,
    stream: u16,
    payload_type: &mut u32,
) -> u32
    ensures answer { OnAny slot.old.handle.driver slot.new.handle.driver (λ d e. (e ≡ d)
        × Writes number_of (asked_of (λ s. s.default_payload_type) d.association stream) result
        payload_type.old payload_type.new) }
    ensures empty { slot.old.handle.driver ≡ None → (result ≡ 1) × (payload_type.new ≡ payload_type.old) }
{
    let Some(mut driver) = slot.take(alloc) else {
        return EMPTY_SLOT;
    };
    let answer = driver.default_payload_type(stream);
    slot.put(driver);
    match answer {
        Ok(kind) => {
            *payload_type = kind.number();
            DONE
        }
        Err(error) => refusal_code(error),
    }
}

/// Sets the payload type of a stream.
#[unsafe(no_mangle)]
#[tactic(auto, using(crate::proofs::Refusals::of_refusal, crate::proofs::Refusals::when_done, crate::proofs::Refusals::when_refused))]
pub extern "C" fn sctp_assoc_set_payload_type(
    slot: &mut Slot,
    alloc: Global,
    stream: u16,
    payload_type: u32,
) -> u32
    ensures unnamed { names_payload_type payload_type ≡ false → result ≡ 68 }
    ensures code { names_payload_type payload_type ≡ true
        → RefusesBy (λ d. stream_refusal d.association stream) slot.old.handle.driver result }
    ensures done { result ≡ 0 → OnHeld slot.old.handle.driver slot.new.handle.driver
        (λ d e. e ≡ with_association d
        (adjusted d.association stream (settings.DefaultPayloadType (identifier_of payload_type)))) }
    ensures left { result ≢ 0 → slot.new.handle.driver ≡ slot.old.handle.driver }
{
    if !names_payload_type(payload_type) {
        return BAD_PAYLOAD_TYPE;
    }
    let Some(mut driver) = slot.take(alloc) else {
        return EMPTY_SLOT;
    };
    let answer = driver.set_default_payload_type(
        stream,
        PayloadProtocolIdentifier::from_number(payload_type),
    );
    slot.put(driver);
    code_of(answer)
}

// Writes the number that was asked for.
fn tell_number(answer: Result<usize, Error>, number: &mut usize) -> u32
    ensures { WritesNumber answer result number.old number.new }
{
    match answer {
        Ok(told) => {
            *number = told;
            DONE
        }
        Err(error) => refusal_code(error),
    }
}

/// Bytes of a stream that are accepted and not acknowledged.
#[unsafe(no_mangle)]
pub extern "C" fn sctp_assoc_buffered_amount(
    slot: &mut Slot,
    alloc: Global,
    stream: u16,
    bytes: &mut usize,
) -> u32
    ensures answer { OnAny slot.old.handle.driver slot.new.handle.driver (λ d e. (e ≡ d)
        × WritesNumber (buffered_on d.association stream) result bytes.old bytes.new) }
    ensures empty { slot.old.handle.driver ≡ None → (result ≡ 1) × (bytes.new ≡ bytes.old) }
{
    let Some(mut driver) = slot.take(alloc) else {
        return EMPTY_SLOT;
    };
    let answer = driver.buffered_amount(stream);
    slot.put(driver);
    tell_number(answer, bytes)
}

/// The low mark of a stream's buffered amount.
#[unsafe(no_mangle)]
pub extern "C" fn sctp_assoc_low_mark(
    slot: &mut Slot,
    alloc: Global,
    stream: u16,
    bytes: &mut usize,
) -> u32
    ensures answer { OnAny slot.old.handle.driver slot.new.handle.driver (λ d e. (e ≡ d)
        × WritesNumber (asked_of (λ s. s.low_mark) d.association stream) result bytes.old bytes.new) }
    ensures empty { slot.old.handle.driver ≡ None → (result ≡ 1) × (bytes.new ≡ bytes.old) }
{
    let Some(mut driver) = slot.take(alloc) else {
        return EMPTY_SLOT;
    };
    let answer = driver.buffered_amount_low_threshold(stream);
    slot.put(driver);
    tell_number(answer, bytes)
}

/// Sets it.
#[unsafe(no_mangle)]
#[tactic(auto, using(crate::proofs::Refusals::of_refusal, crate::proofs::Refusals::when_done, crate::proofs::Refusals::when_refused))]
pub extern "C" fn sctp_assoc_set_low_mark(
    slot: &mut Slot,
    alloc: Global,
    stream: u16,
    bytes: usize,
) -> u32
    ensures code { RefusesBy (λ d. stream_refusal d.association stream) slot.old.handle.driver result }
    ensures done { result ≡ 0 → OnHeld slot.old.handle.driver slot.new.handle.driver
        (λ d e. e ≡ with_association d
        (adjusted d.association stream (settings.LowMark bytes))) }
    ensures left { result ≢ 0 → slot.new.handle.driver ≡ slot.old.handle.driver }
{
    let Some(mut driver) = slot.take(alloc) else {
        return EMPTY_SLOT;
    };
    let answer = driver.set_buffered_amount_low_threshold(stream, bytes);
    slot.put(driver);
    code_of(answer)
}

/// The high mark of a stream's buffered amount.
#[unsafe(no_mangle)]
pub extern "C" fn sctp_assoc_high_mark(
    slot: &mut Slot,
    alloc: Global,
    stream: u16,
    bytes: &mut usize,
) -> u32
    ensures answer { OnAny slot.old.handle.driver slot.new.handle.driver (λ d e. (e ≡ d)
        × WritesNumber (asked_of (λ s. s.high_mark) d.association stream) result bytes.old bytes.new) }
    ensures empty { slot.old.handle.driver ≡ None → (result ≡ 1) × (bytes.new ≡ bytes.old) }
{
    let Some(mut driver) = slot.take(alloc) else {
        return EMPTY_SLOT;
    };
    let answer = driver.buffered_amount_high_threshold(stream);
    slot.put(driver);
    tell_number(answer, bytes)
}

/// Sets it.
#[unsafe(no_mangle)]
#[tactic(auto, using(crate::proofs::Refusals::of_refusal, crate::proofs::Refusals::when_done, crate::proofs::Refusals::when_refused))]
pub extern "C" fn sctp_assoc_set_high_mark(
    slot: &mut Slot,
    alloc: Global,
    stream: u16,
    bytes: usize,
) -> u32
    ensures code { RefusesBy (λ d. stream_refusal d.association stream) slot.old.handle.driver result }
    ensures done { result ≡ 0 → OnHeld slot.old.handle.driver slot.new.handle.driver
        (λ d e. e ≡ with_association d
        (adjusted d.association stream (settings.HighMark bytes))) }
    ensures left { result ≢ 0 → slot.new.handle.driver ≡ slot.old.handle.driver }
{
    let Some(mut driver) = slot.take(alloc) else {
        return EMPTY_SLOT;
    };
    let answer = driver.set_buffered_amount_high_threshold(stream, bytes);
    slot.put(driver);
    code_of(answer)
}
