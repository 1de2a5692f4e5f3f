// Datagrams and moments.
ghost use Rattle.std.specs.Prelude.{◌≡◌, ◌≢◌, ◌⊎◌, None, IfSome};
ghost use Rattle.sctp_parts.specs.Timers.{least_moment};
ghost use Rattle.sctp_driver.specs.declared.tags.DatagramAnswer.TheVariants as fates;
ghost use Rattle.sctp_driver.specs.Driving.{RunsOutOfMemory, with_association};
ghost use Rattle.sctp_driver.specs.Sending.{Sends, asked};
ghost use Rattle.sctp_driver.specs.Late.{with_datagram};
ghost use Rattle.sctp_driver.specs.Silence.{timed_out};
ghost use Rattle.sctp_driver.specs.Tags.{answer_to};
ghost use Rattle.sctp_slots.specs.Codes.{code_of};
ghost use Rattle.sctp_c.specs.Codes.{answer_in, fate_of, code_with, found_by, received_by};
ghost use Rattle.sctp_c.specs.Codes.{sent_by, sent_code};
ghost use Rattle.sctp_c.specs.Slots.{OnAny, OnHeld};

use sctp_driver::{DatagramAnswer, Error, PollAnswer};
use sctp_slots::{DONE, EMPTY_SLOT, NO_ROOM, NOTHING, Slot, code_of, refusal_code};
use std::alloc::Global;

fn fate_of(received: DatagramAnswer) -> u32
    ensures { fate_of result ≡ received }
{
    match received {
        DatagramAnswer::Taken => 0,
        DatagramAnswer::NoPacket => 1,
        DatagramAnswer::OtherTag => 2,
        DatagramAnswer::RepeatedInit => 3,
        DatagramAnswer::OtherInit => 4,
    }
}

// Writes what became of a datagram.
#[tactic(auto, using(crate::proofs::Refusals::never_done))]
fn tell_fate(answer: Result<DatagramAnswer, Error>, fate: &mut u32) -> u32
    ensures answer { received_by result fate.new ≡ answer_in answer }
    ensures code { result ≡ code_of answer }
{
    match answer {
        Ok(received) => {
            *fate = fate_of(received);
            DONE
        }
        Err(error) => refusal_code(error),
    }
}

/// Takes in one datagram.
#[unsafe(no_mangle)]
#[tactic(auto, using(crate::proofs::Refusals::when_answered, crate::proofs::Refusals::when_done, crate::proofs::Refusals::when_failed, crate::proofs::Refusals::when_memory))]
pub extern "C" fn sctp_assoc_handle_datagram(
    slot: &mut Slot,
    alloc: Global,
    now: u64,
    datagram: &[u8],
    fate: &mut u32,
) -> u32
    ensures answer { IfSome (received_by result fate.new) (λ answer. OnHeld slot.old.handle.driver slot.new.handle.driver
        (λ d e. answer ≡ answer_to d datagram.now)) }
    ensures left { OnAny slot.old.handle.driver slot.new.handle.driver
        (λ d e. answer_to d datagram.now ≢ fates.Taken → e ≡ d) }
    ensures taken { result ≡ 0 → OnHeld slot.old.handle.driver slot.new.handle.driver
        (λ d e. answer_to d datagram.now ≡ fates.Taken → e ≡ with_datagram d datagram.now now) }
    ensures empty { slot.old.handle.driver ≡ None → result ≡ 1 }
    ensures refused { result ≡ 10 → slot.new.handle.driver ≡ slot.old.handle.driver }
    ensures memory { result ≡ 2 → OnHeld slot.old.handle.driver slot.new.handle.driver
        (λ d e. (e ≡ d) ⊎ RunsOutOfMemory d e) }
{
    let Some(mut driver) = slot.take(alloc) else {
        return EMPTY_SLOT;
    };
    let answer = driver.handle_datagram(now, datagram);
    slot.put(driver);
    tell_fate(answer, fate)
}

// Writes how long the datagram is that was given, or that did not fit.
#[tactic(auto, using(crate::proofs::Refusals::none_sent))]
fn tell_sent(answer: Result<PollAnswer, Error>, length: &mut usize) -> u32
    ensures answer { sent_by result length.new ≡ answer_in answer }
    ensures code { result ≡ code_with sent_code answer }
{
    match answer {
        Ok(PollAnswer::Datagram { length: sent }) => {
            *length = sent;
            DONE
        }
        Ok(PollAnswer::Nothing) => NOTHING,
        Ok(PollAnswer::NoRoom { length: wanted }) => {
            *length = wanted;
            NO_ROOM
        }
        Err(error) => refusal_code(error),
    }
}

/// Gives the next datagram that is due.
#[unsafe(no_mangle)]
#[tactic(auto, using(crate::proofs::Refusals::when_answered, crate::proofs::Refusals::sent_failed, crate::proofs::Refusals::sent_memory, crate::proofs::Refusals::unfilled_sent))]
pub extern "C" fn sctp_assoc_poll_transmit(
    slot: &mut Slot,
    alloc: Global,
    now: u64,
    buffer: &mut [u8],
    length: &mut usize,
) -> u32
    ensures given { IfSome (sent_by result length.new) (λ answer. OnHeld slot.old.handle.driver slot.new.handle.driver
        (λ d e. Sends (asked d now) buffer.old answer e buffer.new)) }
    ensures empty { slot.old.handle.driver ≡ None → (result ≡ 1) × (slot.new.handle.driver ≡ None) }
    ensures refused { result ≡ 10 → slot.new.handle.driver ≡ slot.old.handle.driver }
    ensures memory { result ≡ 2 → OnHeld slot.old.handle.driver slot.new.handle.driver (λ d e. RunsOutOfMemory d e) }
    ensures unfilled { (result ≢ 0) → buffer.new ≡ buffer.old }
{
    let Some(mut driver) = slot.take(alloc) else {
        return EMPTY_SLOT;
    };
    let answer = driver.poll_transmit(now, buffer);
    slot.put(driver);
    tell_sent(answer, length)
}

/// The moment at which the next timer expires.
#[unsafe(no_mangle)]
pub extern "C" fn sctp_assoc_poll_timeout(slot: &mut Slot, alloc: Global, moment: &mut u64) -> u32
    ensures moment { OnAny slot.old.handle.driver slot.new.handle.driver
        (λ d e. (e ≡ d) × (found_by result moment.new ≡ least_moment d.association.timers)) }
    ensures empty { slot.old.handle.driver ≡ None → result ≡ 1 }
{
    let Some(driver) = slot.take(alloc) else {
        return EMPTY_SLOT;
    };
    let answer = driver.poll_timeout();
    slot.put(driver);
    match answer {
        Some(next) => {
            *moment = next;
            DONE
        }
        None => NOTHING,
    }
}

/// Does what the timers that expired ask for.
#[unsafe(no_mangle)]
#[tactic(auto, using(crate::proofs::Refusals::when_done, crate::proofs::Refusals::when_failed, crate::proofs::Refusals::when_memory))]
pub extern "C" fn sctp_assoc_handle_timeout(slot: &mut Slot, alloc: Global, now: u64) -> u32
    ensures done { result ≡ 0 → OnHeld slot.old.handle.driver slot.new.handle.driver
        (λ d e. e ≡ with_association d (timed_out d.association d.shutdown_limit now)) }
    ensures empty { slot.old.handle.driver ≡ None → (result ≡ 1) × (slot.new.handle.driver ≡ None) }
    ensures refused { result ≡ 10 → slot.new.handle.driver ≡ slot.old.handle.driver }
    ensures memory { result ≡ 2 → OnHeld slot.old.handle.driver slot.new.handle.driver (λ d e. RunsOutOfMemory d e) }
{
    let Some(mut driver) = slot.take(alloc) else {
        return EMPTY_SLOT;
    };
    let answer = driver.handle_timeout(now);
    slot.put(driver);
    code_of(answer)
}
