// Questions about the state.
ghost use Rattle.std.specs.Prelude.{◌≡◌, None};
ghost use Rattle.sctp_parts.specs.State.{is_closing};
ghost use Rattle.sctp_assoc.specs.Calls.{is_established};
ghost use Rattle.sctp_assoc.specs.Closing.{is_closed_state, tells_exhaustion};
ghost use Rattle.sctp_c.specs.Slots.{OnAny};

use sctp_slots::{DONE, EMPTY_SLOT, Slot};
use std::alloc::Global;

/// Whether the association is established.
#[unsafe(no_mangle)]
pub extern "C" fn sctp_assoc_is_established(
    slot: &mut Slot,
    alloc: Global,
    answer: &mut bool,
) -> u32
    ensures answer { OnAny slot.old.handle.driver slot.new.handle.driver
        (λ d e. (e ≡ d) × (result ≡ 0) × (answer.new ≡ is_established d.association.state)) }
    ensures empty { slot.old.handle.driver ≡ None → (result ≡ 1) × (answer.new ≡ answer.old) }
{
    let Some(driver) = slot.take(alloc) else {
        return EMPTY_SLOT;
    };
    *answer = driver.is_established();
    slot.put(driver);
    DONE
}

/// Whether a shutdown has begun and the association is not closed yet.
#[unsafe(no_mangle)]
pub extern "C" fn sctp_assoc_is_closing(slot: &mut Slot, alloc: Global, answer: &mut bool) -> u32
    ensures answer { OnAny slot.old.handle.driver slot.new.handle.driver
        (λ d e. (e ≡ d) × (result ≡ 0) × (answer.new ≡ is_closing d.association.state)) }
    ensures empty { slot.old.handle.driver ≡ None → (result ≡ 1) × (answer.new ≡ answer.old) }
{
    let Some(driver) = slot.take(alloc) else {
        return EMPTY_SLOT;
    };
    *answer = driver.is_closing();
    slot.put(driver);
    DONE
}

/// Whether the association is closed.
#[unsafe(no_mangle)]
pub extern "C" fn sctp_assoc_is_closed(slot: &mut Slot, alloc: Global, answer: &mut bool) -> u32
    ensures answer { OnAny slot.old.handle.driver slot.new.handle.driver
        (λ d e. (e ≡ d) × (result ≡ 0) × (answer.new ≡ is_closed_state d.association.state)) }
    ensures empty { slot.old.handle.driver ≡ None → (result ≡ 1) × (answer.new ≡ answer.old) }
{
    let Some(driver) = slot.take(alloc) else {
        return EMPTY_SLOT;
    };
    *answer = driver.is_closed();
    slot.put(driver);
    DONE
}

/// Whether the association was lost.
#[unsafe(no_mangle)]
pub extern "C" fn sctp_assoc_is_drained(slot: &mut Slot, alloc: Global, answer: &mut bool) -> u32
    ensures answer { OnAny slot.old.handle.driver slot.new.handle.driver
        (λ d e. (e ≡ d) × (result ≡ 0) × (answer.new ≡ d.association.lost)) }
    ensures empty { slot.old.handle.driver ≡ None → (result ≡ 1) × (answer.new ≡ answer.old) }
{
    let Some(driver) = slot.take(alloc) else {
        return EMPTY_SLOT;
    };
    *answer = driver.is_drained();
    slot.put(driver);
    DONE
}

/// Whether the newest event tells that the receive buffer was exhausted. `archive/watch.c` calls this.
#[unsafe(no_mangle)]
pub extern "C" fn sctp_assoc_tells_exhaustion(
    slot: &mut Slot,
    alloc: Global,
    answer: &mut bool,
) -> u32
    ensures answer { OnAny slot.old.handle.driver slot.new.handle.driver
        (λ d e. (e ≡ d) × (result ≡ 0) × (answer.new ≡ tells_exhaustion d.association)) }
    ensures empty { slot.old.handle.driver ≡ None → (result ≡ 1) × (answer.new ≡ answer.old) }
{
    let Some(driver) = slot.take(alloc) else {
        return EMPTY_SLOT;
    };
    *answer = driver.tells_exhaustion();
    slot.put(driver);
    DONE
}

/// Whether an earlier call found no memory in its middle.
#[unsafe(no_mangle)]
pub extern "C" fn sctp_assoc_is_failed(slot: &mut Slot, alloc: Global, answer: &mut bool) -> u32
    ensures answer { OnAny slot.old.handle.driver slot.new.handle.driver
        (λ d e. (e ≡ d) × (result ≡ 0) × (answer.new ≡ d.association.failed)) }
    ensures empty { slot.old.handle.driver ≡ None → (result ≡ 1) × (answer.new ≡ answer.old) }
{
    let Some(driver) = slot.take(alloc) else {
        return EMPTY_SLOT;
    };
    *answer = driver.is_failed();
    slot.put(driver);
    DONE
}
