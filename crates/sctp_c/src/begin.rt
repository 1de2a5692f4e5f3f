// How an association begins and ends.
ghost use Rattle.std.specs.Prelude.{◌≡◌, ◌≢◌, ◌⊎◌, None, Some, IfOk, IsErrOf, IsOkAnd, IsSomeAnd};
ghost use Rattle.sctp_wire_types.specs.declared.error.Error.TheVariants as errors;
ghost use Rattle.sctp_streams.specs.declared.event.AssociationError.TheVariants as reasons;
ghost use Rattle.sctp_assoc.specs.Calls.{Refuses, failed_refusal, first_refusal};
ghost use Rattle.sctp_assoc.specs.Closing.{closed_by};
ghost use Rattle.sctp_assoc.specs.Created.{client, create_refusal, join_refusal, joined, server};
ghost use Rattle.sctp_assoc.specs.Shutdown.{shutdown_begun, shutdown_refusal};
ghost use Rattle.sctp_driver.specs.Aborting.{Aborts, IsTooLong};
ghost use Rattle.sctp_driver.specs.Driving.{RunsOutOfMemory, begun_with, by_rfcs, timeout_refusal, with_association};
ghost use Rattle.sctp_driver.specs.Heartbeats.{heartbeat_refusal, with_heartbeat};
ghost use Rattle.sctp_slots.specs.Codes.{code_of};
ghost use Rattle.sctp_c.specs.Configs.{config_refusal, settings_of, side_refusal, token_chunk};
ghost use Rattle.sctp_c.specs.Slots.{IsCode, IsCodeOrLacksMemory, IsPlaced, OnHeld, RefusesBy};
ghost use Rattle.sctp_c.specs.Slots.{RefusesOrLacksMemoryBy};

use crate::config::{Config, Identity, Token};
use sctp_driver::{Driver, Error};
use sctp_slots::{DONE, EMPTY_SLOT, NO_MEMORY, Slot, code_of, refusal_code};
use std::alloc::Global;

// Puts a driver that was just made into a slot, in place of one that it held. A driver is large, and each frame that
// hands it on copies it, so this function is put into its callers.
#[inline(always)]
#[tactic(auto, using(crate::proofs::Refusals::never_done))]
fn place(slot: &mut Slot, alloc: Global, made: Result<Driver, Error>) -> u32
    ensures code { IsPlaced made result }
    ensures held { result ≡ 0 → IsOkAnd made (λ d. slot.new.handle.driver ≡ Some d) }
    ensures left { result ≢ 0 → slot.new.handle.driver ≡ slot.old.handle.driver }
{
    let driver = match made {
        Ok(driver) => driver,
        Err(error) => return refusal_code(error),
    };
    match Box::new(alloc, driver) {
        Ok(driver) => {
            drop(slot.take(alloc));
            slot.put(driver);
            DONE
        }
        Err(_) => NO_MEMORY,
    }
}

/// Makes a client.
#[unsafe(no_mangle)]
#[tactic(auto, using(crate::proofs::Refusals::when_placed, crate::proofs::Refusals::when_made))]
pub extern "C" fn sctp_assoc_client(
    slot: &mut Slot,
    alloc: Global,
    config: &Config,
    max_payload_size: u32,
    identity: &Identity,
    now: u64,
) -> u32
    ensures unusable { side_refusal config.now identity.now.tag ≢ 0
        → result ≡ side_refusal config.now identity.now.tag }
    ensures code { side_refusal config.now identity.now.tag ≡ 0 → IsCodeOrLacksMemory (first_refusal
        (timeout_refusal (settings_of config.now)) (create_refusal max_payload_size identity.now.initial_tsn)) result }
    ensures created { result ≡ 0 → IsSomeAnd slot.new.handle.driver (λ d. d ≡ begun_with
        (client (by_rfcs (settings_of config.now)) max_payload_size identity.now.tag identity.now.initial_tsn
        identity.now.cookie d.association.remote_addr None now) identity.now.tag
        (settings_of config.now).max_init_retransmits) }
    ensures left { result ≢ 0 → slot.new.handle.driver ≡ slot.old.handle.driver }
{
    let refusal = config.refusal_with(identity.tag);
    if refusal != DONE {
        return refusal;
    }
    let made = Driver::client(
        alloc,
        &config.transport(),
        max_payload_size,
        identity.tag,
        identity.initial_tsn,
        identity.cookie,
        now,
    );
    place(slot, alloc, made)
}

/// Makes a server.
#[unsafe(no_mangle)]
#[tactic(auto, using(crate::proofs::Refusals::when_placed, crate::proofs::Refusals::when_made))]
pub extern "C" fn sctp_assoc_server(
    slot: &mut Slot,
    alloc: Global,
    config: &Config,
    max_payload_size: u32,
    identity: &Identity,
    now: u64,
) -> u32
    ensures unusable { side_refusal config.now identity.now.tag ≢ 0
        → result ≡ side_refusal config.now identity.now.tag }
    ensures code { side_refusal config.now identity.now.tag ≡ 0 → IsCodeOrLacksMemory (first_refusal
        (timeout_refusal (settings_of config.now)) (create_refusal max_payload_size identity.now.initial_tsn)) result }
    ensures created { result ≡ 0 → IsSomeAnd slot.new.handle.driver (λ d. d ≡ begun_with
        (server (by_rfcs (settings_of config.now)) max_payload_size identity.now.tag identity.now.initial_tsn
        identity.now.cookie d.association.remote_addr None) identity.now.tag
        (settings_of config.now).max_init_retransmits) }
    ensures left { result ≢ 0 → slot.new.handle.driver ≡ slot.old.handle.driver }
{
    let refusal = config.refusal_with(identity.tag);
    if refusal != DONE {
        return refusal;
    }
    let made = Driver::server(
        alloc,
        &config.transport(),
        max_payload_size,
        identity.tag,
        identity.initial_tsn,
        identity.cookie,
        now,
    );
    place(slot, alloc, made)
}

#[tactic(auto, using(crate::proofs::Refusals::lacks_or_refuses))]
fn by_tokens(
    alloc: Global,
    config: &Config,
    max_payload_size: u32,
    local: &Token,
    remote: &Token,
) -> Result<Driver, Error>
    ensures refused { IsErrOf result errors.ErrNoMemory
        ⊎ Refuses result (first_refusal (timeout_refusal (settings_of config.now))
        (join_refusal max_payload_size (token_chunk local.now) (token_chunk remote.now))) }
    ensures joined { IfOk result (λ d. d ≡ begun_with (joined (by_rfcs (settings_of config.now)) max_payload_size
        d.association.remote_addr None (token_chunk local.now) (token_chunk remote.now)) local.now.tag
        (settings_of config.now).max_init_retransmits) }
{
    let local_init = local.chunk(alloc)?;
    let remote_init = remote.chunk(alloc)?;
    Driver::joined(
        alloc,
        &config.transport(),
        max_payload_size,
        &local_init,
        &remote_init,
    )
}

/// Makes a side that is established at once.
#[unsafe(no_mangle)]
#[tactic(auto, using(crate::proofs::Refusals::when_joined, crate::proofs::Refusals::when_made))]
pub extern "C" fn sctp_assoc_joined(
    slot: &mut Slot,
    alloc: Global,
    config: &Config,
    max_payload_size: u32,
    local: &Token,
    remote: &Token,
) -> u32
    ensures unusable { config_refusal config.now ≢ 0 → result ≡ config_refusal config.now }
    ensures code { config_refusal config.now ≡ 0 → (result ≡ 2)
        ⊎ IsCode (first_refusal (timeout_refusal (settings_of config.now))
        (join_refusal max_payload_size (token_chunk local.now) (token_chunk remote.now))) result }
    ensures created { result ≡ 0 → IsSomeAnd slot.new.handle.driver (λ d. d ≡ begun_with
        (joined (by_rfcs (settings_of config.now)) max_payload_size d.association.remote_addr None
        (token_chunk local.now) (token_chunk remote.now)) local.now.tag
        (settings_of config.now).max_init_retransmits) }
    ensures left { result ≢ 0 → slot.new.handle.driver ≡ slot.old.handle.driver }
{
    let refusal = config.refusal();
    if refusal != DONE {
        return refusal;
    }
    let made = by_tokens(alloc, config, max_payload_size, local, remote);
    place(slot, alloc, made)
}

/// Frees the association.
#[unsafe(no_mangle)]
pub extern "C" fn sctp_assoc_free(slot: &mut Slot, alloc: Global) -> u32
    ensures empty { slot.new.handle.driver ≡ None }
    ensures code { RefusesBy (λ d. None) slot.old.handle.driver result }
{
    match slot.take(alloc) {
        Some(driver) => {
            drop(driver);
            DONE
        }
        None => EMPTY_SLOT,
    }
}

/// Begins to end the association gracefully.
#[unsafe(no_mangle)]
#[tactic(auto, using(crate::proofs::Refusals::of_refusal, crate::proofs::Refusals::when_done, crate::proofs::Refusals::when_refused))]
pub extern "C" fn sctp_assoc_shutdown(slot: &mut Slot, alloc: Global) -> u32
    ensures code { RefusesBy (λ d. shutdown_refusal d.association) slot.old.handle.driver result }
    ensures done { result ≡ 0 → OnHeld slot.old.handle.driver slot.new.handle.driver
        (λ d e. e ≡ with_association d (shutdown_begun d.association)) }
    ensures left { result ≢ 0 → slot.new.handle.driver ≡ slot.old.handle.driver }
{
    let Some(mut driver) = slot.take(alloc) else {
        return EMPTY_SLOT;
    };
    let answer = driver.shutdown();
    slot.put(driver);
    code_of(answer)
}

/// Asks the peer whether it is there.
#[unsafe(no_mangle)]
#[tactic(auto, using(crate::proofs::Refusals::of_refusal_or_memory, crate::proofs::Refusals::when_done, crate::proofs::Refusals::when_refused))]
pub extern "C" fn sctp_assoc_heartbeat(slot: &mut Slot, alloc: Global, now: u64) -> u32
    ensures code { RefusesOrLacksMemoryBy (λ d. heartbeat_refusal d.association) slot.old.handle.driver result }
    ensures done { result ≡ 0 → OnHeld slot.old.handle.driver slot.new.handle.driver (λ d e. e ≡ with_heartbeat d now) }
    ensures left { result ≢ 0 → slot.new.handle.driver ≡ slot.old.handle.driver }
{
    let Some(mut driver) = slot.take(alloc) else {
        return EMPTY_SLOT;
    };
    let answer = driver.heartbeat(now);
    slot.put(driver);
    code_of(answer)
}

/// Closes the association at once.
#[unsafe(no_mangle)]
#[tactic(auto, using(crate::proofs::Refusals::of_refusal_or_memory, crate::proofs::Refusals::when_done, crate::proofs::Refusals::when_failed, crate::proofs::Refusals::when_memory))]
pub extern "C" fn sctp_assoc_close(slot: &mut Slot, alloc: Global) -> u32
    ensures code { RefusesOrLacksMemoryBy (λ d. failed_refusal d.association)
        slot.old.handle.driver result }
    ensures done { result ≡ 0 → OnHeld slot.old.handle.driver slot.new.handle.driver
        (λ d e. e ≡ with_association d
        (closed_by d.association reasons.AssociationClosed)) }
    ensures refused { result ≡ 10 → slot.new.handle.driver ≡ slot.old.handle.driver }
    ensures memory { result ≡ 2 → OnHeld slot.old.handle.driver slot.new.handle.driver (λ d e. RunsOutOfMemory d e) }
{
    let Some(mut driver) = slot.take(alloc) else {
        return EMPTY_SLOT;
    };
    let answer = driver.close();
    slot.put(driver);
    code_of(answer)
}

/// Ends the association by an ABORT.
#[unsafe(no_mangle)]
#[tactic(auto, using(crate::proofs::Refusals::when_done, crate::proofs::Refusals::when_failed, crate::proofs::Refusals::when_memory, crate::proofs::LongReasons::when_long))]
pub extern "C" fn sctp_assoc_abort(slot: &mut Slot, alloc: Global, reason: &[u8]) -> u32
    ensures done { result ≡ 0 → OnHeld slot.old.handle.driver slot.new.handle.driver
        (λ d e. Aborts d reason.now e) }
    ensures empty { slot.old.handle.driver ≡ None → (result ≡ 1) × (slot.new.handle.driver ≡ None) }
    ensures refused { result ≡ 10 → slot.new.handle.driver ≡ slot.old.handle.driver }
    ensures long { result ≡ 27 → OnHeld slot.old.handle.driver slot.new.handle.driver
        (λ d e. IsTooLong d.association reason.now × (e ≡ d)) }
    ensures memory { result ≡ 2 → OnHeld slot.old.handle.driver slot.new.handle.driver
        (λ d e. (e ≡ d) ⊎ RunsOutOfMemory d e) }
{
    let Some(mut driver) = slot.take(alloc) else {
        return EMPTY_SLOT;
    };
    let answer = driver.abort(reason);
    slot.put(driver);
    code_of(answer)
}
