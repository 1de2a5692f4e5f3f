// What an association and its streams counted, and which streams there are.
ghost use Rattle.std.specs.Prelude.{◌≡◌, ◌-◌, ◌^◌, IfErr, IfOk, None, min};
ghost use Rattle.sctp_streams.specs.Streams.{live_ids};
ghost use Rattle.sctp_assoc.specs.Calls.{failed_refusal};
ghost use Rattle.sctp_driver.specs.Streams.{asked_of};
ghost use Rattle.sctp_slots.specs.Codes.{refusal_code};
ghost use Rattle.sctp_c.specs.Codes.{Writes};
ghost use Rattle.sctp_c.specs.Events.{counters_of};
ghost use Rattle.sctp_c.specs.Lists.{Lists, ListsNothing, ListsUnless};
ghost use Rattle.sctp_c.specs.Slots.{OnAny};
ghost use Rattle.sctp_c.specs.Totals.{totals_of};

use crate::events::{Counters, counters_of};
use sctp_driver::{AssociationStats, Error};
use sctp_slots::{DONE, EMPTY_SLOT, NO_ROOM, Slot, refusal_code};
use std::alloc::Global;

/// What an association counted since it was made.
#[repr(C)]
#[derive(Drop)]
pub struct Totals {
    pub data_chunks: u64,
    pub sacks: u64,
    pub retransmission_timeouts: u64,
    pub ack_timeouts: u64,
    pub fast_retransmissions: u64,
}

const _: () = prove!(size_of::<Totals>() == 40);

fn totals_of(stats: AssociationStats) -> Totals
    ensures { result ≡ totals_of stats }
{
    Totals {
        data_chunks: stats.get_num_datas(),
        sacks: stats.get_num_sacks(),
        retransmission_timeouts: stats.get_num_t3timeouts(),
        ack_timeouts: stats.get_num_ack_timeouts(),
        fast_retransmissions: stats.get_num_fast_retrans(),
    }
}

/// What the association counted.
#[unsafe(no_mangle)]
pub extern "C" fn sctp_assoc_stats(slot: &mut Slot, alloc: Global, totals: &mut Totals) -> u32
    ensures answer { OnAny slot.old.handle.driver slot.new.handle.driver
        (λ d e. (e ≡ d) × (result ≡ 0) × (totals.new ≡ totals_of d.association.counts)) }
    ensures empty { slot.old.handle.driver ≡ None → (result ≡ 1) × (totals.new ≡ totals.old) }
{
    let Some(driver) = slot.take(alloc) else {
        return EMPTY_SLOT;
    };
    *totals = totals_of(driver.stats());
    slot.put(driver);
    DONE
}

/// The retransmission timeout.
#[unsafe(no_mangle)]
pub extern "C" fn sctp_assoc_rto(slot: &mut Slot, alloc: Global, ms: &mut u64) -> u32
    ensures answer { OnAny slot.old.handle.driver slot.new.handle.driver
        (λ d e. (e ≡ d) × (result ≡ 0) × (ms.new ≡ min d.association.estimate.rto (2 ^ 64 - 1))) }
    ensures empty { slot.old.handle.driver ≡ None → (result ≡ 1) × (ms.new ≡ ms.old) }
{
    let Some(driver) = slot.take(alloc) else {
        return EMPTY_SLOT;
    };
    *ms = driver.rto_ms();
    slot.put(driver);
    DONE
}

/// What a stream counted.
#[unsafe(no_mangle)]
pub extern "C" fn sctp_assoc_stream_stats(
    slot: &mut Slot,
    alloc: Global,
    stream: u16,
    counters: &mut Counters,
) -> u32
    ensures answer { OnAny slot.old.handle.driver slot.new.handle.driver (λ d e. (e ≡ d)
        × Writes counters_of (asked_of (λ s. s.stats) d.association stream) result counters.old counters.new) }
    ensures empty { slot.old.handle.driver ≡ None → (result ≡ 1) × (counters.new ≡ counters.old) }
{
    let Some(mut driver) = slot.take(alloc) else {
        return EMPTY_SLOT;
    };
    let answer = driver.stream_stats(stream);
    slot.put(driver);
    match answer {
        Ok(stats) => {
            *counters = counters_of(stats);
            DONE
        }
        Err(error) => refusal_code(error),
    }
}

// Writes the identifiers where the buffer has room for them, and how many there are.
fn tell_ids(answer: Result<Vec<u16>, Error>, ids: &mut [u16], count: &mut usize) -> u32
    ensures ok { IfOk answer (λ listed. Lists listed.items result ids.old ids.new count.new) }
    ensures err { IfErr answer
        (λ error. ListsNothing (refusal_code error) result ids.old ids.new count.old count.new) }
{
    match answer {
        Ok(listed) => {
            *count = listed.len();
            if ids.len() < listed.len() {
                return NO_ROOM;
            }
            ids[..listed.len()].copy_from_slice(listed.as_slice());
            DONE
        }
        Err(error) => refusal_code(error),
    }
}

/// The identifiers of the streams.
#[unsafe(no_mangle)]
#[tactic(auto, using(crate::proofs::Listings::when_listed))]
pub extern "C" fn sctp_assoc_stream_ids(
    slot: &mut Slot,
    alloc: Global,
    ids: &mut [u16],
    count: &mut usize,
) -> u32
    ensures answer { OnAny slot.old.handle.driver slot.new.handle.driver (λ d e. (e ≡ d)
        × ListsUnless (failed_refusal d.association) (live_ids d.association.streams) result
        ids.old ids.new count.old count.new) }
    ensures empty { slot.old.handle.driver ≡ None → ListsNothing 1 result ids.old ids.new count.old count.new }
{
    let Some(driver) = slot.take(alloc) else {
        return EMPTY_SLOT;
    };
    let answer = driver.stream_ids();
    slot.put(driver);
    tell_ids(answer, ids, count)
}
