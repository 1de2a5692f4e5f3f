// Channels are opened and closed.
ghost use Rattle.std.specs.Prelude.{◌≡◌, ℕ, Result, true, false};
ghost use Rattle.sctp_channels.specs.Opening.{Closes};
ghost use Rattle.sctp_channels_c.specs.Answers.{Answers, WritesNumber};
ghost use Rattle.sctp_channels_c.specs.Kinds.{kind_by, negotiated_by, persistence_by};
ghost use Rattle.sctp_channels_c.specs.Polls.{Opens};
ghost use Rattle.sctp_channels_c.specs.Slots.{OnBoth};
ghost use Rattle.sctp_slots.specs.Numbers.{names_reliability};

use crate::codes::{code_of, fault_code};
use crate::slot::{ChannelsSlot, take_both};
use sctp_channels::{ChannelError, ChannelKind, Channels, Persistence};
use sctp_driver::Driver;
use sctp_slots::{BAD_RELIABILITY, DONE, EMPTY_SLOT, Slot, names_reliability};
use std::alloc::Global;

/// What a channel is asked to be, but for its label and protocol. `include/sctp_channels.h` has the numbers.
#[repr(C)]
#[derive(Drop)]
pub struct Options {
    pub reliability: u32,
    pub value: u32,
    pub priority: u16,
    pub id: u16,
    pub unordered: bool,
    pub negotiated: bool,
}

const _: () = prove!(size_of::<Options>() == 16);

fn persistence_of(reliability: u32, value: u32) -> Persistence
    ensures { result ≡ persistence_by reliability value }
{
    match reliability {
        1 => Persistence::Retransmits(value),
        2 => Persistence::LifeTime(value),
        _ => Persistence::Reliable,
    }
}

fn negotiated_as(negotiated: bool, id: u16) -> Option<u16>
    ensures { result ≡ negotiated_by negotiated id }
{
    if negotiated { Some(id) } else { None }
}

impl Options {
    fn kind(&self) -> ChannelKind
        ensures { result ≡ kind_by self.now }
    {
        ChannelKind {
            ordered: !self.unordered,
            persistence: persistence_of(self.reliability, self.value),
            priority: self.priority,
            negotiated: negotiated_as(self.negotiated, self.id),
        }
    }
}

// Opens a channel.
#[tactic(auto, using(crate::proofs::Opened::opens))]
fn open(
    channels: &mut Channels,
    driver: &Driver,
    kind: &ChannelKind,
    label: &[u8],
    protocol: &[u8],
) -> Result<u16, ChannelError>
    ensures { Opens kind.now label.now protocol.now channels.old driver.now result channels.new }
{
    channels.open(driver, kind, label, protocol)
}

// Writes the identifier of a channel that was opened.
fn tell_id(answer: Result<u16, ChannelError>, id: &mut u16) -> u32
    ensures { WritesNumber answer result id.old id.new }
{
    match answer {
        Ok(chosen) => {
            *id = chosen;
            DONE
        }
        Err(fault) => fault_code(fault),
    }
}

/// Makes a channel of this side.
#[unsafe(no_mangle)]
#[tactic(auto, using(crate::proofs::Both::on_held, crate::proofs::Both::on_empty))]
pub extern "C" fn sctp_channels_open(
    slot: &mut ChannelsSlot,
    alloc: Global,
    assoc: &mut Slot,
    options: &Options,
    label: &[u8],
    protocol: &[u8],
    id: &mut u16,
) -> u32
    ensures unnamed { names_reliability options.now.reliability ≡ false → result ≡ 69 }
    ensures left { names_reliability options.now.reliability ≡ false
        → (slot.new.handle.channels ≡ slot.old.handle.channels)
        × (assoc.new.handle.driver ≡ assoc.old.handle.driver) × (id.new ≡ id.old) }
    ensures opens { names_reliability options.now.reliability ≡ true → OnBoth slot.old.handle.channels
        assoc.old.handle.driver result slot.new.handle.channels assoc.new.handle.driver
        (λ c d f e. (e ≡ d) × ((answer : Result ℕ ChannelError)
        × WritesNumber answer result id.old id.new × Opens (kind_by options.now) label.now protocol.now c d answer f)) }
{
    if !names_reliability(options.reliability) {
        return BAD_RELIABILITY;
    }
    let Some((mut channels, driver)) = take_both(slot, assoc, alloc) else {
        return EMPTY_SLOT;
    };
    let answer = open(&mut channels, &driver, &options.kind(), label, protocol);
    slot.put(channels);
    assoc.put(driver);
    tell_id(answer, id)
}

/// Ends a channel.
#[unsafe(no_mangle)]
#[tactic(auto, using(crate::proofs::Both::on_held, crate::proofs::Both::on_empty))]
pub extern "C" fn sctp_channels_close(
    slot: &mut ChannelsSlot,
    alloc: Global,
    assoc: &mut Slot,
    id: u16,
) -> u32
    ensures { OnBoth slot.old.handle.channels assoc.old.handle.driver result slot.new.handle.channels
        assoc.new.handle.driver (λ c d f e. Answers result (λ answer. Closes id d c answer e f)) }
{
    let Some((mut channels, mut driver)) = take_both(slot, assoc, alloc) else {
        return EMPTY_SLOT;
    };
    let answer = channels.close(&mut driver, id);
    slot.put(channels);
    assoc.put(driver);
    code_of(answer)
}
