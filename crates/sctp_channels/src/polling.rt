// Events of the driver, and what they say of channels.
ghost use Rattle.std.specs.Prelude.{◌≡◌, ◌≢◌, ◌⊎◌, ◌<◌, [], ◌∷◌, ◌++◌, IfErr, IfNone, IfOk, IfSome, None, OnErr, OnOk};
ghost use Rattle.std.specs.Prelude.{Ok};
ghost use Rattle.std.specs.Prelude.{slice_get, true};
ghost use Rattle.std.specs.VecDeque.{deque_capacity, deque_len};
ghost use Rattle.std.specs.BTreeMap.{is_at};
ghost use Rattle.std.specs.Map.{remove_entry};
ghost use Rattle.std.specs.Ordering.{nat_cmp};
ghost use Rattle.channel_table.specs.declared.channel.Stage.TheVariants as stages;
ghost use Rattle.channel_table.specs.Tables.{KeepsOrEnds, at_stage};
ghost use Rattle.sctp_streams.specs.declared.event.Event.TheVariants as events;
ghost use Rattle.sctp_wire_types.specs.declared.event.StreamEvent.TheVariants as stream_events;
ghost use Rattle.sctp_channels.specs.Looking.{IsAcknowledged, IsNoBeginning, IsTold, may_pass};
ghost use Rattle.sctp_channels.specs.Polling.{AcksTurn, DueAfter, EndsAs, EndsBy, EndsNone, IsIdle, LooksAgain, Meets};
ghost use Rattle.sctp_channels.specs.Opening.{established};
ghost use Rattle.sctp_channels.specs.Polling.{TellsNoBeginning, Turns, TurnsAgain, event_met, is_early};
ghost use Rattle.sctp_channels.specs.Polling.{stream_event_met, told_if_there};
ghost use Rattle.sctp_channels.specs.Turning.{LooksNext, MeetsEvent, PollsBy, Postpones, TakesEvent, TakesTurn};
ghost use Rattle.sctp_channels.specs.Turning.{accepted_where, due_by, is_opened, waiting_by};

use crate::channels::Channels;
use crate::event::ChannelEvent;
use crate::looking::{Looked, look};
use channel_table::{ChannelError, Stage, Table};
use sctp_driver::{Driver, Error, Event, StreamEvent};
use sctp_wire_types::StreamId;
use std::alloc::{AllocError, Global};
use std::collections::VecDeque;
use std::mem;

// What one turn gave.
#[derive(Clone, Copy)]
pub(crate) enum Turn {
    Tells(ChannelEvent),
    Silent,
    Idle,
}

impl Channels {
    /// The next event of the channels; None where none waits. It takes the events of the driver, in place of the
    /// driver's `poll_event` and `accept_stream`. On the way it writes the OPENs that wait, if the association is
    /// established, reads the first messages of streams, and writes ACKs; what comes for a new channel before it is
    /// established waits in the driver. Behind `Closed` it looks at the stream of a channel that is gone once more,
    /// since the peer may have opened another one on it meanwhile.
    ///
    /// Errors: `Beneath(ErrNoMemory)`, after which it can be called again and goes on where it was, unless the
    /// association failed; `Beneath(ErrAssociationFailed)`.
    #[tactic(auto, using(crate::proofs::Turned::turning_steps), unfolding(crate::specs::Turning::PollsBy))]
    pub fn poll_event(&mut self, driver: &mut Driver) -> Result<Option<ChannelEvent>, ChannelError>
        ensures told { IfOk result (λ told. IfSome told (λ event. IsTold event self.new.table)) }
        ensures again { IfOk result (λ told. IfSome told (λ event. LooksAgain event self.new)) }
        ensures acks { IfOk result (λ told. IfSome told (λ event. IsAcknowledged event self.new.table driver.new)) }
        ensures keeps { KeepsOrEnds self.old.table self.new.table }
        ensures all { result ≡ Ok None → self.new.due ≡ [] }
        ensures idle { result ≡ Ok None → IsIdle driver.new }
        ensures role { self.new.role ≡ self.old.role }
        ensures polls { PollsBy result self.old driver.old self.new driver.new }
        ensures only { IfErr result (λ e. (e ≡ ChannelError.Beneath Error.ErrNoMemory)
            ⊎ (e ≡ ChannelError.Beneath Error.ErrAssociationFailed)) }
    {
        for _silent in 0..u64::MAX {
            match self.turn(driver)? {
                Turn::Tells(event) => return Ok(Some(event)),
                Turn::Idle => return Ok(None),
                Turn::Silent => {}
            }
        }
        // No memory holds so many events.
        Err(ChannelError::Beneath(Error::ErrNoMemory))
    }

    #[tactic(auto, unfolding(crate::specs::Turning::TakesTurn))]
    fn turn(&mut self, driver: &mut Driver) -> Result<Turn, Error>
        ensures takes { TakesTurn self.old driver.old result self.new driver.new }
        ensures turns { IfOk result (λ turn. Turns self.old.table turn self.new.table) }
        ensures acks { IfOk result (λ turn. AcksTurn driver.old self.old.table turn driver.new) }
        ensures again { IfOk result (λ turn. TurnsAgain turn self.new) }
        ensures err { OnErr result (self.new.table ≡ self.old.table) }
        ensures all { result ≡ Ok Turn.Idle → self.new.due ≡ [] }
        ensures idle { result ≡ Ok Turn.Idle → IsIdle driver.new }
        ensures role { self.new.role ≡ self.old.role }
        ensures passes { IfErr result (λ error. may_pass error ≡ true) }
    {
        match self.next_due() {
            Some(id) => self.look_at(driver, id),
            None => self.take_event(driver),
        }
    }

    // The stream that is to be looked at next.
    #[inline(always)]
    fn next_due(&self) -> Option<StreamId>
        ensures next { result ≡ slice_get self.now.due 0 }
        ensures none { IfNone result (self.now.due ≡ []) }
    {
        self.due.front().copied()
    }

    #[tactic(auto, unfolding(crate::specs::Turning::LooksNext))]
    fn look_at(&mut self, driver: &mut Driver, id: StreamId) -> Result<Turn, Error>
        ensures looks { LooksNext id self.old driver.old result self.new driver.new }
        ensures turns { IfOk result (λ turn. Turns self.old.table turn self.new.table) }
        ensures acks { IfOk result (λ turn. AcksTurn driver.old self.old.table turn driver.new) }
        ensures again { IfOk result (λ turn. TurnsAgain turn self.new) }
        ensures err { OnErr result (self.new.table ≡ self.old.table) }
        ensures busy { result ≢ Ok Turn.Idle }
        ensures waits { is_early (established driver.old) self.old.table id ≡ true → driver.new ≡ driver.old }
        ensures role { self.new.role ≡ self.old.role }
        ensures passes { IfErr result (λ error. may_pass error ≡ true) }
    {
        if self.is_early(driver.is_established(), id) {
            return self.postpone(id);
        }
        match look(self.alloc, &mut self.table, driver, id)? {
            Looked::Again => Ok(Turn::Silent),
            Looked::Tells(event) => Ok(Turn::Tells(event)),
            Looked::Done => {
                self.due.pop_front();
                Ok(Turn::Silent)
            }
            Looked::Ends(event) => {
                self.due.pop_front();
                Ok(Turn::Tells(event))
            }
        }
    }

    // Whether a stream is to be looked at once the association is established: its channel is to be begun then, or it
    // has none, and what came on it may be an OPEN, whose ACK cannot be written yet.
    fn is_early(&self, is_established: bool, id: StreamId) -> bool
        ensures { result ≡ is_early is_established self.now.table id }
    {
        if is_established {
            return false;
        }
        match self.table.stage(id) {
            None | Some(Stage::Waiting) => true,
            Some(_) => false,
        }
    }

    // The stream that is to be looked at next is to wait until the association is established.
    #[tactic(auto, unfolding(crate::specs::Turning::Postpones))]
    fn postpone(&mut self, id: StreamId) -> Result<Turn, Error>
        ensures postpones { Postpones id self.old result self.new }
        ensures waits { OnOk result (self.new.waiting ≡ self.old.waiting ++ id ∷ []) }
        ensures silent { IfOk result (λ turn. turn ≡ Turn.Silent) }
        ensures table { self.new.table ≡ self.old.table }
        ensures role { self.new.role ≡ self.old.role }
        ensures err { OnErr result (self.new ≡ self.old) }
        ensures passes { IfErr result (λ error. may_pass error ≡ true) }
    {
        self.waiting.reserve(1)?;
        self.due.pop_front();
        self.waiting.push_back_reserved(id);
        Ok(Turn::Silent)
    }

    #[tactic(auto, using(crate::proofs::Unannounced::acks_none), unfolding(crate::specs::Turning::TakesEvent))]
    fn take_event(&mut self, driver: &mut Driver) -> Result<Turn, Error>
        requires { self.old.due ≡ [] }
        ensures takes { TakesEvent self.old driver.old result self.new driver.new }
        ensures turns { IfOk result (λ turn. Turns self.old.table turn self.new.table) }
        ensures acks { IfOk result (λ turn. AcksTurn driver.old self.old.table turn driver.new) }
        ensures again { IfOk result (λ turn. TurnsAgain turn self.new) }
        ensures err { OnErr result (self.new.table ≡ self.old.table) }
        ensures all { result ≡ Ok Turn.Idle → self.new.due ≡ [] }
        ensures idle { result ≡ Ok Turn.Idle → IsIdle driver.new }
        ensures role { self.new.role ≡ self.old.role }
        ensures passes { IfErr result (λ error. may_pass error ≡ true) }
    {
        make_room(&mut self.due)?;
        match driver.poll_event()? {
            None => Ok(Turn::Idle),
            Some(event) => Ok(meet_event(
                self.alloc,
                &mut self.table,
                &mut self.waiting,
                &mut self.due,
                driver,
                event,
            )),
        }
    }
}

// Makes room for a stream to look at where none is, so that any place that there is is free.
fn make_room(due: &mut VecDeque<StreamId>) -> Result<(), AllocError>
    requires { due.old.items ≡ [] }
    ensures none { due.new.items ≡ [] }
    ensures room { OnOk result (deque_len due.new < deque_capacity due.new) }
{
    if due.capacity() == 0 {
        due.reserve(1)?;
    }
    Ok(())
}

// What an event asks for where no stream is to be looked at.
#[tactic(auto, unfolding(crate::specs::Turning::MeetsEvent, crate::specs::Turning::accepted_where))]
fn meet_event(
    alloc: Global,
    table: &mut Table,
    waiting: &mut VecDeque<StreamId>,
    due: &mut VecDeque<StreamId>,
    driver: &mut Driver,
    event: Event,
) -> Turn
    requires room { deque_len due.old < deque_capacity due.old }
    requires none { due.old.items ≡ [] }
    ensures meets { MeetsEvent event table.old result table.new }
    ensures accepts { driver.new ≡ accepted_where (is_opened event) driver.old }
    ensures waits { waiting.new.items ≡ waiting_by event waiting.old.items }
    ensures next { due.new.items ≡ due_by event result waiting.old.items }
    ensures turns { Turns table.old result table.new }
    ensures begins_none { TellsNoBeginning result }
    ensures due { DueAfter event result waiting.old.items due.old.items due.new.items }
    ensures ends { EndsBy event result table.new }
    ensures busy { result ≢ Turn.Idle }
{
    match event {
        Event::DatagramReceived => Turn::Silent,
        Event::Stream(StreamEvent::Readable { id }) => {
            if table.is_at_hand(id) {
                return Turn::Tells(ChannelEvent::Message(id));
            }
            due.push_back_reserved(id);
            Turn::Silent
        }
        Event::Stream(StreamEvent::Opened { .. }) => {
            driver.accept_stream();
            Turn::Silent
        }
        Event::Connected => {
            *due = mem::replace(waiting, VecDeque::new(alloc));
            Turn::Tells(ChannelEvent::Connected)
        }
        Event::Stream(StreamEvent::ResetComplete { id }) => {
            // What came for its channel's successor was not looked at yet.
            due.push_back_reserved(id);
            match end(table, id) {
                Some(event) => Turn::Tells(event),
                None => Turn::Silent,
            }
        }
        other => match told_of(table, other) {
            Some(event) => Turn::Tells(event),
            None => Turn::Silent,
        },
    }
}

// What an event says of channels, but for `Opened` and `Readable`.
fn told_of(table: &mut Table, event: Event) -> Option<ChannelEvent>
    ensures exact { event_met table.old event ≡ (table.new, result) }
    ensures meets { Meets table.old result table.new }
    ensures begins_none { IfSome result (λ event. IsNoBeginning event) }
    ensures ends { EndsAs event result table.new }
{
    match event {
        Event::HandshakeFailed { reason } => {
            table.clear();
            Some(ChannelEvent::HandshakeFailed(reason))
        }
        Event::AssociationLost { reason } => {
            table.clear();
            Some(ChannelEvent::Lost(reason))
        }
        Event::Stream(event) => told_of_stream(table, event),
        Event::Connected => Some(ChannelEvent::Connected),
        Event::DataChannelStatsFinal(_) | Event::DatagramReceived => None,
    }
}

fn told_of_stream(table: &mut Table, event: StreamEvent) -> Option<ChannelEvent>
    ensures exact { stream_event_met table.old event ≡ (table.new, result) }
    ensures meets { Meets table.old result table.new }
    ensures begins_none { IfSome result (λ event. IsNoBeginning event) }
    ensures ends { EndsAs (events.Stream event) result table.new }
{
    match event {
        StreamEvent::Finished { id } => {
            table.mark_closing(id);
            None
        }
        StreamEvent::ResetComplete { id } => end(table, id),
        StreamEvent::ResetFailed { id, .. } => fail_reset(table, id),
        StreamEvent::BufferedAmountLow { id } => tell_low(table, id),
        _ => None,
    }
}

// Both halves of a stream ended.
fn end(table: &mut Table, id: StreamId) -> Option<ChannelEvent>
    ensures exact { told_if_there table.old id (ChannelEvent.Closed id)
        (remove_entry (is_at (nat_cmp id)) table.old) ≡ (table.new, result) }
    ensures meets { Meets table.old result table.new }
    ensures begins_none { IfSome result (λ event. IsNoBeginning event) }
    ensures ends { EndsAs (events.Stream (stream_events.ResetComplete id)) result table.new }
{
    if !table.contains(id) {
        return None;
    }
    table.remove(id);
    Some(ChannelEvent::Closed(id))
}

// This side's reset of a stream failed.
fn fail_reset(table: &mut Table, id: StreamId) -> Option<ChannelEvent>
    ensures exact { told_if_there table.old id (ChannelEvent.Closed id) (at_stage table.old id stages.Closing)
        ≡ (table.new, result) }
    ensures meets { Meets table.old result table.new }
    ensures begins_none { IfSome result (λ event. IsNoBeginning event) }
    ensures stays { EndsNone result table.new }
{
    if !table.contains(id) {
        return None;
    }
    table.mark_closing(id);
    Some(ChannelEvent::Closed(id))
}

fn tell_low(table: &mut Table, id: StreamId) -> Option<ChannelEvent>
    ensures exact { told_if_there table.old id (ChannelEvent.BufferedLow id) table.old ≡ (table.new, result) }
    ensures meets { Meets table.old result table.new }
    ensures begins_none { IfSome result (λ event. IsNoBeginning event) }
    ensures stays { EndsNone result table.new }
{
    if table.contains(id) {
        Some(ChannelEvent::BufferedLow(id))
    } else {
        None
    }
}
