// A watch: the calls of a driver, and what is kept of them.
ghost use Rattle.std.specs.Prelude.{◌≡◌, ◌≢◌, ◌↔◌, ◌⊎◌, [], if◌then◌else◌, length, true, false, Some, Err};
ghost use Rattle.std.specs.Prelude.{IsErrOf, IfOk, IfSome, OnErr, OnOk};
ghost use Rattle.sctp_assoc.specs.Calls.{RefusesOrLacksMemory, event_polled, failed_refusal};
ghost use Rattle.sctp_assoc.specs.Closing.{closed_by, is_closed_state, tells_exhaustion};
ghost use Rattle.sctp_assoc.specs.Gather.{has_something_to_give};
ghost use Rattle.sctp_driver.specs.Aborting.{Aborts, IsTooLong};
ghost use Rattle.sctp_driver.specs.Driving.{RunsOutOfMemory, with_association};
ghost use Rattle.sctp_driver.specs.Sending.{Sends, asked};
ghost use Rattle.sctp_driver.specs.Late.{with_datagram};
ghost use Rattle.sctp_driver.specs.Silence.{timed_out, timing_out_takes_memory};
ghost use Rattle.sctp_driver.specs.Tags.{answer_to, packet_in};
ghost use Rattle.sctp_streams.specs.declared.event.AssociationError.TheVariants as reasons;
ghost use Rattle.sctp_driver.specs.declared.tags.DatagramAnswer.TheVariants as fates;
ghost use Rattle.sctp_watch.specs.declared.ends.End.TheVariants as ends;
ghost use Rattle.sctp_watch.specs.Ends.{ended_by};
ghost use Rattle.sctp_watch.specs.Watching.{after_datagram, after_event, after_poll, brought, end_after, no_traffic};
ghost use Rattle.sctp_watch.specs.Watching.{is_told_exhaustion, watching};

use crate::ends::{End, end_by};
use crate::traffic::Traffic;
use sctp_driver::{AssociationError, DatagramAnswer, Driver, Error, Event, PollAnswer};
use std::marker::Model;

/// Counts what passes a driver, and keeps why its association ended. It stands beside the driver, which is handed to
/// each call; the calls answer as the driver's own, and what goes past the watch is not seen by it. All other calls go
/// to the driver itself. It takes no memory.
#[derive(Drop)]
pub struct Watch {
    traffic: Traffic,
    end: Option<End>,
}

impl Model for Watch {
    ghost use Rattle.sctp_watch.specs.Watching.{Watching};

    ghost Value = { Watching };

    ghost view = { λ w. record { traffic = w.traffic; end = w.end } };
}

impl Watch {
    /// A watch for a driver that was just made.
    pub fn new() -> Watch
        ensures { result ≡ watching no_traffic }
    {
        Watch::with(Traffic::none())
    }

    /// A watch that counts on from here, and saw no end yet.
    pub fn with(traffic: Traffic) -> Watch
        ensures { result ≡ watching traffic }
    {
        Watch { traffic, end: None }
    }

    /// What passed so far.
    pub fn traffic(&self) -> Traffic
        ensures { result ≡ self.now.traffic }
    {
        self.traffic
    }

    /// Why the association ended; None where the watch saw no end. It is told by the call in which
    /// `Driver::is_drained` became true, and stays. One end is told later: a read or a stop can find that the receive
    /// buffer is exhausted, and `poll_event` tells it. An association that failed for want of memory has none.
    pub fn end(&self) -> Option<End>
        ensures { result ≡ self.now.end }
    {
        self.end
    }

    /// As `Driver::handle_datagram`. The datagram is counted if it is taken. If it ends the association since it left
    /// the receive buffer exhausted, that is told. Else the first ABORT in it is told with its first cause, even where
    /// a fault stands in front of it; without one a SHUTDOWN COMPLETE is the end of a shutdown, and anything else a
    /// fault.
    #[tactic(auto, using(crate::proofs::Drained::packet_came, crate::proofs::Drained::same_end, crate::proofs::Drained::told))]
    pub fn handle_datagram(
        &mut self,
        driver: &mut Driver,
        now: u64,
        datagram: &[u8],
    ) -> Result<DatagramAnswer, Error>
        ensures traffic { self.new.traffic ≡ after_datagram result (length datagram.now) self.old.traffic }
        ensures end { self.new.end ≡ end_after driver.old driver.new
            (brought (tells_exhaustion driver.new.association) (ended_by (packet_in datagram.now))) self.old.end }
        ensures answer { IfOk result (λ answer. answer ≡ answer_to driver.old datagram.now) }
        ensures left { answer_to driver.old datagram.now ≢ fates.Taken → driver.new ≡ driver.old }
        ensures taken { OnOk result (answer_to driver.old datagram.now ≡ fates.Taken → driver.new
            ≡ with_datagram driver.old datagram.now now) }
        ensures failed { IsErrOf result Error.ErrAssociationFailed ↔ (driver.old.association.failed ≡ true) }
        ensures refused { IsErrOf result Error.ErrAssociationFailed → driver.new ≡ driver.old }
        ensures memory { IsErrOf result Error.ErrNoMemory
            → (driver.new ≡ driver.old) ⊎ RunsOutOfMemory driver.old driver.new }
        ensures only { OnErr result ((result ≡ Err Error.ErrAssociationFailed) ⊎ (result ≡ Err Error.ErrNoMemory)) }
    {
        let was_drained = driver.is_drained();
        let answer = driver.handle_datagram(now, datagram);
        self.traffic.count_datagram(&answer, datagram.len());
        if !was_drained && driver.is_drained() {
            self.end = Some(end_brought(driver, datagram));
        }
        answer
    }

    /// As `Driver::poll_transmit`. A datagram that is given out is counted. The association ends here where a SHUTDOWN
    /// COMPLETE is due.
    pub fn poll_transmit(
        &mut self,
        driver: &mut Driver,
        now: u64,
        buffer: &mut [u8],
    ) -> Result<PollAnswer, Error>
        ensures traffic { self.new.traffic ≡ after_poll result self.old.traffic }
        ensures end { self.new.end ≡ end_after driver.old driver.new ends.ShutDown self.old.end }
        ensures ok { IfOk result
            (λ answer. Sends (asked driver.old now) buffer.old answer driver.new buffer.new) }
        ensures failed { IsErrOf result Error.ErrAssociationFailed
            ↔ ((driver.old.waiting ≡ []) × (driver.old.association.failed ≡ true)) }
        ensures refused { IsErrOf result Error.ErrAssociationFailed → driver.new ≡ driver.old }
        ensures memory { IsErrOf result Error.ErrNoMemory → RunsOutOfMemory driver.old driver.new }
        ensures given { IsErrOf result Error.ErrNoMemory
            → has_something_to_give driver.old.association now ≡ true }
        ensures only { OnErr result ((result ≡ Err Error.ErrAssociationFailed) ⊎ (result ≡ Err Error.ErrNoMemory)) }
        ensures unfilled { OnErr result (buffer.new ≡ buffer.old) }
    {
        let was_drained = driver.is_drained();
        let answer = driver.poll_transmit(now, buffer);
        self.traffic.count_poll(&answer);
        self.end_with(!was_drained && driver.is_drained(), End::ShutDown);
        answer
    }

    /// As `Driver::handle_timeout`. An association that it closes ended since its peer is silent.
    pub fn handle_timeout(&mut self, driver: &mut Driver, now: u64) -> Result<(), Error>
        ensures traffic { self.new.traffic ≡ self.old.traffic }
        ensures end { self.new.end ≡ end_after driver.old driver.new ends.Silent self.old.end }
        ensures ok { OnOk result (driver.new ≡ with_association driver.old
            (timed_out driver.old.association driver.old.shutdown_limit now)) }
        ensures failed { IsErrOf result Error.ErrAssociationFailed ↔ (driver.old.association.failed ≡ true) }
        ensures refused { IsErrOf result Error.ErrAssociationFailed → driver.new ≡ driver.old }
        ensures memory { IsErrOf result Error.ErrNoMemory → RunsOutOfMemory driver.old driver.new }
        ensures again { IsErrOf result Error.ErrNoMemory
            → timing_out_takes_memory driver.old.association driver.old.shutdown_limit now ≡ true }
        ensures only { OnErr result ((result ≡ Err Error.ErrAssociationFailed) ⊎ (result ≡ Err Error.ErrNoMemory)) }
    {
        let was_drained = driver.is_drained();
        let answer = driver.handle_timeout(now);
        self.end_with(!was_drained && driver.is_drained(), End::Silent);
        answer
    }

    /// As `Driver::poll_event`. An event that tells of an exhausted receive buffer tells the end, too.
    pub fn poll_event(&mut self, driver: &mut Driver) -> Result<Option<Event>, Error>
        ensures traffic { self.new.traffic ≡ self.old.traffic }
        ensures end { self.new.end ≡ after_event result self.old.end }
        ensures ok { IfOk result (λ event. event_polled driver.old.association ≡ (driver.new.association, event)) }
        ensures others { driver.new ≡ with_association driver.old driver.new.association }
        ensures failed { IsErrOf result Error.ErrAssociationFailed ↔ (driver.old.association.failed ≡ true) }
        ensures err { OnErr result ((result ≡ Err Error.ErrAssociationFailed) × (driver.new ≡ driver.old)) }
    {
        let answer = driver.poll_event();
        self.end_with(is_told_exhaustion(&answer), End::BufferExhausted);
        answer
    }

    /// As `Driver::close`. An association that it closes ended by it.
    pub fn close(&mut self, driver: &mut Driver) -> Result<(), Error>
        ensures traffic { self.new.traffic ≡ self.old.traffic }
        ensures end { self.new.end ≡ end_after driver.old driver.new ends.Closed self.old.end }
        ensures refused { RefusesOrLacksMemory result (failed_refusal driver.old.association) }
        ensures ok { OnOk result (driver.new
            ≡ with_association driver.old (closed_by driver.old.association reasons.AssociationClosed)) }
        ensures unchanged { (result ≡ Err Error.ErrAssociationFailed) → driver.new ≡ driver.old }
        ensures memory { (result ≡ Err Error.ErrNoMemory) → RunsOutOfMemory driver.old driver.new }
        ensures grows { (result ≡ Err Error.ErrNoMemory) → is_closed_state driver.old.association.state ≡ false }
    {
        let was_drained = driver.is_drained();
        let answer = driver.close();
        self.end_with(!was_drained && driver.is_drained(), End::Closed);
        answer
    }

    /// As `Driver::abort`. An association that it closes ended by it.
    pub fn abort(&mut self, driver: &mut Driver, reason: &[u8]) -> Result<(), Error>
        ensures traffic { self.new.traffic ≡ self.old.traffic }
        ensures end { self.new.end ≡ end_after driver.old driver.new ends.Aborted self.old.end }
        ensures ok { OnOk result (Aborts driver.old reason.now driver.new) }
        ensures failed { IsErrOf result Error.ErrAssociationFailed ↔ (driver.old.association.failed ≡ true) }
        ensures refused { IsErrOf result Error.ErrAssociationFailed → driver.new ≡ driver.old }
        ensures long { IsErrOf result Error.ErrOutboundPacketTooLarge
            → IsTooLong driver.old.association reason.now × (driver.new ≡ driver.old) }
        ensures memory { IsErrOf result Error.ErrNoMemory
            → (driver.new ≡ driver.old) ⊎ RunsOutOfMemory driver.old driver.new }
        ensures only { OnErr result ((result ≡ Err Error.ErrAssociationFailed)
            ⊎ ((result ≡ Err Error.ErrOutboundPacketTooLarge) ⊎ (result ≡ Err Error.ErrNoMemory))) }
    {
        let was_drained = driver.is_drained();
        let answer = driver.abort(reason);
        self.end_with(!was_drained && driver.is_drained(), End::Aborted);
        answer
    }

    // Keeps this end, if the association ended.
    fn end_with(&mut self, ended: bool, end: End)
        ensures traffic { self.new.traffic ≡ self.old.traffic }
        ensures end { self.new.end ≡ (if ended then Some end else self.old.end) }
    {
        if ended {
            self.end = Some(end);
        }
    }
}

// The end that a datagram brought to the association that it closed.
#[tactic(auto, using(crate::proofs::Drained::exhaustion_brought, crate::proofs::Drained::packet_brought))]
fn end_brought(driver: &Driver, datagram: &[u8]) -> End
    ensures { IfSome (packet_in datagram.now)
        (λ packet. result ≡ brought (tells_exhaustion driver.now.association) (ended_by (Some packet))) }
{
    if driver.tells_exhaustion() {
        End::BufferExhausted
    } else {
        end_by(datagram)
    }
}

// Whether an event tells that the receive buffer was exhausted.
fn is_told_exhaustion(answer: &Result<Option<Event>, Error>) -> bool
    ensures { result ≡ is_told_exhaustion answer.now }
{
    matches!(
        answer,
        Ok(Some(Event::AssociationLost {
            reason: AssociationError::ReceiveBufferExhausted
        }))
    )
}
