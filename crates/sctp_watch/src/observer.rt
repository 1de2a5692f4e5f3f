// An observer of the datagrams that pass.
ghost use Rattle.std.specs.Prelude.{◌≡◌, ◌≢◌, ◌↔◌, ◌⊎◌, [], ℕ, List, length, true, Err, IsErrOf, IfOk};
ghost use Rattle.std.specs.Prelude.{OnErr, OnOk};
ghost use Rattle.sctp_assoc.specs.Closing.{tells_exhaustion};
ghost use Rattle.sctp_assoc.specs.Gather.{has_something_to_give};
ghost use Rattle.sctp_driver.specs.Driving.{RunsOutOfMemory};
ghost use Rattle.sctp_driver.specs.Sending.{Sends, asked};
ghost use Rattle.sctp_driver.specs.Late.{with_datagram};
ghost use Rattle.sctp_driver.specs.Tags.{answer_to, packet_in};
ghost use Rattle.sctp_driver.specs.declared.tags.DatagramAnswer.TheVariants as fates;
ghost use Rattle.sctp_watch.specs.declared.ends.End.TheVariants as ends;
ghost use Rattle.sctp_watch.specs.Ends.{ended_by};
ghost use Rattle.sctp_watch.specs.Observers.{IsToldOfDatagram, IsToldOfPoll};
ghost use Rattle.sctp_watch.specs.Watching.{after_datagram, after_poll, brought, end_after};

use crate::Watch;
use sctp_driver::{DatagramAnswer, Driver, Error, PollAnswer};

/// Which way a datagram went.
#[derive(Clone, Copy, Debug, PartialEq, Eq)]
pub enum Direction {
    /// The driver gave it out.
    Sent,
    /// The driver took it.
    Received,
}

/// Is told of each datagram that passes a driver, as to write it to a file. `Notes` is what is proved of its one call;
/// an observer of which nothing is to be proved says `λ direction now bytes before after. Unit {0}`.
pub trait Observer {
    ghost use Rattle.sctp_watch.specs.declared.observer.Direction.{Direction};

    ghost Notes: { Direction → ℕ → List ℕ → Self → Self → Type 0 };

    /// A datagram passed at the moment `now`, in nanoseconds.
    fn datagram(&mut self, direction: Direction, now: u64, bytes: &[u8])
        ensures { Notes direction now bytes.now self.old self.new };
}

/// As `Watch::handle_datagram`, with an observer, which is told of a datagram that the driver took, once it is taken.
/// Of one that it left nothing is told.
pub fn handle_datagram_observed<O: Observer>(
    watch: &mut Watch,
    driver: &mut Driver,
    observer: &mut O,
    now: u64,
    datagram: &[u8],
) -> Result<DatagramAnswer, Error>
    ensures told { IsToldOfDatagram O.Notes result now datagram.now observer.old observer.new }
    ensures traffic { watch.new.traffic ≡ after_datagram result (length datagram.now) watch.old.traffic }
    ensures end { watch.new.end ≡ end_after driver.old driver.new
        (brought (tells_exhaustion driver.new.association) (ended_by (packet_in datagram.now))) watch.old.end }
    ensures answer { IfOk result (λ answer. answer ≡ answer_to driver.old datagram.now) }
    ensures left { answer_to driver.old datagram.now ≢ fates.Taken → driver.new ≡ driver.old }
    ensures taken { OnOk result (answer_to driver.old datagram.now ≡ fates.Taken → driver.new
        ≡ with_datagram driver.old datagram.now now) }
    ensures failed { IsErrOf result Error.ErrAssociationFailed ↔ (driver.old.association.failed ≡ true) }
    ensures refused { IsErrOf result Error.ErrAssociationFailed → driver.new ≡ driver.old }
    ensures memory { IsErrOf result Error.ErrNoMemory
        → (driver.new ≡ driver.old) ⊎ RunsOutOfMemory driver.old driver.new }
    ensures only { OnErr result ((result ≡ Err Error.ErrAssociationFailed) ⊎ (result ≡ Err Error.ErrNoMemory)) }
{
    let answer = watch.handle_datagram(driver, now, datagram);
    if let Ok(DatagramAnswer::Taken) = &answer {
        observer.datagram(Direction::Received, now, datagram);
    }
    answer
}

/// As `Watch::poll_transmit`, with an observer, which is told of a datagram that is given out.
pub fn poll_transmit_observed<O: Observer>(
    watch: &mut Watch,
    driver: &mut Driver,
    observer: &mut O,
    now: u64,
    buffer: &mut [u8],
) -> Result<PollAnswer, Error>
    ensures told { IsToldOfPoll O.Notes result now buffer.new observer.old observer.new }
    ensures traffic { watch.new.traffic ≡ after_poll result watch.old.traffic }
    ensures end { watch.new.end ≡ end_after driver.old driver.new ends.ShutDown watch.old.end }
    ensures ok { IfOk result
        (λ answer. Sends (asked driver.old now) buffer.old answer driver.new buffer.new) }
    ensures failed { IsErrOf result Error.ErrAssociationFailed
        ↔ ((driver.old.waiting ≡ []) × (driver.old.association.failed ≡ true)) }
    ensures refused { IsErrOf result Error.ErrAssociationFailed → driver.new ≡ driver.old }
    ensures memory { IsErrOf result Error.ErrNoMemory → RunsOutOfMemory driver.old driver.new }
    ensures given { IsErrOf result Error.ErrNoMemory
        → has_something_to_give driver.old.association now ≡ true }
    ensures only { OnErr result ((result ≡ Err Error.ErrAssociationFailed) ⊎ (result ≡ Err Error.ErrNoMemory)) }
    ensures unfilled { OnErr result (buffer.new ≡ buffer.old) }
{
    let answer = watch.poll_transmit(driver, now, buffer);
    if let Ok(PollAnswer::Datagram { length }) = &answer {
        observer.datagram(Direction::Sent, now, &buffer[..*length]);
    }
    answer
}
