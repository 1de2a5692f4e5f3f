// How many datagrams and bytes passed.
ghost use Rattle.std.specs.Prelude.{◌≡◌};
ghost use Rattle.sctp_parts.specs.Stats.{more_by, one_more};
ghost use Rattle.sctp_watch.specs.Watching.{after_datagram, after_poll, no_traffic, with_received, with_sent};

use sctp_driver::{DatagramAnswer, Error, PollAnswer};

/// What passed between a driver and its peer. A count stays at the greatest u64.
#[derive(Clone, Copy, Debug, PartialEq, Eq)]
pub struct Traffic {
    /// Datagrams that the driver gave out.
    pub datagrams_sent: u64,
    /// Their bytes, with SCTP's headers and without those of the layer below.
    pub bytes_sent: u64,
    /// Datagrams that the driver took: those that it left are not counted.
    pub datagrams_received: u64,
    /// Their bytes.
    pub bytes_received: u64,
}

impl Traffic {
    /// Nothing passed.
    pub fn none() -> Traffic
        ensures { result ≡ no_traffic }
    {
        Traffic {
            datagrams_sent: 0,
            bytes_sent: 0,
            datagrams_received: 0,
            bytes_received: 0,
        }
    }

    fn count_received(&mut self, bytes: usize)
        ensures { self.new ≡ with_received bytes self.old }
    {
        self.datagrams_received = self.datagrams_received.saturating_add(1);
        self.bytes_received = self.bytes_received.saturating_add(bytes as u64);
    }

    fn count_sent(&mut self, bytes: usize)
        ensures { self.new ≡ with_sent bytes self.old }
    {
        self.datagrams_sent = self.datagrams_sent.saturating_add(1);
        self.bytes_sent = self.bytes_sent.saturating_add(bytes as u64);
    }

    /// Counts a datagram of so many bytes if it was taken.
    pub(crate) fn count_datagram(&mut self, answer: &Result<DatagramAnswer, Error>, bytes: usize)
        ensures { self.new ≡ after_datagram answer.now bytes self.old }
    {
        if let Ok(DatagramAnswer::Taken) = answer {
            self.count_received(bytes);
        }
    }

    /// Counts a datagram if one was given out.
    pub(crate) fn count_poll(&mut self, answer: &Result<PollAnswer, Error>)
        ensures { self.new ≡ after_poll answer.now self.old }
    {
        if let Ok(PollAnswer::Datagram { length }) = answer {
            self.count_sent(*length);
        }
    }
}
