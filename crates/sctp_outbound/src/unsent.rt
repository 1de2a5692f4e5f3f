// Messages that are dropped before any of them was sent (RFC 3758 section 3.5).
ghost use Rattle.std.specs.Prelude.{◌≡◌, is_some};
ghost use Rattle.sctp_outbound_queue.specs.Expiry.{after_expiry};
ghost use Rattle.sctp_streams.specs.LowMarks.{AreGathered, falls_in};
ghost use Rattle.sctp_streams.specs.Streams.{given_back_in};
ghost use Rattle.sctp_outbound.specs.Abandonment.{all_dropped, dropped_by, first_dropped};
ghost use Rattle.sctp_outbound.specs.Falling.{fell_dropped, fell_dropped_all, fell_dropping};

use crate::sender::Sender;
use sctp_outbound_queue::Released;
use sctp_streams::{Fallen, Streams};
use sctp_wire_types::Instant;

impl Sender {
    /// Where FORWARD TSN is in use, drops each expired message of which nothing was sent: its bytes are released at its
    /// stream, and the SSN of an ordered one goes to the next ordered message there. It can do without the memory that
    /// it takes. Goes over what waits only where a deadline is past.
    #[tactic(auto, using(sctp_streams::proofs::LowMarks::none_gathered))]
    pub fn drop_expired(
        &mut self,
        streams: &mut Streams,
        fallen: &mut Fallen,
        forward: bool,
        now: Instant,
    )
        ensures exact { dropped_by forward now (self.old, streams.old) ≡ (self.new, streams.new) }
        ensures falls { AreGathered (fell_dropped forward now (self.old, streams.old)) fallen.old fallen.new }
    {
        if forward {
            self.drop_all(streams, fallen, now);
        }
    }

    // Drops the expired messages of which nothing was sent, one after another.
    fn drop_all(&mut self, streams: &mut Streams, fallen: &mut Fallen, now: Instant)
        ensures exact { all_dropped now (self.old, streams.old) ≡ (self.new, streams.new) }
        ensures falls { AreGathered (fell_dropped_all now (self.old, streams.old)) fallen.old fallen.new }
    {
        let count = self.queue.pending_messages();
        for done in 0..count {
            if !self.drop_first(streams, fallen, now) {
                return;
            }
        }
    }

    // Drops the first expired message of which nothing was sent, and answers whether there is one.
    #[tactic(auto, unfolding(crate::specs::Abandonment::first_dropped), using(sctp_streams::proofs::LowMarks::none_gathered))]
    fn drop_first(&mut self, streams: &mut Streams, fallen: &mut Fallen, now: Instant) -> bool
        ensures exact { first_dropped now (self.old, streams.old) ≡ (self.new, streams.new) }
        ensures any { result ≡ is_some (after_expiry now self.old.queue).1 }
        ensures falls { AreGathered (fell_dropping now (self.old, streams.old)) fallen.old fallen.new }
    {
        match self.queue.expire_pending(now) {
            Some(dropped) => {
                give_back(streams, fallen, &dropped);
                true
            }
            None => false,
        }
    }
}

// Gives the bytes of a dropped message back to its stream, and the number of an ordered one. Where the stream falls to
// its low mark it is gathered.
fn give_back(streams: &mut Streams, fallen: &mut Fallen, dropped: &Released)
    ensures given { streams.new ≡ given_back_in streams.old dropped.now.message.stream_identifier
        dropped.now.message.generation dropped.now.message.unordered dropped.now.bytes }
    ensures falls { AreGathered (falls_in streams.old dropped.now.message.stream_identifier
        dropped.now.message.generation dropped.now.bytes) fallen.old fallen.new }
{
    let message = &dropped.message;
    let id = message.stream_identifier;
    if streams.give_back(id, message.generation, message.unordered, dropped.bytes) {
        fallen.add(id);
    }
}
