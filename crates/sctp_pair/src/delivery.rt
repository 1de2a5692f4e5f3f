// A packet of one side comes to the other one.
ghost use Rattle.std.specs.Prelude.{slice_get};
ghost use Rattle.sctp_steps.specs.Steps.{Delivers};

use bytes::Bytes;
use sctp_assoc::{Association, Instant, Reply};
use sctp_calls::calls;
use std::net::SocketAddr;

// Hands a packet that the other side gave out to an association. A packet that finds no memory to be read is lost. A
// failed association refuses each datagram, whatever it spells.
pub(crate) fn deliver(
    association: &mut Association,
    packets: &[Bytes],
    number: u64,
    remote: SocketAddr,
    now: Instant,
) -> Reply
    ensures { Delivers association.old (slice_get packets.now number) now result association.new }
{
    match packets.get(number as usize) {
        Some(packet) => calls::handle_datagram(association, packet, remote, now),
        None => Reply::NoSuchPacket,
    }
}
