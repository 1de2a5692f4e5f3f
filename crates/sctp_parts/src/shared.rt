// What an association and the endpoint that holds it tell each other.
ghost use Rattle.std.specs.Prelude.{◌≡◌, ◌↔◌, IsTrue};

pub use sctp_wire_types::{EcnCodepoint, Instant};

/// The number by which an endpoint knows an association. It is never sent.
pub type AssociationId = u32;

/// A number issued for an association, and its place in the order of issue.
#[derive(Clone, Copy, Debug)]
pub struct IssuedAid {
    pub sequence: u64,
    pub id: AssociationId,
}

/// What an association tells its endpoint. There is one kind: the end of the association has begun.
#[derive(Debug, Drop)]
pub struct EndpointEvent {
    inner: EndpointEventInner,
}

#[derive(Clone, Copy, Debug, PartialEq, Eq)]
enum EndpointEventInner {
    Drained,
}

impl EndpointEvent {
    ghost use Rattle.sctp_parts.specs.Shared.{drained_event};

    /// The event that tells that the application began a shutdown. It is told as soon as that is so, and all is over
    /// only when `Association::is_drained` says so: datagrams, timers and reads go on until then.
    pub fn drained() -> Self
        ensures { result ≡ drained_event }
    {
        EndpointEvent {
            inner: EndpointEventInner::Drained,
        }
    }

    /// Whether this event tells that the application began a shutdown, which each of them does.
    pub fn is_drained(&self) -> bool
        ensures { IsTrue result ↔ (self.now ≡ drained_event) }
    {
        self.inner == EndpointEventInner::Drained
    }
}
