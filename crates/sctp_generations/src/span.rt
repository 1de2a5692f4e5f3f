// Between which boundaries DATA of a stream lies.
ghost use Rattle.std.specs.Prelude.{◌≡◌};
ghost use Rattle.sctp_generations.specs.Spans.{everything, narrowed, ended_by, is_past, is_in};

use crate::deferred::is_up_to;
use sctp_serial::{sna32lt, sna32lte};
use sctp_wire_types::{ChunkPayloadData, StreamId};

/// TSNs past one boundary, and at or below another, where there are these.
#[derive(Clone, Copy, Debug)]
pub(crate) struct Span {
    pub(crate) after: Option<u32>,
    pub(crate) upto: Option<u32>,
}

impl Span {
    // All TSNs.
    pub(crate) fn everything() -> Self
        ensures { result ≡ everything }
    {
        Span {
            after: None,
            upto: None,
        }
    }

    // With a boundary that comes behind those gone over: the span of a TSN ends with the first one that it is at or
    // below.
    pub(crate) fn narrowed(self, tsn: u32, boundary: u32) -> Self
        ensures { result ≡ narrowed tsn self boundary }
    {
        if self.upto.is_some() {
            self
        } else if sna32lte(tsn, boundary) {
            Span {
                after: self.after,
                upto: Some(boundary),
            }
        } else {
            Span {
                after: Some(boundary),
                upto: None,
            }
        }
    }

    // With the last TSN of a request in progress, if there is one, as a boundary behind the others.
    pub(crate) fn ended_by(self, tsn: u32, in_progress: Option<u32>) -> Self
        ensures { result ≡ ended_by tsn self in_progress }
    {
        match in_progress {
            Some(last) => self.narrowed(tsn, last),
            None => self,
        }
    }

    // Whether DATA is of a stream and of this span.
    pub(crate) fn has(self, id: StreamId, chunk: &ChunkPayloadData) -> bool
        ensures { result ≡ is_in id self chunk.now }
    {
        chunk.stream_identifier == id
            && is_past(self.after, chunk.tsn)
            && is_up_to(self.upto, chunk.tsn)
    }
}

fn is_past(boundary: Option<u32>, tsn: u32) -> bool
    ensures { result ≡ is_past boundary tsn }
{
    match boundary {
        Some(boundary) => sna32lt(boundary, tsn),
        None => true,
    }
}
