//! What an association keeps of a stream that it receives, and of the peer's requests to reset it, as the course of
//! that stream: what comes, is performed and is read is what may happen there. If each piece that comes passes a test,
//! so does each that is held, and each of which a message was made. No code runs here; each empty function carries laws
//! that are proved.
#![tactic(auto)]

ghost use Rattle.std.specs.Prelude.{Bool};
ghost use Rattle.sctp_wire_types.specs.declared.chunk.ChunkPayloadData.{ChunkPayloadData};
ghost use Rattle.sctp_reset_fit.specs.Laws.{LaterDataWaits, LeftDataIsTaken, MessagesAreRead, NewDataIsTaken};
ghost use Rattle.sctp_reset_fit.specs.Laws.{NothingStandsForTheStart, Passes, RequestsArePerformed, StreamsAreReadOut};
ghost use Rattle.sctp_reset_fit.specs.Laws.{WhatIsHiddenIsHidden};

/// DATA that comes for a stream: it is of a later generation where it is so in the stream's course, and is taken in,
/// whether or not it goes to the stream, or waits as there (RFC 6525 section 5.2.2).
pub fn what_comes_follows_the_course()
    ensures start { (test : ChunkPayloadData → Bool) → NothingStandsForTheStart (Passes test) }
    ensures hidden { (test : ChunkPayloadData → Bool) → WhatIsHiddenIsHidden (Passes test) }
    ensures taken { (test : ChunkPayloadData → Bool) → NewDataIsTaken (Passes test) }
    ensures left { (test : ChunkPayloadData → Bool) → LeftDataIsTaken (Passes test) }
    ensures kept { (test : ChunkPayloadData → Bool) → LaterDataWaits (Passes test) }
{}

/// A message that is read is read in the stream's course, in the generation of the stream, on the offsets of all pieces
/// of one message, of which it was made; generations that were read to their end are passed as there.
pub fn reads_follow_the_course()
    ensures message { (test : ChunkPayloadData → Bool) → MessagesAreRead (Passes test) }
    ensures out { (test : ChunkPayloadData → Bool) → StreamsAreReadOut (Passes test) }
{}

/// A performed request of the peer ends the newest generation of each stream that it names, and gives out what waited
/// for it, as in the stream's course.
pub fn performed_requests_follow_the_course()
    ensures performed { (test : ChunkPayloadData → Bool) → RequestsArePerformed (Passes test) }
{}
