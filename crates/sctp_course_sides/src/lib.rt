//! One association and the courses of streams: as a receiver it follows the course of each stream that its peer sends,
//! which the laws here say. How it leads the courses of its own streams on, and that it answers truly, are lemmas for
//! `sctp_boundaries`. No code runs here; each function carries laws that are proved, and is empty.
#![tactic(auto)]

ghost use Rattle.std.specs.Prelude.{Bool};
ghost use Rattle.sctp_wire_types.specs.declared.chunk.ChunkPayloadData.{ChunkPayloadData};
ghost use Rattle.sctp_reset_fit.specs.Laws.{Passes};
ghost use Rattle.sctp_course_sides.specs.Laws.{JoinedSidesKeepBoundaries, OneSideKeepsBoundaries};
ghost use Rattle.sctp_course_sides.specs.Waiting.{WhatWaitsWaitsOnce};

/// A side that follows the course of a stream of its peer keeps the boundaries of the stream's resets, whatever is
/// called and whatever the peer sends by the course between the calls: each message that is read is read in the
/// course, in the generation of its stream (RFC 6525 section 5.2.2), on the offsets of the pieces that it was made of.
/// Two tokens join a side that begins so. What waits to be read came, and waits once. If each DATA that comes
/// passes a test, so does each piece that waits, and each of which a message was made.
pub fn one_side_keeps_boundaries()
    ensures along { (test : ChunkPayloadData → Bool) → OneSideKeepsBoundaries (Passes test) }
    ensures joined { (test : ChunkPayloadData → Bool) → JoinedSidesKeepBoundaries (Passes test) }
    ensures waits { (test : ChunkPayloadData → Bool) → WhatWaitsWaitsOnce (Passes test) }
{}
