//! DATA and generations of streams (RFC 6525 section 5.2.2), whatever the peer sends and whatever is called: a
//! generation that ended and is still read takes in nothing, DATA above where the generation that is read ends stays
//! out of its stream, and no other DATA is kept apart. No code runs here; the empty functions carry laws that are
//! proved.
#![tactic(auto)]

ghost use Rattle.sctp_ended.specs.Boundaries.{DataAboveTheEndStaysOut, DataAboveTheEndStaysOutOfReachedSides};
ghost use Rattle.sctp_ended.specs.Boundaries.{DataBehindARequestStaysOut};
ghost use Rattle.sctp_ended.specs.Ended.{EndedGenerationsOfReachedSidesTakeInNothing, EndedGenerationsTakeInNothing};
ghost use Rattle.sctp_ended.specs.KeptApart.{CreatedSidesKeepNothingApart, JoinedSidesKeepNothingApart};
ghost use Rattle.sctp_ended.specs.KeptApart.{OtherDataIsNeverKeptApart};

/// While a generation that ended can still be read, nothing is taken into it any more: whatever test all pieces pass
/// that it holds, all pieces pass that it holds later, as long as it is that generation (RFC 6525 section 5.2.2).
pub fn ended_generations_take_in_nothing()
    ensures any { EndedGenerationsTakeInNothing }
    ensures reached { EndedGenerationsOfReachedSidesTakeInNothing }
{}

/// DATA above the boundary of the generation that is read, or else above the last TSN of a request in progress that
/// names its stream, is not taken into the stream, over every list of calls: it waits until the request is performed
/// and the older generation is read out, or is dropped (RFC 6525 section 5.2.2).
pub fn data_above_a_boundary_stays_out()
    ensures any { DataAboveTheEndStaysOut }
    ensures reached { DataAboveTheEndStaysOutOfReachedSides }
    ensures waits { DataBehindARequestStaysOut }
{}

/// Only DATA of streams of which an ended generation is still read, and DATA above the last TSN of a request in
/// progress that names its stream, is ever kept apart (RFC 6525 section 5.2.2).
pub fn other_data_is_never_kept_apart()
    ensures kept { OtherDataIsNeverKeptApart }
    ensures created { CreatedSidesKeepNothingApart }
    ensures joined { JoinedSidesKeepNothingApart }
{}
