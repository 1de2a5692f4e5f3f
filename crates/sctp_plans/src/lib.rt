//! A plan is what was accepted, and on which offsets the pieces of it stand. What a receiver makes of all pieces of one
//! message, where each of them is a piece of the plan, is a message that was accepted, whole. No code runs here; the
//! empty function carries laws that are proved.
#![tactic(auto)]

ghost use Rattle.sctp_plans.specs.Laws.{AcceptedMessagesHaveTheirType, AcceptedPiecesStay};
ghost use Rattle.sctp_plans.specs.Laws.{OtherOffsetsAreAnotherMessage, OtherPiecesAreAnotherMessage};
ghost use Rattle.sctp_plans.specs.Laws.{WhatIsMadeOfAcceptedPiecesWasAccepted, WhatIsMadeOfAPlanWasAccepted};
ghost use Rattle.sctp_plans.specs.Laws.{WhatPassesAndIsMadeWasAccepted};

/// A message that is made of pieces of a plan was accepted: it has the bytes of one accepted message of its stream, and
/// its pieces stand on that message's places, on all of them (RFC 4960 sections 6.6 and 6.9). It has the payload type
/// of that one where its pieces have. A message made of pieces with other TSNs, or on other offsets, is another one of
/// those accepted. A piece of an accepted message stays one when more is accepted or assigned.
pub fn made_messages_were_accepted()
    ensures accepted { WhatIsMadeOfAPlanWasAccepted }
    ensures tested { WhatPassesAndIsMadeWasAccepted }
    ensures typed { AcceptedMessagesHaveTheirType }
    ensures apart { OtherPiecesAreAnotherMessage }
    ensures elsewhere { OtherOffsetsAreAnotherMessage }
    ensures whole { WhatIsMadeOfAcceptedPiecesWasAccepted }
    ensures stay { AcceptedPiecesStay }
{}
