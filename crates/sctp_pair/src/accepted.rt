// What was accepted, and what follows where that is little. No code runs here.
ghost use Rattle.sctp_pair.specs.Across.{WhatWasGivenOutWasAccepted};
ghost use Rattle.sctp_pair.specs.Callers.{FewAcceptedStayFew};

/// Accepted: in each world that a pair fits, whatever is made of DATA that a side gave out is a message that this side
/// accepted, whole and under its payload type, also on streams past their span (`given_out`). Where each side accepted
/// fewer than 16,384 pieces in all steps of a pair, few stay unacknowledged in them and few messages unread, whatever
/// is acknowledged and read: the premise of `Pair::run` (`few`).
pub fn given_out_data_was_accepted()
    ensures given_out { WhatWasGivenOutWasAccepted }
    ensures few { FewAcceptedStayFew }
{}
