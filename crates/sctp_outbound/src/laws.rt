// What holds of the messages that a sender gives up.
ghost use Rattle.sctp_outbound.specs.Laws.{NoneIsLeft, SpentAreSpared, UnlimitedStay};

/// Where each message that waits or is in flight is reliable, nothing is given up, and nothing changes, whether FORWARD
/// TSN is in use or not.
pub fn unlimited_messages_stay()
    ensures { UnlimitedStay }
{}

/// Where a pass reaches no piece that was sent as often as its policy allows, it sends none again.
pub fn spent_pieces_are_spared()
    ensures { SpentAreSpared }
{}

/// Once all that is given up for a reason is abandoned, nothing more is given up for it.
pub fn all_are_given_up()
    ensures { NoneIsLeft }
{}
