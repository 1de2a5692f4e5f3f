// FORWARD TSN.
ghost use Rattle.sctp_fit.specs.Forwards.{ForwardsSayTheSame, ForwardsThatComeAreTaken, PairsTellTheLast};

/// What a FORWARD TSN says is the same of an association and of its direction, and one that comes skips the same on
/// both sides (RFC 3758 sections 3.2, 3.5 and 3.6).
pub fn forwards_are_alike()
    ensures made { ForwardsSayTheSame }
    ensures told { PairsTellTheLast }
    ensures taken { ForwardsThatComeAreTaken }
{}
