//! One stream across its resets, as a machine: the requests of its sender, the generations at its receiver, and what
//! each request divides of what is read. No code runs here; each empty function carries laws that are proved.
#![tactic(auto)]

ghost use Rattle.sctp_courses.specs.Laws.{BoundariesAreKept, EachEventKeepsTheInvariant, TheInvariantIsEnough};
ghost use Rattle.sctp_courses.specs.Runs.{KeptIsReadInTheNext, NothingIsSentInAReset, TwoGenerationsLieBetween};

/// The boundary of a reset (RFC 6525 section 5.2.2): over every list of what may happen, what is read in the generation
/// that a performed request ended lies below the request's boundary, what is read in a later one lies at or past it,
/// and nothing is read twice.
pub fn boundaries_are_kept()
    ensures kept { BoundariesAreKept }
{}

/// What carries that theorem, for whoever builds on it.
pub fn the_invariant_carries()
    ensures kept { EachEventKeepsTheInvariant }
    ensures enough { TheInvariantIsEnough }
{}

/// The machine does something: runs of a few events, with what is read in them.
pub fn runs_compute()
    ensures kept { KeptIsReadInTheNext }
    ensures sent { NothingIsSentInAReset }
    ensures between { TwoGenerationsLieBetween }
{}
