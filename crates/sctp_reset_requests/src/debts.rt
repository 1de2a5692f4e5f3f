// What the application is still to be told of resets of streams, and which of them failed (RFC 8831 section 6.7).
ghost use Rattle.std.specs.Prelude.{◌≡◌, OnOk, OnErr};
ghost use Rattle.sctp_reset_requests.specs.Debts.{no_debt, nothing_open, entry_at, open_at, is_owed, bars, awaits_end};
ghost use Rattle.sctp_reset_requests.specs.Debts.{owing, is_nothing, written_from, put_from, one_end_less, paid};
ghost use Rattle.sctp_reset_requests.specs.Debts.{one_given, told_of, one_end_given, end_told_of, settled, failed_at};

use sctp_wire_types::StreamId;
use std::alloc::{AllocError, Global};
use std::collections::{BTreeMap, BTreeSet};
use std::marker::Model;

/// What is open of the resets of one stream.
#[derive(Clone, Copy, Debug)]
pub(crate) struct Debt {
    /// How many events Finished were made of which the reset did not end.
    owed: u64,
    /// How many events Finished were made and not given to the application.
    untold: u64,
    /// How many events Finished were given to it of which the end of the reset was not given.
    told: u64,
}

impl Debt {
    fn nothing() -> Self
        ensures { result ≡ nothing_open }
    {
        Debt {
            owed: 0,
            untold: 0,
            told: 0,
        }
    }

    fn is_nothing(&self) -> bool
        ensures { result ≡ is_nothing self.now }
    {
        self.owed == 0 && self.untold == 0 && self.told == 0
    }
}

/// For each stream how often the application is to be told that the peer ended it (Finished), was told so, and is to be
/// told how its reset ended (ResetComplete, ResetFailed), and the streams whose last reset failed. A stream has no entry
/// once nothing of this is open. Each call costs the logarithm of the streams that have one.
#[derive(Debug, Drop)]
pub struct Debts {
    by_id: BTreeMap<StreamId, Debt>,
    failed: BTreeSet<StreamId>,
}

impl Model for Debts {
    ghost use Rattle.sctp_reset_requests.specs.Debts.{DebtsView};

    ghost Value = { DebtsView };

    ghost view = { λ d. record { by_id = d.by_id.entries; failed = d.failed.keys } };
}

impl Debts {
    /// Nothing is owed and no reset failed; takes no memory.
    pub fn new(alloc: Global) -> Self
        ensures { result ≡ no_debt }
    {
        Debts {
            by_id: BTreeMap::new(alloc),
            failed: BTreeSet::new(alloc),
        }
    }

    /// Whether the end of a reset is owed for a stream, or its last reset failed.
    pub fn bars(&self, id: StreamId) -> bool
        ensures { result ≡ bars self.now id }
    {
        self.is_owed(id) || self.failed.contains(&id)
    }

    /// The peer ended a stream, of which the application is to be told by an event Finished. Where memory is refused
    /// nothing changes; more than the greatest u64 at once counts as that.
    pub fn owe(&mut self, id: StreamId) -> Result<(), AllocError>
        ensures ok { OnOk result (self.new ≡ owing self.old id) }
        ensures err { OnErr result (self.new ≡ self.old) }
    {
        let debt = self.debt(id);
        let Some(owed) = debt.owed.checked_add(1) else {
            return Err(AllocError);
        };
        let Some(untold) = debt.untold.checked_add(1) else {
            return Err(AllocError);
        };
        let told = debt.told;
        self.by_id.insert(id, Debt { owed, untold, told })?;
        Ok(())
    }

    /// The application is given an event Finished of a stream, for which `owe` was called: it awaits the end of that
    /// reset. Takes no memory; more than the greatest u64 at once are that many.
    pub fn tell(&mut self, id: StreamId)
        ensures { self.new ≡ told_of self.old id }
    {
        if let Some(debt) = self.entry(id) {
            let owed = debt.owed;
            let untold = debt.untold.saturating_sub(1);
            let told = debt.told.saturating_add(1);
            self.set(id, Debt { owed, untold, told });
        }
    }

    /// The application is given the end of a reset of a stream, by ResetComplete or ResetFailed: it awaits one less.
    pub fn tell_end(&mut self, id: StreamId)
        ensures { self.new ≡ end_told_of self.old id }
    {
        if let Some(debt) = self.entry(id) {
            let owed = debt.owed;
            let untold = debt.untold;
            let told = debt.told.saturating_sub(1);
            self.set(id, Debt { owed, untold, told });
        }
    }

    /// Whether the application was given Finished of a stream and not the end of that reset.
    pub fn awaits_end(&self, id: StreamId) -> bool
        ensures { result ≡ awaits_end self.now id }
    {
        self.debt(id).told > 0
    }

    /// Whether the end of a reset is owed for a stream.
    pub fn is_owed(&self, id: StreamId) -> bool
        ensures { result ≡ is_owed self.now id }
    {
        self.debt(id).owed > 0
    }

    fn debt(&self, id: StreamId) -> Debt
        ensures { result ≡ open_at self.now id }
    {
        self.entry(id).unwrap_or(Debt::nothing())
    }

    fn entry(&self, id: StreamId) -> Option<Debt>
        ensures { result ≡ entry_at self.now id }
    {
        self.by_id.get(&id).copied()
    }

    // One end less is owed.
    fn pay(&mut self, id: StreamId)
        ensures { self.new ≡ paid self.old id }
    {
        if let Some(debt) = self.entry(id) {
            let owed = debt.owed.saturating_sub(1);
            let untold = debt.untold;
            let told = debt.told;
            self.set(id, Debt { owed, untold, told });
        }
    }

    // Of a stream with an entry this is open now; where that is nothing, its entry goes.
    fn set(&mut self, id: StreamId, debt: Debt)
        ensures { self.new ≡ put_from (entry_at self.old id) self.old id debt }
    {
        if debt.is_nothing() {
            self.by_id.remove(&id);
        } else {
            self.write(id, debt);
        }
    }

    fn write(&mut self, id: StreamId, debt: Debt)
        ensures { self.new ≡ written_from (entry_at self.old id) self.old id debt }
    {
        if let Some(entry) = self.by_id.get_mut(&id) {
            *entry = debt;
        }
    }

    /// A reset of a stream succeeded: one end less is owed, and it counts as failed no more. Answers whether the
    /// application is to be told (ResetComplete).
    pub fn settle(&mut self, id: StreamId) -> bool
        ensures { settled self.old id ≡ (self.new, result) }
    {
        let owed = self.is_owed(id);
        self.pay(id);
        self.failed.remove(&id);
        owed
    }

    /// The peer ended a reset that this side began: one end less is owed. Answers whether the application is to be told
    /// (ResetComplete).
    pub fn end(&mut self, id: StreamId) -> bool
        ensures paid { self.new ≡ paid self.old id }
        ensures told { result ≡ is_owed self.old id }
    {
        let owed = self.is_owed(id);
        self.pay(id);
        owed
    }

    /// A reset of a stream failed, of which the application is told (ResetFailed): one end less is owed. Where memory
    /// is refused nothing changes.
    pub fn fail(&mut self, id: StreamId) -> Result<(), AllocError>
        ensures ok { OnOk result (self.new ≡ failed_at self.old id) }
        ensures err { OnErr result (self.new ≡ self.old) }
    {
        self.failed.insert(id)?;
        self.pay(id);
        Ok(())
    }

    /// The association is closed: nothing is owed and no reset failed.
    pub fn close(&mut self)
        ensures { self.new ≡ no_debt }
    {
        self.by_id.clear();
        self.failed.clear();
    }
}
