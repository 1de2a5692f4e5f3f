// Counts of an association.
ghost use Rattle.std.specs.Prelude.{◌≡◌};
ghost use Rattle.sctp_parts.specs.Stats.{more_by, one_more, no_counts};

use std::marker::Model;

/// What an association has counted since it was made. A count that reaches the greatest `u64` stays there.
#[derive(Clone, Copy, Debug)]
pub struct AssociationStats {
    datas: u64,
    sacks: u64,
    t3timeouts: u64,
    ack_timeouts: u64,
    fast_retrans: u64,
}

impl Model for AssociationStats {
    ghost use Rattle.sctp_parts.specs.Stats.{Counts};

    ghost Value = { Counts };

    ghost view = { λ s. record {
      datas = s.datas;
      sacks = s.sacks;
      t3timeouts = s.t3timeouts;
      ack_timeouts = s.ack_timeouts;
      fast_retrans = s.fast_retrans;
    } };

    ghost inverse = { λ c. record {
      datas = c.datas;
      sacks = c.sacks;
      t3timeouts = c.t3timeouts;
      ack_timeouts = c.ack_timeouts;
      fast_retrans = c.fast_retrans;
    } };
}

impl Default for AssociationStats {
    ghost is_default = { λ s. s ≡ no_counts };

    fn default() -> Self {
        AssociationStats {
            datas: 0,
            sacks: 0,
            t3timeouts: 0,
            ack_timeouts: 0,
            fast_retrans: 0,
        }
    }
}

impl AssociationStats {
    /// A DATA chunk was reached in its packet, taken in or not.
    pub fn inc_datas(&mut self)
        ensures { self.new ≡ record self.old { datas = one_more self.old.datas } }
    {
        self.datas = self.datas.saturating_add(1);
    }

    /// How many DATA chunks were reached in their packets since the counts were last 0; it stays at 2^64 - 1.
    pub fn get_num_datas(&self) -> u64
        ensures { result ≡ self.now.datas }
    {
        self.datas
    }

    /// A SACK was reached in its packet in a state in which SACKs count.
    pub fn inc_sacks(&mut self)
        ensures { self.new ≡ record self.old { sacks = one_more self.old.sacks } }
    {
        self.sacks = self.sacks.saturating_add(1);
    }

    /// How many SACKs were reached in a state in which SACKs count.
    pub fn get_num_sacks(&self) -> u64
        ensures { result ≡ self.now.sacks }
    {
        self.sacks
    }

    /// The retransmission timer expired, and not past its limit.
    pub fn inc_t3timeouts(&mut self)
        ensures { self.new ≡ record self.old { t3timeouts = one_more self.old.t3timeouts } }
    {
        self.t3timeouts = self.t3timeouts.saturating_add(1);
    }

    /// How often the retransmission timer expired within its limit (RFC 4960 section 6.3.3).
    pub fn get_num_t3timeouts(&self) -> u64
        ensures { result ≡ self.now.t3timeouts }
    {
        self.t3timeouts
    }

    /// The timer of delayed acknowledgements expired.
    pub fn inc_ack_timeouts(&mut self)
        ensures { self.new ≡ record self.old { ack_timeouts = one_more self.old.ack_timeouts } }
    {
        self.ack_timeouts = self.ack_timeouts.saturating_add(1);
    }

    /// How often the timer of delayed acknowledgements expired (RFC 4960 section 6.2).
    pub fn get_num_ack_timeouts(&self) -> u64
        ensures { result ≡ self.now.ack_timeouts }
    {
        self.ack_timeouts
    }

    /// Fast retransmission selected so many DATA chunks (RFC 4960 section 7.2.4).
    pub fn add_fast_retrans(&mut self, count: u64)
        ensures { self.new ≡ record self.old { fast_retrans = more_by count self.old.fast_retrans } }
    {
        self.fast_retrans = self.fast_retrans.saturating_add(count);
    }

    /// How many DATA chunks fast retransmission selected (RFC 4960 section 7.2.4).
    pub fn get_num_fast_retrans(&self) -> u64
        ensures { result ≡ self.now.fast_retrans }
    {
        self.fast_retrans
    }

    /// Sets all counts to 0.
    pub fn reset(&mut self)
        ensures { self.new ≡ no_counts }
    {
        *self = AssociationStats::default();
    }
}
