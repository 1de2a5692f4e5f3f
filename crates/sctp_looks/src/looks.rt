// A count of looks.
ghost use Rattle.std.specs.Prelude.{◌≡◌};
ghost use Rattle.sctp_looks.specs.Looks.{ticked_by};

use std::marker::Model;

/// How many elements were looked at. A caller makes one, passes it to the calls that it measures, and reads it then. A
/// contract sees the number. It stays at 2^64 - 1 where it has come there.
#[derive(Debug, Drop)]
pub struct Looks {
    count: u64,
}

impl Model for Looks {
    ghost use Rattle.std.specs.Prelude.{ℕ};

    ghost Value = { ℕ };

    ghost view = { λ l. l.count };
}

impl Looks {
    /// No look yet.
    pub fn new() -> Self
        ensures { result ≡ 0 }
    {
        Looks { count: 0 }
    }

    /// The looks so far.
    pub fn count(&self) -> u64
        ensures { result ≡ self.now }
    {
        self.count
    }

    /// One look more.
    pub fn tick(&mut self)
        ensures { self.new ≡ ticked_by self.old 1 }
    {
        self.count = self.count.saturating_add(1);
    }
}
