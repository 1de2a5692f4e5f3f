// A range, and the place where a search ended.
ghost use Rattle.std.specs.Prelude.{◌≡◌, ◌+◌, ◌≤◌, Some, None, IfSome, true, false};
ghost use Rattle.sctp_ranges.specs.Runs.{is_begun, before, after, IsClear};

/// Numbers that follow one after another, from the first to the last, both included.
#[derive(Clone, Copy, Debug, PartialEq, Eq, Drop)]
pub struct Run {
    pub first: u32,
    pub last: u32,
}

/// The first range that does not end before an offset, and its index; no range where all end before it.
#[derive(Clone, Copy, Drop)]
pub struct Place {
    pub index: usize,
    pub run: Option<Run>,
}

impl Place {
    /// Whether the range begins at an offset or before it.
    pub fn is_begun(self, offset: u32) -> bool
        ensures { result ≡ is_begun offset self.run }
    {
        match self.run {
            Some(run) => run.first <= offset,
            None => false,
        }
    }

    /// The range, where it begins at an offset or before it.
    pub fn begun(self, offset: u32) -> Option<Run>
        ensures none { result ≡ None → is_begun offset self.run ≡ false }
        ensures some { IfSome result (λ r. (self.run ≡ Some r) × (is_begun offset (Some r) ≡ true)) }
    {
        match self.run {
            Some(run) => { if run.first <= offset { Some(run) } else { None } }
            None => None,
        }
    }

    /// The range, which begins past an offset, where it is next to it.
    pub fn next_to(self, offset: u32) -> Option<Run>
        requires { is_begun offset self.run ≡ false }
        ensures clear { result ≡ None → IsClear offset self.run }
        ensures next { IfSome result (λ r. (self.run ≡ Some r) × (offset + 1 ≡ r.first)) }
    {
        match self.run {
            Some(run) => {
                if run.first - 1 == offset {
                    Some(run)
                } else {
                    None
                }
            }
            None => None,
        }
    }

    /// What of the range comes before an offset.
    pub fn before(self, offset: u32) -> Option<Run>
        ensures { result ≡ before offset self.run }
    {
        match self.run {
            Some(run) if run.first < offset => Some(Run {
                first: run.first,
                last: offset - 1,
            }),
            _ => None,
        }
    }

    /// What of the range comes after one of its offsets.
    pub fn after(self, offset: u32) -> Option<Run>
        ensures { result ≡ after offset self.run }
    {
        match self.run {
            Some(run) if run.first <= offset && offset < run.last => Some(Run {
                first: offset + 1,
                last: run.last,
            }),
            _ => None,
        }
    }
}
