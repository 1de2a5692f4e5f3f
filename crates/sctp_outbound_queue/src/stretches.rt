// Up to 14 stretches of the messages that wait, which lie in the value itself. A look for what is over needs not go
// over a stretch of which no deadline is.
ghost use Rattle.std.specs.Prelude.{List, ◌≡◌, ◌+◌, ◌-◌, ◌^◌, ◌<◌, ◌≤◌, ◌++◌, ◌∷◌, [], length, min, take, drop};
ghost use Rattle.std.specs.Prelude.{slice_index_or, slice_set, remove, Some};
ghost use Rattle.sctp_outbound_queue.specs.declared.stretches.Stretch.{Stretch as OneStretch};
ghost use Rattle.sctp_outbound_queue.specs.Stretches.{moment_of, stretch, total, shortened_at};
ghost use Rattle.sctp_outbound_queue.specs.Waiting.{Waiting};
ghost use Rattle.sctp_outbound_queue.specs.Clocks.{AllFrom, Cover};

use sctp_wire_types::Instant;
use std::marker::Model;

const ROOM: usize = 14;

// A stretch of so many messages takes in no more behind it while there is room for another one.
const ENOUGH: usize = 64;

/// Some messages one behind another.
#[derive(Clone, Copy, Drop)]
pub(crate) struct Stretch {
    /// How many these are.
    pub(crate) len: usize,
    /// No deadline of theirs lies before this moment, which may lie before their least one where a message left them.
    /// It is the greatest moment where they had none when they were last gone over, too.
    pub(crate) next: Instant,
}

impl Stretch {
    /// So many messages with this least deadline; None: they have none.
    pub(crate) fn new(len: usize, least: &Option<Instant>) -> Self
        ensures { result ≡ stretch len (moment_of least.now) }
    {
        let next = match least {
            Some(deadline) => *deadline,
            None => Instant::from_nanos(u64::MAX),
        };
        Stretch { len, next }
    }

    // The two, one behind the other.
    fn join(self, other: Stretch) -> Self
        requires { self.len + other.len < 2 ^ 64 }
        ensures { result ≡ stretch (self.len + other.len) (min self.next other.next) }
    {
        Stretch {
            len: self.len + other.len,
            next: self.next.min(other.next),
        }
    }
}

/// A list of stretches, one behind another, that takes no memory of its own.
#[derive(Drop)]
pub(crate) struct Stretches {
    places: [Stretch; ROOM],
    len: usize,
}

impl Model for Stretches {
    ghost use Rattle.std.specs.Prelude.{◌≡◌, ◌≤◌, List, length, take};
    ghost use Rattle.sctp_outbound_queue.specs.declared.stretches.Stretch.{Stretch as OneStretch};

    ghost Value = { List OneStretch };

    ghost view = { λ s. take s.len s.places };

    ghost invariant = { λ s. (s.len ≤ 14) × (length s.places ≡ 14) };
}

impl Stretches {
    /// No stretch.
    pub(crate) fn new() -> Self
        ensures { result ≡ [] }
    {
        let none = Stretch {
            len: 0,
            next: Instant::from_nanos(0),
        };
        Stretches {
            places: [none; ROOM],
            len: 0,
        }
    }

    /// How many stretches these are.
    pub(crate) fn len(&self) -> usize
        ensures len { result ≡ length self.now }
        ensures fits { result ≤ 14 }
    {
        self.len
    }

    /// The stretches, in order.
    pub(crate) fn as_slice(&self) -> &[Stretch]
        ensures { result.now ≡ self.now }
    {
        &self.places[..self.len]
    }

    /// Another stretch at a place.
    pub(crate) fn set(&mut self, place: usize, stretch: Stretch)
        requires { place < length self.old }
        ensures { self.new ≡ slice_set self.old place stretch }
    {
        let places = &mut self.places;
        places[place] = stretch;
    }

    // One stretch more, at the end.
    fn push(&mut self, stretch: Stretch)
        requires { length self.old < 14 }
        ensures { self.new ≡ self.old ++ stretch ∷ [] }
    {
        self.places[self.len] = stretch;
        self.len += 1;
    }

    // One stretch less, at the end.
    fn shorten(&mut self)
        requires { 0 < length self.old }
        ensures { self.new ≡ take (length self.old - 1) self.old }
    {
        self.len -= 1;
    }

    // The stretch at a place and the one behind it change places.
    fn swap_up(&mut self, place: usize)
        requires { place + 1 < length self.old }
        ensures { (x : OneStretch) → self.new
            ≡ slice_set (slice_set self.old place (slice_index_or self.old (place + 1) x)) (place + 1)
            (slice_index_or self.old place x) }
    {
        let first = self.as_slice()[place];
        let second = self.as_slice()[place + 1];
        self.set(place, second);
        self.set(place + 1, first);
    }

    // Without the stretch at a place, which moves to the end first.
    fn remove(&mut self, place: usize)
        requires { place < length self.old }
        ensures { self.new ≡ remove self.old place }
    {
        let last = self.len() - 1;
        let mut at = place;
        while at < last {
            self.swap_up(at);
            at += 1;
        }
        self.shorten();
    }

    /// How many messages the stretches have.
    pub(crate) fn total(&self) -> usize
        requires { total self.now < 2 ^ 64 }
        ensures { result ≡ total self.now }
    {
        total_of(self.as_slice())
    }

    /// The message at an index waits no more: the stretch in which it lies has one less.
    pub(crate) fn shorten_at(&mut self, index: usize)
        ensures { self.new ≡ shortened_at index self.old }
    {
        let mut left = index;
        for place in 0..self.len() {
            let stretch = self.as_slice()[place];
            if left < stretch.len {
                let shorter = Stretch {
                    len: stretch.len - 1,
                    next: stretch.next,
                };
                self.set(place, shorter);
                return;
            }
            left -= stretch.len;
        }
    }

    /// A stretch behind the others, which the last one takes in where that one is short.
    pub(crate) fn add(&mut self, stretch: Stretch)
        requires { total self.old + stretch.len < 2 ^ 64 }
        ensures total { total self.new ≡ total self.old + stretch.len }
        ensures cover { (ms : List Waiting) → Cover self.old ms → total self.old + stretch.len ≤ length ms
            → AllFrom (Some stretch.next) (take stretch.len (drop (total self.old) ms)) → Cover self.new ms }
    {
        if stretch.len == 0 {
            return;
        }
        self.make_room();
        self.push(stretch);
        self.join_last();
    }

    // Two neighbours with the least messages together become one where all places are taken.
    fn make_room(&mut self)
        requires { total self.old < 2 ^ 64 }
        ensures room { length self.new < 14 }
        ensures total { total self.new ≡ total self.old }
        ensures cover { (ms : List Waiting) → Cover self.old ms → Cover self.new ms }
    {
        if ROOM <= self.len() {
            let place = shortest_pair(self.as_slice());
            self.join_at(place);
        }
    }

    // The last one is taken in by the one before it where that one is short.
    fn join_last(&mut self)
        requires { total self.old < 2 ^ 64 }
        ensures total { total self.new ≡ total self.old }
        ensures cover { (ms : List Waiting) → Cover self.old ms → Cover self.new ms }
    {
        let len = self.len();
        if 2 <= len && self.as_slice()[len - 2].len < ENOUGH {
            self.join_at(len - 2);
        }
    }

    // The stretch at a place and the one behind it become one.
    fn join_at(&mut self, place: usize)
        requires place { place + 1 < length self.old }
        requires total { total self.old < 2 ^ 64 }
        ensures len { length self.new + 1 ≡ length self.old }
        ensures total { total self.new ≡ total self.old }
        ensures cover { (ms : List Waiting) → Cover self.old ms → Cover self.new ms }
    {
        let both = self.as_slice()[place].join(self.as_slice()[place + 1]);
        self.set(place, both);
        self.remove(place + 1);
    }
}

fn total_of(stretches: &[Stretch]) -> usize
    requires { total stretches.now < 2 ^ 64 }
    ensures { result ≡ total stretches.now }
{
    let mut sum = 0;
    for stretch in stretches {
        sum += stretch.len;
    }
    sum
}

// Where two neighbours have the least messages together.
fn shortest_pair(stretches: &[Stretch]) -> usize
    requires { 1 < length stretches.now }
    ensures { result + 1 < length stretches.now }
{
    let mut shortest = 0;
    let mut least = usize::MAX;
    for place in 0..stretches.len() - 1 {
        let both = stretches[place]
            .len
            .saturating_add(stretches[place + 1].len);
        if both < least {
            shortest = place;
            least = both;
        }
    }
    shortest
}
