// Random numbers of a job, all from its seed.
use rand_core::{Rng, SeedableRng};
use rand_xoshiro::Xoshiro256PlusPlus;
use std::alloc::{AllocError, Global};

/// How many random bytes a job's messages are cut from. It is no multiple of a message's length, so that no two long
/// messages are alike.
const POOL_SIZE: usize = 1_048_573;

/// A source of random numbers.
#[derive(Drop)]
pub struct Random {
    generator: Xoshiro256PlusPlus,
}

impl Random {
    /// The numbers of a seed.
    pub fn of_seed(seed: u64) -> Random {
        Random {
            generator: Xoshiro256PlusPlus::seed_from_u64(seed),
        }
    }

    /// Any number.
    pub fn number(&mut self) -> u64 {
        self.generator.next_u64()
    }

    /// A number below a bound; 0 where the bound is 0.
    pub fn below(&mut self, bound: u64) -> u64 {
        let number = self.number() >> 32;
        (number % (bound.max(1))).min(bound)
    }

    /// A number from a least one to a greatest one.
    pub fn between(&mut self, least: u64, greatest: u64) -> u64 {
        let width = greatest.saturating_sub(least).saturating_add(1);
        least.saturating_add(self.below(width))
    }

    /// A small number from a least one on, one of so many.
    pub fn small(&mut self, least: u16, count: u16) -> u16 {
        let number = (self.number() >> 32) % u64::from(count.max(1));
        least.saturating_add(number as u16)
    }

    /// Whether something happens that does so `often` times of 1,000.
    pub fn happens(&mut self, often: u64) -> bool {
        self.below(1000) < often
    }
}

/// Random bytes, of which messages are cut.
#[derive(Drop)]
pub struct Pool {
    bytes: Vec<u8>,
}

impl Pool {
    /// The bytes that these random numbers have.
    pub fn new(alloc: Global, random: &mut Random) -> Result<Pool, AllocError> {
        let mut bytes = Vec::with_capacity(alloc, POOL_SIZE)?;
        for _ in 0..POOL_SIZE / 8 {
            bytes.extend_from_slice(random.number().to_le_bytes().as_slice())?;
        }
        Ok(Pool { bytes })
    }

    /// A message of so many bytes, cut anywhere out of the pool.
    pub fn message(&self, random: &mut Random, length: usize) -> &[u8] {
        let length = length.min(self.bytes.len());
        let places = self.bytes.len().saturating_sub(length);
        let start = (random.below(places as u64) as usize).min(places);
        &self.bytes.as_slice()[start..start + length]
    }
}
