//! The jobs that users of a driver wait for, over pairs of drivers and a network in memory that delays, loses, repeats
//! and reorders datagrams. Its words are a job, a seed below 2^32 and a count, and so on for further jobs:
//!
//!     driver_jobs bulk 1 100
//!
//! It prints for each job one digest of all that was told, read, answered and sent, in its order, and how much that
//! was. The same words give the same digest; another seed gives another input of the same kind and size. No time is
//! printed.
#![tactic(auto)]

mod bulk;
mod channels;
mod chatter;
mod digest;
mod end;
mod failure;
mod job;
mod link;
mod mobile;
mod network;
mod peers;
mod random;
mod stall;

use crate::digest::Digest;
use crate::failure::Failure;
use crate::job::{Demand, Job};
use anyhow::Result;
use std::alloc::Global;
use std::env;

fn main(rt: HostRuntime) -> Result<()> {
    let mut words = env::args(&rt)?;
    let _program = words.next();
    for _ in 0..u64::MAX {
        let Some(job) = words.next() else {
            break;
        };
        let demand = job::read_demand(job, words.next(), words.next())?;
        let digest = carry_out(rt.alloc(), &demand)?;
        print(&rt, &digest)?;
    }
    Ok(())
}

fn print(rt: &impl Print, digest: &Digest) -> Result<()> {
    let value = digest.value();
    let messages = digest.messages();
    let datagrams = digest.datagrams();
    println!(rt; "{value:016x} of {messages} messages and {datagrams} datagrams")?;
    Ok(())
}

fn carry_out(alloc: Global, demand: &Demand) -> Result<Digest, Failure> {
    let Demand { job, seed, count } = *demand;
    match job {
        Job::Bulk => bulk::run(alloc, seed, count),
        Job::Chatter => chatter::run(alloc, seed, count),
        Job::Mobile => mobile::run(alloc, seed, count),
        Job::Stall => stall::run(alloc, seed, count),
        Job::Peers => peers::run(alloc, seed, count),
        Job::Channels => channels::run(alloc, seed, count),
    }
}
