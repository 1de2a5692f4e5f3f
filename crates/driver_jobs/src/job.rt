// What the words of a call ask for.
use anyhow::{Result, bail};

/// What is done.
#[derive(Clone, Copy, Debug, PartialEq, Eq)]
pub enum Job {
    /// A file goes over three channels, in messages of 16, 64 and 256 KiB.
    Bulk,
    /// Both sides write many short messages, over channels of all kinds.
    Chatter,
    /// Messages both ways over a path of a mobile phone, which loses and reorders.
    Mobile,
    /// The path stands still again and again, while messages with lifetimes and retry limits are written.
    Stall,
    /// A server's associations: handshake, some channels, shutdown.
    Peers,
    /// Channels of one association that are opened, used and closed.
    Channels,
}

/// A job, the seed of its random numbers, and how much of it is done; each job says what it counts.
#[derive(Clone, Copy, Debug, PartialEq, Eq)]
pub struct Demand {
    pub job: Job,
    pub seed: u64,
    pub count: u32,
}

/// Reads three words, of which the last two may be missing.
pub fn read_demand(job: String, seed: Option<String>, count: Option<String>) -> Result<Demand> {
    let (Some(seed), Some(count)) = (seed, count) else {
        bail!("not a job, a seed and a count");
    };
    let seed = u64::from(seed.parse::<u32>()?);
    let count = count.parse::<u32>()?;
    Ok(Demand {
        job: job_named(job.as_str())?,
        seed,
        count,
    })
}

fn job_named(name: &str) -> Result<Job> {
    match name {
        "bulk" => Ok(Job::Bulk),
        "chatter" => Ok(Job::Chatter),
        "mobile" => Ok(Job::Mobile),
        "stall" => Ok(Job::Stall),
        "peers" => Ok(Job::Peers),
        "channels" => Ok(Job::Channels),
        _ => bail!("no job: {name}"),
    }
}
