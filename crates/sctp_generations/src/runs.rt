// The runs that go on over the unordered pieces of the streams.
ghost use Rattle.std.specs.Prelude.{◌≡◌, OnOk, IfOk, None, []};
ghost use Rattle.sctp_generations.specs.Whole.{has_run};
ghost use Rattle.sctp_generations.specs.Runs.{run_at, broken, follows, run_has_next, TakeIn, RunOver, Settles};
ghost use Rattle.sctp_generations.specs.Runs.{run_in, AreRuns, RunsGoOver};

use sctp_wire_types::{ChunkPayloadData, StreamId};
use std::alloc::{AllocError, Global};
use std::collections::{BTreeMap, BTreeSet, VecDeque};
use std::marker::Model;

/// How far the walks over the unordered messages of a stream came.
#[derive(Drop)]
pub(crate) struct StreamRuns {
    // The TSN that goes on with the run that the last piece is of, where a piece began it.
    next: Option<u32>,
    // The TSNs of this run behind the last piece that ends a message.
    undecided: Vec<u32>,
    // The TSNs of the messages that are whole.
    whole: BTreeSet<u32>,
}

impl Model for StreamRuns {
    ghost use Rattle.sctp_generations.specs.Runs.{StreamRuns as Runs};

    ghost Value = { Runs };

    ghost view = { λ r. record { next = r.next; undecided = r.undecided.items; whole = r.whole.keys } };
}

impl StreamRuns {
    fn new(alloc: Global) -> Self
        ensures { result ≡ record { next = None; undecided = []; whole = [] } }
    {
        StreamRuns {
            next: None,
            undecided: Vec::new(alloc),
            whole: BTreeSet::new(alloc),
        }
    }

    // The next piece of the stream. Each one is settled once at most, so all cost their number and its logarithm.
    fn over(&mut self, piece: &ChunkPayloadData) -> Result<(), AllocError>
        ensures { OnOk result (RunOver piece.now self.old self.new) }
    {
        if self.has_next(piece) {
            return self.take_in(piece);
        }
        self.break_off();
        if piece.beginning_fragment {
            return self.take_in(piece);
        }
        Ok(())
    }

    // Whether a piece goes on with the run.
    fn has_next(&self, piece: &ChunkPayloadData) -> bool
        ensures { result ≡ run_has_next self.now piece.now }
    {
        !piece.beginning_fragment && follows(self.next, piece.tsn)
    }

    fn break_off(&mut self)
        ensures { self.new ≡ broken self.old }
    {
        self.next = None;
        self.undecided.clear();
    }

    // A piece that begins a run, or goes on with one.
    fn take_in(&mut self, piece: &ChunkPayloadData) -> Result<(), AllocError>
        ensures { OnOk result (TakeIn piece.now self.old self.new) }
    {
        self.undecided.push(piece.tsn)?;
        if piece.ending_fragment {
            settle(&mut self.whole, self.undecided.as_slice())?;
            self.undecided.clear();
        }
        self.next = Some(piece.tsn.wrapping_add(1));
        Ok(())
    }

    // Whether the message of a TSN is whole.
    fn has_run(&self, tsn: u32) -> bool
        ensures { result ≡ has_run (run_at self.now tsn) }
    {
        self.whole.contains(&tsn)
    }
}

// Adds TSNs to a set of them.
fn settle(whole: &mut BTreeSet<u32>, undecided: &[u32]) -> Result<(), AllocError>
    ensures { OnOk result (Settles undecided.now whole.old.keys whole.new.keys) }
{
    for tsn in undecided {
        whole.insert(*tsn)?;
    }
    Ok(())
}

fn follows(next: Option<u32>, tsn: u32) -> bool
    ensures { result ≡ follows next tsn }
{
    match next {
        Some(next) => tsn == next,
        None => false,
    }
}

// How far the walks over the unordered messages of the streams come. Goes over each piece once.
pub(crate) fn runs_of(
    alloc: Global,
    chunks: &VecDeque<ChunkPayloadData>,
) -> Result<BTreeMap<StreamId, StreamRuns>, AllocError>
    ensures { IfOk result (λ runs. AreRuns chunks.now.items runs.entries) }
{
    let mut runs = BTreeMap::new(alloc);
    for chunk in chunks {
        go_over(alloc, &mut runs, chunk)?;
    }
    Ok(runs)
}

// With one more piece.
fn go_over(
    alloc: Global,
    runs: &mut BTreeMap<StreamId, StreamRuns>,
    piece: &ChunkPayloadData,
) -> Result<(), AllocError>
    ensures { OnOk result (RunsGoOver piece.now runs.old.entries runs.new.entries) }
{
    if !piece.unordered {
        return Ok(());
    }
    match runs.get_mut(&piece.stream_identifier) {
        Some(of_stream) => of_stream.over(piece),
        None => {
            let mut of_stream = StreamRuns::new(alloc);
            of_stream.over(piece)?;
            runs.insert(piece.stream_identifier, of_stream)?;
            Ok(())
        }
    }
}

// Whether all pieces of the unordered message of a piece are there.
pub(crate) fn is_whole(runs: &BTreeMap<StreamId, StreamRuns>, piece: &ChunkPayloadData) -> bool
    ensures { result ≡ has_run (run_in runs.now.entries piece.now) }
{
    match runs.get(&piece.stream_identifier) {
        Some(of_stream) => of_stream.has_run(piece.tsn),
        None => false,
    }
}
