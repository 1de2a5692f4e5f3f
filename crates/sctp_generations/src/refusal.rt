// Why DATA of a generation refuses a piece.
ghost use Rattle.std.specs.Prelude.{◌≡◌, IfOk};
ghost use Rattle.sctp_receive_queues.specs.Reassembly.{empty_reassembly, refusal};
ghost use Rattle.sctp_generations.specs.Refusals.{first_refusal, held_of};

use sctp_receive_queues::ReassemblyQueue;
use sctp_wire_types::{ChunkPayloadData, Error};
use std::alloc::{AllocError, Global};
use std::collections::VecDeque;

// The first refusal where these pieces are pushed one after another into an empty queue.
pub(crate) fn first_refusal(
    alloc: Global,
    pieces: &mut VecDeque<ChunkPayloadData>,
    limit: u32,
) -> Result<Option<Error>, AllocError>
    ensures { IfOk result (λ refusal. refusal ≡ first_refusal empty_reassembly pieces.old.items limit) }
{
    let mut queue = ReassemblyQueue::new(alloc);
    while let Some(piece) = pieces.pop_front() {
        if let Some(error) = push(&mut queue, piece, limit)? {
            return Ok(Some(error));
        }
    }
    Ok(None)
}

// Pushes a piece; gives why it is refused.
fn push(
    queue: &mut ReassemblyQueue,
    piece: ChunkPayloadData,
    limit: u32,
) -> Result<Option<Error>, AllocError>
    ensures refused { IfOk result (λ refused. refused ≡ refusal queue.old piece limit) }
    ensures held { IfOk result (λ refused. queue.new ≡ held_of refused queue.old piece) }
{
    match queue.push(piece, limit) {
        Ok(_) => Ok(None),
        Err(Error::ErrNoMemory) => Err(AllocError),
        Err(error) => Ok(Some(error)),
    }
}
