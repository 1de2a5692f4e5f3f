// Gap ack blocks of ranges.
ghost use Rattle.std.specs.Prelude.{◌≡◌, ◌++◌, length, OnOk, IfOk};
ghost use Rattle.std.specs.Option.{option_to_list};
ghost use Rattle.sctp_looks.specs.Looks.{ticked_by};
ghost use Rattle.sctp_received.specs.Blocks.{near, wrapped, all_near, all_wrapped, with_block, with_blocks};

use sctp_looks::Looks;
use sctp_ranges::{Row, Run};
use sctp_wire_types::GapAckBlock;
use std::alloc::{AllocError, Global};

// The greatest offset of a gap ack block (RFC 4960 section 3.3.4).
const GREATEST: u64 = 65_535;

// How many TSNs there are.
const ALL: u64 = 1 << 32;

/// The blocks of all ranges, of which each is looked at once: those near a point, and then those where the numbers have
/// wrapped.
#[tactic(auto, using(crate::proofs::ToldBlocks::near_more, crate::proofs::ToldBlocks::wrapped_more))]
pub(crate) fn tell_blocks(
    alloc: Global,
    row: &Row,
    point: u32,
    looks: &mut Looks,
) -> Result<Vec<GapAckBlock>, AllocError>
    ensures blocks { IfOk result (λ blocks. blocks.items
        ≡ with_blocks (all_near point row.now.list) (all_wrapped point row.now.list)) }
    ensures looks { OnOk result (looks.new ≡ ticked_by looks.old (length row.now.list)) }
{
    let mut blocks = Vec::new(alloc);
    let mut behind = Vec::new(alloc);
    for index in 0..row.len() {
        let run = row.at(index, looks);
        push_some(&mut blocks, near(run, point))?;
        push_some(&mut behind, wrapped(run, point))?;
    }
    join(blocks, &behind)
}

// Of a range the offsets that are 1 to 65,535 past a point, counted from there.
fn near(run: Run, point: u32) -> Option<GapAckBlock>
    ensures { result ≡ near point run }
{
    let end = point as u64 + GREATEST;
    if point < run.last && run.first as u64 <= end {
        return Some(GapAckBlock {
            start: (run.first.max(point + 1) - point) as u16,
            end: ((run.last as u64).min(end) - point as u64) as u16,
        });
    }
    None
}

// Of a range the offsets that are so far past a point where the numbers have wrapped.
fn wrapped(run: Run, point: u32) -> Option<GapAckBlock>
    ensures { result ≡ wrapped point run }
{
    let point = point as u64;
    let first = run.first as u64 + ALL;
    let last = run.last as u64 + ALL;
    if first <= point + GREATEST {
        return Some(GapAckBlock {
            start: (first - point) as u16,
            end: (last - point).min(GREATEST) as u16,
        });
    }
    None
}

// Puts a block behind others, if there is one.
fn push_some(blocks: &mut Vec<GapAckBlock>, block: Option<GapAckBlock>) -> Result<(), AllocError>
    ensures { OnOk result (blocks.new.items ≡ blocks.old.items ++ option_to_list block) }
{
    if let Some(block) = block {
        blocks.push(block)?;
    }
    Ok(())
}

// Blocks and those behind them, of which the first may touch the last of the others.
fn join(blocks: Vec<GapAckBlock>, behind: &[GapAckBlock]) -> Result<Vec<GapAckBlock>, AllocError>
    ensures { IfOk result (λ all. all.items ≡ with_blocks blocks.items behind.now) }
{
    let Some((first, rest)) = behind.split_first() else {
        return Ok(blocks);
    };
    let mut all = blocks;
    push_behind(&mut all, *first)?;
    for block in rest {
        all.push(*block)?;
    }
    Ok(all)
}

// Puts a block behind others; where it touches the last of them, these are one.
#[tactic(auto, using(crate::proofs::ToldBlocks::behind_touching, crate::proofs::ToldBlocks::behind_apart))]
fn push_behind(blocks: &mut Vec<GapAckBlock>, block: GapAckBlock) -> Result<(), AllocError>
    ensures { OnOk result (blocks.new.items ≡ with_block blocks.old.items block) }
{
    let Some(last) = blocks.pop() else {
        blocks.push(block)?;
        return Ok(());
    };
    if last.end as u32 + 1 == block.start as u32 {
        blocks.push(GapAckBlock {
            start: last.start,
            end: block.end,
        })?;
        return Ok(());
    }
    blocks.push(last)?;
    blocks.push(block)?;
    Ok(())
}
