// "The search for faults": the setup in block 0, the number of records of the other blocks, and the bytes that must
// be zero.
// A block is lent as the slice of the log that it is, and its length asked: as an array it would be converted each time.
ghost use Rattle.std.specs.Prelude.{◌≡◌, cond, ◌||◌, ◌*◌, ◌-◌, ◌≤◌, ◌<◌, length, eqb};
ghost use Rattle.std.proofs.Math.Seq.{slice};
ghost use Rattle.lists.specs.Lists.{zeros};
ghost use Rattle.rule.specs.Setups.{setup_refusal_lem};
ghost use Rattle.setups.specs.Judging.{asked_by};
ghost use Rattle.judging.specs.Blocks.{setup_in_lem, count, count_fits, first_unused_lem};
ghost use Rattle.judging.specs.Log.{told, at_block, head_refusal, judged_from};

use super::LogRefusal;
use setups::{Asked, setup_refusal};
use words::{block_sum, word_at};

// Whether a block can have the number of records that it says. The record blocks before it have 41 each.
#[tactic(auto, unfolding(crate::specs::Blocks::count_fits))]
fn count_right(part: &[u8], blocks: usize, block: usize) -> bool
    requires { (block < blocks) × (blocks ≤ 26) }
    ensures { result ≡ (eqb block 0 || count_fits blocks block (41 * (block - 1)) (count part.now)) }
{
    let count = word_at(part, 4) as usize;
    match block {
        0 => true,
        _ if block + 1 < blocks => count == 41,
        _ => (1..=41).contains(&count) && 41 * (block - 1) + count <= 1024,
    }
}

// Judges a block's check, its place and its number of records: the first of 31, 32 and 33.
#[tactic(auto, unfolding(crate::specs::Blocks::check_fits, crate::specs::Blocks::place_fits))]
fn judge_head(part: &[u8], blocks: usize, block: usize) -> Result<(), LogRefusal>
    requires { (length part.now ≡ 512) × (block < blocks) × (blocks ≤ 26) }
    ensures { told result ≡ at_block block (head_refusal blocks block part.now) }
{
    if word_at(part, 508) != block_sum(part) {
        return Err(LogRefusal::WrongCheck { block });
    }
    if word_at(part, 0) as usize != block {
        return Err(LogRefusal::WrongPlace { block });
    }
    if !count_right(part, blocks, block) {
        return Err(LogRefusal::WrongLayout { block });
    }
    Ok(()) // the bytes and the setup come after
}

// The first byte of a block that must be zero.
fn first_unused(part: &[u8], block: usize) -> usize
    ensures { result ≡ first_unused_lem block part.now }
{
    match block {
        0 => 48,
        _ => 8 + 12 * word_at(part, 4) as usize,
    }
}

// The bytes of a block that must be zero.
fn unused(part: &[u8], block: usize) -> &[u8]
    requires { (length part.now ≡ 512) × (first_unused_lem block part.now ≤ 508) }
    ensures { result.now ≡ slice (first_unused_lem block part.now) 508 part.now }
{
    &part[first_unused(part, block)..508]
}

// The rest of the bytes, past zeros at their start: they are passed eight at a time.
fn past_zeros(bytes: &[u8]) -> &[u8]
    ensures { zeros result.now ≡ zeros bytes.now }
{
    let mut rest = bytes;
    while let Some((eight, after)) = rest.split_first_chunk::<8>() {
        if *eight != [0; 8] {
            break;
        }
        rest = after;
    }
    rest
}

// The setup that block 0 asks for.
#[tactic(auto, unfolding(crate::specs::Blocks::setup_in_lem))]
pub fn asked_in(first: &[u8]) -> Asked<'_>
    requires { length first.now ≡ 512 }
    ensures { asked_by result ≡ setup_in_lem first.now }
{
    Asked {
        policy: word_at(first, 4),
        count: word_at(first, 8),
        slice: word_at(first, 12),
        priorities: &first[16..48],
    }
}

// Judges the setup in block 0; the other blocks have none.
fn judge_setup(part: &[u8], block: usize) -> Result<(), LogRefusal>
    requires { length part.now ≡ 512 }
    ensures { told result ≡ at_block block (cond (eqb block 0) (setup_refusal_lem (setup_in_lem part.now)) 0) }
{
    if block != 0 {
        return Ok(());
    }
    setup_refusal(asked_in(part))?;
    Ok(())
}

// Blocks outside, bytes inside: the first wrong byte in the first wrong block leaves both loops, with the block's
// place.
pub fn judge_blocks(log: &[u8], blocks: usize) -> Result<(), LogRefusal>
    requires { (512 * blocks ≡ length log.now) × (0 < blocks) × (blocks ≤ 26) }
    ensures { told result ≡ judged_from log.now 0 blocks }
{
    'search: {
        for block in 0..blocks {
            let part = &log[512 * block..512 * block + 512];
            judge_head(part, blocks, block)?;
            for byte in past_zeros(unused(part, block)) {
                if *byte != 0 {
                    break 'search Err(LogRefusal::WrongLayout { block });
                }
            }
            judge_setup(part, block)?;
        }
        Ok(()) // no block is wrong
    }
}
