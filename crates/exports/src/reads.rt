// Plans and names read from bytes.
ghost use Rattle.std.specs.Prelude.{◌≡◌};
ghost use Rattle.exports.specs.Exports.{told, reading, naming};

use crate::refusals::{Refusal, lengths};

// A plan's numbers, and zeros where the bytes are refused.
#[tactic(auto, unfolding(crate::specs::Exports::reading))]
pub fn read(bytes: &[u8], plan: &mut [u32]) -> Result<(), Refusal>
    ensures { (told result, plan.new) ≡ reading bytes.now plan.old }
{
    lengths(plan.len() == 533)?;
    plan.fill(0);
    // it always does: the length is right, and a value that is read has few supplies and nodes
    numbers::put_plan(reader::read(bytes)?, plan);
    Ok(())
}

// The first byte and the length of a node's name, and 0 and 0 where there is none.
#[tactic(auto, unfolding(crate::specs::Exports::naming, crate::specs::Exports::span))]
pub fn name(bytes: &[u8], i: usize, answer: &mut [u64]) -> Result<(), Refusal>
    ensures { (told result, answer.new) ≡ naming bytes.now i answer.old }
{
    lengths(answer.len() == 2)?;
    let name = reader::name(bytes, i);
    let first = if name.is_empty() {
        0
    } else {
        names::start_of(bytes, i) as u64 + 1
    };
    answer.copy_from_slice(&[first, name.len() as u64]);
    Ok(())
}
