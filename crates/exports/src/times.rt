// Slot times.
ghost use Rattle.std.specs.Prelude.{◌≡◌};
ghost use Rattle.ticks.specs.Times as times;
ghost use Rattle.exports.specs.Exports.{told, telling};

use crate::refusals::{Refusal, lengths};

// What is asked about a time, laid down in a slice of one number.
#[tactic(auto, using(crate::proofs::Told::one_stored), unfolding(crate::specs::Exports::telling))]
pub fn lay(asked: Result<u64, ticks::Refusal>, answer: &mut [u64]) -> Result<(), Refusal>
    ensures { (told result, answer.new) ≡ telling (times.said asked) answer.old }
{
    lengths(answer.len() == 1)?;
    answer[0] = asked?;
    Ok(())
}
