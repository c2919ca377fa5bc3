// A plan value as 533 numbers and a state as 65, as include/mettulos.h says: taken from a slice of numbers, and laid down in one. A slice may hold
// anything: numbers that are no plan value's give one of zeros, those that are no state's give none, and what has no place is not laid down.
// specs/Numbers.antt says how each value lies.
#![tactic(auto)]

ghost use Rattle.std.specs.Prelude.{◌≡◌, leb};
ghost use Rattle.dispatch.specs.Run.{standing};
ghost use Rattle.numbers.specs.Numbers.{plan_of_numbers, plan_laid, given, where_fit, state_given, state_laid};

mod laying;
mod values;

use dispatch::State;
use plans::Plan;

// The plan value that numbers say.
#[tactic(auto, using(crate::proofs::Fields::fit_some, crate::proofs::Fields::fit_none), unfolding(crate::specs::Numbers::plan_of_numbers))]
pub fn plan_of(xs: &[u32]) -> Plan
    ensures { result ≡ plan_of_numbers xs.now }
{
    values::plan_in(xs).unwrap_or_else(plans::zero_plan)
}

// Lays a plan value down, where `out` has 533 numbers and 32 bits hold its counts. Says whether it did: by a bool, since that is what the definition
// plan_laid says, and state_laid below.
#[tactic(auto, unfolding(crate::specs::Numbers::plan_laid))]
pub fn put_plan(plan: Plan, out: &mut [u32]) -> bool
    ensures { (result, out.new) ≡ plan_laid plan out.old }
{
    let most = u32::MAX as usize;
    let fits = out.len() == 533 && plan.cores <= most && plan.size <= most;
    if fits {
        laying::lay(&plan, out);
    }
    fits
}

// The state that numbers say, where there are 65 and each count is within its field.
pub fn state_of(xs: &[u64]) -> Option<State>
    ensures { given result ≡ state_given xs.now }
{
    let [clock, counts @ ..] = xs else {
        return None;
    };
    if counts.len() != 64 {
        return None;
    }
    Some(State {
        clock: *clock,
        left: values::each_of(0, counts, count_of)?,
    })
}

// A count, which is a number of 16 bits.
fn count_of(x: u64) -> Option<u16>
    ensures { result ≡ where_fit (leb x 65535) x }
{
    u16::try_from(x).ok()
}

// Lays a state down, where `out` has 65 numbers. Says whether it did.
pub fn put_state(state: State, out: &mut [u64]) -> bool
    ensures { (result, out.new) ≡ state_laid (standing state) out.old }
{
    if out.len() != 65 {
        return false;
    }
    out[0] = state.clock;
    for (i, &count) in state.left.iter().enumerate() {
        out[1 + i] = u64::from(count);
    }
    true
}
