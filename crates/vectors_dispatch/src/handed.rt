// What a refusal hands out: the results of Rattle's calls leave it out, and document 01 names it.
ghost use Rattle.std.specs.Prelude.{◌≡◌};
ghost use Rattle.reader.specs.Read.{read_plan};
ghost use Rattle.dispatch.specs.Run.{standing, fresh_end, step_end};

use dispatch::{Refusal, State};
use plans::Plan;

// The plan value that a read hands out: zeros where the bytes are refused.
pub fn plan_of(s: &[u8]) -> Plan
    ensures { result ≡ (read_plan s.now).plan }
{
    match reader::read(s) {
        Ok(plan) => plan,
        Err(_) => plans::zero_plan(),
    }
}

// The state that a fresh start hands out: zeros where it is refused.
pub fn state_of(started: Result<State, Refusal>) -> State
    ensures { standing result ≡ (fresh_end started).state }
{
    started.unwrap_or(ZERO_STATE)
}

const ZERO_STATE: State = State {
    clock: 0,
    left: [0; 64],
};

// The answers that a step hands out, whatever its state: eight of 255 where it is refused.
pub fn grants_of(stepped: Result<[u8; 8], Refusal>) -> [u8; 8]
    ensures { (state : State) → result ≡ (step_end stepped state).grants }
{
    stepped.unwrap_or([255; 8])
}
