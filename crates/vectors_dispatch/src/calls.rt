// Makes the calls of `dispatch` and prints their results.
use crate::edits::Case;
use crate::handed;
use crate::inputs::Inputs;
use crate::show::{Answers, Outcome, Standing};
use std::io;

pub fn fresh(rt: &impl Print, case: Case) -> io::Result<()> {
    let started = dispatch::fresh(case.plan);
    let outcome = Outcome(started.err());
    let standing = Standing(handed::state_of(started), case.plan.size);
    print!(rt; "{outcome}, {standing}")
}

// A run, and its room afterwards.
pub fn run(rt: &impl Print, mut case: Case, inputs: &Inputs, out: &mut [u8]) -> io::Result<()> {
    let ran = dispatch::run(
        inputs.setting(),
        case.plan,
        &mut case.state,
        inputs.supplies,
        inputs.declines,
        out,
    );
    let outcome = Outcome(ran.err());
    let standing = Standing(case.state, case.plan.size);
    let answers = Answers(out, case.plan.cores);
    print!(rt; "{outcome}, {standing}, room{answers}")
}

// A step for each slot, each with a setting of its own and from the state that the one before left.
pub fn steps(rt: &impl Print, mut case: Case, inputs: &Inputs) -> io::Result<()> {
    for (i, (supplied, declines)) in inputs.supplies.iter().zip(inputs.declines).enumerate() {
        let stepped = dispatch::step(
            inputs.setting_of(i),
            case.plan,
            &mut case.state,
            *supplied,
            *declines,
        );
        let outcome = Outcome(stepped.err());
        let grants = handed::grants_of(stepped);
        let answers = Answers(&grants, 8);
        print!(rt; "step {outcome}{answers}, ")?;
    }
    let standing = Standing(case.state, case.plan.size);
    print!(rt; "{standing}")
}
