// Gives out slots by `dispatch` as standard input asks, and prints what comes of it, a line a case: a label, a plan in hex, any number of edits
// `with left 1 2`, and what is done, as `run on ff01 0,4 2`: setting, supply bytes, decline words and room. tools/slots.py says it in full.
// What it must print is worked out from documents 01 and 02, by `python3 tools/slots.py expect`; `python3 tools/slots.py cases` makes its input.
#![tactic(auto)]

mod calls;
mod edits;
mod handed;
mod inputs;
mod leaves;
mod mixed;
mod show;

use edits::Case;
use inputs::{Inputs, MOST};
use lines::Lines;
use plans::Plan;
use std::io;

// So many bytes of the input are looked at.
const LOOKED_AT: usize = 524_288;

fn main(rt: HostRuntime) -> io::Result<()> {
    let mut input = room();
    let n = lines::read_full(&mut rt.reader(), &mut input)?;
    for line in Lines(&input[..n]) {
        one_case(&rt, line)?;
    }
    Ok(())
}

// A function of its own, since an array of this length is more than a proof of `main` bears.
fn room() -> [u8; LOOKED_AT] {
    [0; LOOKED_AT]
}

// The case of a line.
fn one_case(rt: &impl Print, line: &[u8]) -> io::Result<()> {
    let (label, rest) = lines::cut(line, b' ');
    let (digits, rest) = lines::cut(rest, b' ');
    let plan = plan_of(digits);
    let state = handed::state_of(dispatch::fresh(plan));
    let (case, words) = edits::edited(Case { plan, state }, rest);
    rt.write_all(label)?;
    print!(rt; ": ")?;
    call(rt, case, words)?;
    println!(rt; "")
}

// The plan value of a word of hex digits, zeros where it is refused.
fn plan_of(digits: &[u8]) -> Plan {
    let mut room = [0; 3072];
    let n = lines::bytes(digits, &mut room);
    handed::plan_of(&room[..n])
}

// Makes the call that the words ask for. For `mixed` and `demand`, the windows of each leaf are printed too.
fn call(rt: &impl Print, case: Case, words: &[u8]) -> io::Result<()> {
    let task = words.first();
    if let Some(b'f') = task {
        return calls::fresh(rt, case);
    }
    let mut supplies = [0; MOST];
    let mut declines = [0; MOST];
    let inputs = Inputs::parse(words, &mut supplies, &mut declines);
    let mut room = [show::UNANSWERED; 512];
    match task {
        Some(b's') => calls::steps(rt, case, &inputs),
        _ => {
            let Some(out) = room.get_mut(..inputs.room) else {
                return Ok(());
            };
            if let Some(b'm') = task {
                mixed::mixed(rt, case, &inputs, out)?;
            } else {
                calls::run(rt, case, &inputs, out)?;
            }
            if let Some(b'm' | b'd') = task {
                leaves::all(rt, case.plan, out)?;
            }
            Ok(())
        }
    }
}
