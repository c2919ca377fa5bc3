// Runs and steps one after the other, each with a setting of its own.
ghost use Rattle.std.specs.Prelude.{◌<◌, ◌≤◌};

use crate::edits::Case;
use crate::inputs::Inputs;
use crate::show::{Answers, Outcome, Standing};
use crate::{handed, show};
use dispatch::Setting;
use std::io;

// A call for each stretch of slots that have one setting, each from the state that the one before left and into the room behind its answers.
pub fn mixed(rt: &impl Print, mut case: Case, inputs: &Inputs, out: &mut [u8]) -> io::Result<()> {
    let n = inputs.supplies.len().min(inputs.declines.len());
    let cores = case.plan.cores.min(8);
    for at in 0..n {
        if !begins(inputs.settings, at) {
            continue;
        }
        let end = stretch_end(inputs.settings, at, n);
        let stretch = Stretch {
            setting: inputs.setting_of(at),
            supplies: &inputs.supplies[at..end],
            declines: &inputs.declines[at..end],
        };
        let from = out.len().min(at * cores);
        stretch.give(rt, &mut case, &mut out[from..])?;
    }
    let standing = Standing(case.state, case.plan.size);
    let answers = Answers(out, case.plan.cores);
    print!(rt; "{standing}, room{answers}")
}

// Whether a stretch begins with the slot at `at`: the one before it has another setting.
fn begins(settings: &[u8], at: usize) -> bool {
    at == 0 || settings.get(at) != settings.get(at - 1)
}

// Where the stretch ends that the slot at `at` is in, among n slots.
fn stretch_end(settings: &[u8], at: usize, n: usize) -> usize
    requires { at < n }
    ensures later { at < result }
    ensures inside { result ≤ n }
{
    (at + 1..n).find(|i| begins(settings, *i)).unwrap_or(n)
}

// Slots that have one setting.
#[derive(Drop)]
struct Stretch<'a> {
    setting: Setting,
    supplies: &'a [u8],
    declines: &'a [u64],
}

impl Stretch<'_> {
    // A step for a single slot, otherwise a run: it prints the call and its outcome.
    fn give(&self, rt: &impl Print, case: &mut Case, out: &mut [u8]) -> io::Result<()> {
        let setting = show::name_of(self.setting);
        if let ([supplied], [declines]) = (self.supplies, self.declines) {
            let stepped = dispatch::step(
                self.setting,
                case.plan,
                &mut case.state,
                *supplied,
                *declines,
            );
            let outcome = Outcome(stepped.err());
            let grants = handed::grants_of(stepped);
            let n = out.len().min(case.plan.cores).min(8);
            out[..n].copy_from_slice(&grants[..n]);
            print!(rt; "step {setting} {outcome}, ")
        } else {
            let ran = dispatch::run(
                self.setting,
                case.plan,
                &mut case.state,
                self.supplies,
                self.declines,
                out,
            );
            let outcome = Outcome(ran.err());
            let slots = self.supplies.len();
            print!(rt; "run {setting} {slots} {outcome}, ")
        }
    }
}
