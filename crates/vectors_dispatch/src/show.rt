// Outcomes, states and answers as they are printed.
ghost use Rattle.std.specs.Prelude.{◌≤◌};

use dispatch::{Refusal, Setting, State};
use std::fmt;

// What an answer not given is in a room.
pub const UNANSWERED: u8 = 200;

// A call was done, or document 01's number of its refusal.
#[derive(Drop)]
pub struct Outcome(pub Option<Refusal>);

impl fmt::Display for Outcome {
    fn fmt<W: fmt::Write>(&self, f: &mut fmt::Formatter<W>) -> fmt::Result {
        match self.0 {
            None => write!(f, "done"),
            Some(Refusal::Beyond) => write!(f, "refused 15"),
            Some(Refusal::Unfit) => write!(f, "refused 16"),
            Some(Refusal::Misfit) => write!(f, "refused 17"),
        }
    }
}

pub fn name_of(setting: Setting) -> &'static str {
    match setting {
        Setting::Off => "off",
        Setting::On => "on",
    }
}

// A state: the clock, the counts of so many nodes, and those after them up to the last that is not 0.
#[derive(Drop)]
pub struct Standing(pub State, pub usize);

impl fmt::Display for Standing {
    fn fmt<W: fmt::Write>(&self, f: &mut fmt::Formatter<W>) -> fmt::Result {
        let State { clock, left } = self.0;
        write!(f, "clock {clock}, left")?;
        for n in left.iter().take(end_of(&left).max(self.1)) {
            write!(f, " {n}")?;
        }
        Ok(())
    }
}

// Where the counts end that are not 0.
fn end_of(left: &[u16; 64]) -> usize
    ensures { result ≤ 64 }
{
    left.iter().rposition(|n| *n != 0).map_or(0, |i| i + 1)
}

// Answers for so many cores, each after a space or, within a slot, after a comma.
#[derive(Drop)]
pub struct Answers<'a>(pub &'a [u8], pub usize);

impl fmt::Display for Answers<'_> {
    fn fmt<W: fmt::Write>(&self, f: &mut fmt::Formatter<W>) -> fmt::Result {
        for (i, answer) in self.0.iter().enumerate() {
            let begins = self.1 == 0 || i % self.1 == 0;
            write!(f, "{}", if begins { " " } else { "," })?;
            match *answer {
                254 => write!(f, "-")?,
                255 => write!(f, "x")?,
                UNANSWERED => write!(f, ".")?,
                leaf => write!(f, "{leaf}")?,
            }
        }
        Ok(())
    }
}
