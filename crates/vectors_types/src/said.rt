// What the calls of `types` say, in words.
use std::fmt;
use types::{Decision, Refusal, Verdict};

// The answer of `judge`: `holds 2`, `short 1`, `refused 4 place 0`.
#[derive(Drop)]
pub struct Judged(pub Result<Verdict, Refusal>);

impl fmt::Display for Judged {
    fn fmt<W: fmt::Write>(&self, f: &mut fmt::Formatter<W>) -> fmt::Result {
        match self.0 {
            Ok(Verdict::Holds(ones)) => write!(f, "holds {ones}"),
            Ok(Verdict::Short(ones)) => write!(f, "short {ones}"),
            Err(refusal) => {
                let (number, place) = refusal.number_and_place();
                write!(f, "refused {number} place {place}")
            }
        }
    }
}

// The answer of `decide`: `holds 2`, `fails at 5 with 0 of 8`, `refused 17`.
#[derive(Drop)]
pub struct Decided(pub Decision);

impl fmt::Display for Decided {
    fn fmt<W: fmt::Write>(&self, f: &mut fmt::Formatter<W>) -> fmt::Result {
        match self.0 {
            Decision::Holds(ones) => write!(f, "holds {ones}"),
            Decision::Fails {
                start,
                ones,
                length,
            } => write!(f, "fails at {start} with {ones} of {length}"),
            Decision::Refused {
                number,
                place: Some(place),
            } => write!(f, "refused {number} place {place}"),
            Decision::Refused {
                number,
                place: None,
            } => write!(f, "refused {number}"),
        }
    }
}
