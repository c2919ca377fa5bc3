// The decision on pairs of types: document 01, "Types and what they mean". One type may stand in for another exactly when every allocation that
// honours the first honours the second. A pair that holds is decided with no loop over starts; only a failing pair looks for its first window.
// What the answers say is in specs/Verdict.antt and specs/Decision.antt, and what that means in specs/Promises.antt.
#![tactic(auto)]

ghost use Rattle.std.specs.Prelude.{◌≡◌, Err, length};
ghost use Rattle.answers.specs.Answers.{at};
ghost use Rattle.types.specs.Verdict.{said, refused, judged};
ghost use Rattle.types.specs.Decision.{said_of, decided, out_after};

mod pair;
mod window;

use meaning::{Kind, SlotType};
use pair::Pair;
use window::Window;

// Whether a giver stands in for a wanted type, with the least number of ones that a wanted window can have.
#[derive(Clone, Copy, Debug, PartialEq, Eq)]
pub enum Verdict {
    Holds(u16),
    Short(u16),
}

// What is refused: a giver or a wanted type that is not well formed.
#[derive(Clone, Copy, Debug, PartialEq, Eq)]
pub enum Refusal {
    Giver,
    Wanted,
}

impl Refusal {
    // The number of the documents, and the place: 0 for the giver, 1 for the wanted type.
    pub fn number_and_place(self) -> (u8, u8)
        ensures { said (Err self) ≡ refused result.0 (at result.1) }
    {
        match self {
            Refusal::Giver => (4, 0),
            Refusal::Wanted => (4, 1),
        }
    }
}

// The verdict with the first window that falls short: its start, its ones, and the length of the stretch that was written. A refusal is one of the answers,
// with its number and place, since document 01 shapes it so ("The decision is one of three things").
#[derive(Clone, Copy, Debug, PartialEq, Eq)]
pub enum Decision {
    Holds(u16),
    Fails { start: u32, ones: u16, length: u32 },
    Refused { number: u8, place: Option<u8> },
}

// Whether `giver`, as `gives`, stands in for `wanted`, as `wants`.
pub fn judge(
    gives: Kind,
    giver: SlotType,
    wants: Kind,
    wanted: SlotType,
) -> Result<Verdict, Refusal>
    ensures { said result ≡ judged gives giver wants wanted }
{
    Pair::new(gives, giver, wants, wanted).map(Pair::verdict)
}

// The same, and where it fails the allocation of the first window that falls short, as bytes 0 and 1 in `out`.
#[tactic(auto, unfolding(crate::specs::Decision::decided, crate::specs::Decision::out_after))]
pub fn decide(
    gives: Kind,
    giver: SlotType,
    wants: Kind,
    wanted: SlotType,
    out: &mut [u8],
) -> Decision
    ensures answer { said_of result ≡ decided gives giver wants wanted (length out.old) }
    ensures buffer { out.new ≡ out_after gives giver wants wanted out.old }
{
    match Pair::new(gives, giver, wants, wanted) {
        Err(refusal) => {
            let (number, place) = refusal.number_and_place();
            Decision::Refused {
                number,
                place: Some(place),
            }
        }
        Ok(pair) => match pair.verdict() {
            Verdict::Holds(least) => Decision::Holds(least),
            Verdict::Short(_) => {
                let start = pair.first_short();
                Window { pair, start }.show(out)
            }
        },
    }
}
