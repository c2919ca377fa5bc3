// The decision on a pair of types, laid down in four numbers.
ghost use Rattle.std.specs.Prelude.{◌≡◌, Ok, Err, Some, cond, leb, length};
ghost use Rattle.types.specs.Decision as pairs;
ghost use Rattle.exports.specs.Exports.{told, kind_numbered, deciding_by, deciding};

use crate::refusals::{BAD_KIND, Refusal, lengths};
use meaning::{Kind, SlotType};
use types::Decision;

// The kinds are tested before the types.
#[tactic(auto, unfolding(crate::specs::Exports::deciding))]
pub fn decide(
    gives: u8,
    giver: SlotType,
    wants: u8,
    wanted: SlotType,
    out: &mut [u8],
    answer: &mut [u32],
) -> Result<(), Refusal>
    ensures { (told result, out.new, answer.new) ≡
        deciding gives giver wants wanted out.old answer.old }
{
    lengths(answer.len() == 4)?;
    let gives = kind_of(gives, 0)?;
    let wants = kind_of(wants, 1)?;
    lay(types::decide(gives, giver, wants, wanted, out), answer)
}

// 1, the least ones, 0, 0 of a pair that holds; 0, the window's start, the ones there, the stretch's length of one that fails. Each case stores its own four:
// one store for both would be made of parts of them, and whoever reads the numbers next would wait.
fn lay(decision: Decision, answer: &mut [u32]) -> Result<(), Refusal>
    requires { length answer.old ≡ 4 }
    ensures { (told result, answer.new) ≡ deciding_by (pairs.said_of decision) answer.old }
{
    match decision {
        Decision::Holds(least) => answer.copy_from_slice(&[1, u32::from(least), 0, 0]),
        Decision::Fails {
            start,
            ones,
            length,
        } => answer.copy_from_slice(&[0, start, u32::from(ones), length]),
        Decision::Refused { number, place } => {
            return Err(Refusal {
                number,
                place: place.map(usize::from),
            });
        }
    }
    Ok(())
}

// Kind 0 or 1, of the giver at place 0 or of the wanted type at place 1.
#[tactic(auto, unfolding(crate::specs::Exports::kind_numbered))]
fn kind_of(b: u8, place: usize) -> Result<Kind, Refusal>
    ensures { result ≡
        cond (leb b 1) (Ok (kind_numbered b)) (Err (record { number = BAD_KIND; place = Some place })) }
{
    match b {
        0 => Ok(Kind::Aligned),
        1 => Ok(Kind::Sliding),
        _ => Err(Refusal {
            number: BAD_KIND,
            place: Some(place),
        }),
    }
}
