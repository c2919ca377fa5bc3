// The greatest common divisor of two numbers, by Euclid's steps.
#![tactic(auto)]

ghost use Rattle.divisors.specs.Common.{Common};

// Where one of the two is 0 it is the other. A `while`, since it counts nothing: it ends when the rest is 0.
#[tactic(auto, using(crate::proofs::Euclid::kept_start, crate::proofs::Euclid::kept_step, crate::proofs::Euclid::common_kept))]
pub fn common(a: u32, b: u32) -> u32
    ensures { Common a b result }
{
    let (mut x, mut y) = (a, b);
    while y != 0 {
        (x, y) = (y, x % y);
    }
    x
}
