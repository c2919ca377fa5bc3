// The names of a plan file: their count, lengths and bytes, and that no name occurs twice. Document 01, "The plan file", part 4.
#![tactic(auto)]

ghost use Rattle.std.specs.Prelude.{◌≡◌, ◌+◌, ◌*◌, ◌≤◌, min};
ghost use Rattle.answers.specs.Answers.{answered};
ghost use Rattle.decode.specs.Positions.{size_of, name_start, end_at};
ghost use Rattle.names.specs.Names.{letter_at, check_letter, same_name, is_new, check_name, check_names};

use answers::{Refusal, Rule};

// Where name i begins, with its length byte; past the last name, where the names end.
pub fn start_of(s: &[u8], i: usize) -> usize
    ensures { (result ≡ name_start s.now (min i (size_of s.now))) × (result ≤ 69890) }
{
    start_at(s, i.min(decode::size_of(s)))
}

// Where the last name ends.
#[tactic(auto, unfolding(decode::specs::Positions::end_at))]
pub fn end_at(s: &[u8]) -> usize
    ensures { result ≡ end_at s.now }
{
    start_at(s, decode::size_of(s))
}

// The names' count, and then each name.
#[tactic(auto, unfolding(crate::specs::Names::check_names, answers::specs::Answers::first))]
pub fn check_names(s: &[u8]) -> Result<(), Refusal>
    ensures { answered result ≡ check_names s.now }
{
    let k = decode::names_at(s);
    let size = decode::size_of(s);
    fields::is_there(s, k, 1)?;
    answers::tested(usize::from(fields::byte_at(s, k)) == size, Rule::Count, k)?;
    answers::each(size, |i| check_name(s, i))
}

#[tactic(auto, unfolding(crate::specs::Names::check_name, crate::specs::Names::is_length, crate::specs::Names::check_letter, answers::specs::Answers::first))]
fn check_name(s: &[u8], i: usize) -> Result<(), Refusal>
    requires { i ≤ 255 }
    ensures { answered result ≡ check_name s.now i }
{
    let k = start_at(s, i);
    fields::is_there(s, k, 1)?;
    let length = fields::byte_at(s, k);
    answers::tested((1..=32).contains(&length), Rule::Name, k)?;
    answers::each(length.into(), |j| check_letter(s, k + 1 + j))?;
    answers::tested(is_new(s, i), Rule::NewName, k)
}

#[tactic(auto, unfolding(crate::specs::Names::letter_at, crate::specs::Names::is_letter, answers::specs::Answers::first))]
fn check_letter(s: &[u8], at: usize) -> Result<(), Refusal>
    ensures { answered result ≡ letter_at s.now at }
{
    fields::is_there(s, at, 1)?;
    answers::tested((33..=126).contains(&fields::byte_at(s, at)), Rule::Name, at)
}

// Whether name i is none of the earlier ones.
fn is_new(s: &[u8], i: usize) -> bool
    requires { i ≤ 255 }
    ensures { result ≡ is_new s.now i }
{
    let k = start_at(s, i);
    (0..i).all(|j| !is_same(s, start_at(s, j), k))
}

// Whether the names whose length bytes stand at a and at b are the same: byte by byte and not as slices, since bytes past the end count as 0 here.
fn is_same(s: &[u8], a: usize, b: usize) -> bool
    requires { (a ≤ 100000) × (b ≤ 100000) }
    ensures { result ≡ same_name s.now a b }
{
    let n = usize::from(fields::byte_at(s, a)) + 1;
    (0..n).all(|j| fields::byte_at(s, a + j) == fields::byte_at(s, b + j))
}

// Where name i begins, for any i that a count's byte can hold. A `for`, since the sum of a fold would have no bound.
#[tactic(auto, unfolding(decode::specs::Positions::name_start))]
fn start_at(s: &[u8], i: usize) -> usize
    requires { i ≤ 255 }
    ensures { (result ≡ name_start s.now i) × (result ≤ 4610 + 256 * i) }
{
    let mut k = decode::names_at(s) + 1;
    for _ in 0..i {
        k += 1 + usize::from(fields::byte_at(s, k));
    }
    k
}
