// What a check on a plan answers, and how answers join: document 01, "Refusal numbers". The first refusal counts, and what stands after it
// is not looked at.
#![tactic(auto)]

ghost use Rattle.std.specs.Prelude.{◌≡◌, ◌<◌};
ghost use Rattle.answers.specs.Answers.{answered, numbered, number_of, place_in, test, each};

// The rules of a plan that are broken at a place. `numbered` of specs/Answers.antt has the number of each in the documents.
#[derive(Clone, Copy, Debug, PartialEq, Eq)]
pub enum Rule {
    // A field's bytes are not all there.
    There,
    Count,
    Tick,
    WellFormed,
    Kind,
    Parent,
    Depth,
    // A name's length or byte is bad.
    Name,
    // A name occurs before.
    NewName,
    // Bytes are left over.
    End,
    // A node's served type does not stand in for its wanted one.
    StandsIn,
    // A child's served period is no multiple of its parent's.
    Multiple,
    // Of two children's served periods neither divides the other.
    Alike,
    // The children of a parent ask for more than it has.
    Load,
    Misses,
    // A soft leaf slides, or neither of its periods divides the other.
    Soft,
}

#[derive(Clone, Copy, Debug, PartialEq, Eq)]
pub enum Refusal {
    // A plan value breaks one of 2 to 7 or 19, whichever and wherever.
    Unfit,
    Broken { rule: Rule, place: usize },
}

impl Rule {
    // The number of the documents.
    pub fn number(self) -> u8
        ensures { result ≡ numbered self }
    {
        match self {
            Rule::There => 1,
            Rule::Count => 2,
            Rule::Tick => 3,
            Rule::WellFormed => 4,
            Rule::Kind => 5,
            Rule::Parent => 6,
            Rule::Depth => 7,
            Rule::Name => 8,
            Rule::NewName => 9,
            Rule::End => 10,
            Rule::StandsIn => 11,
            Rule::Multiple => 12,
            Rule::Alike => 13,
            Rule::Load => 14,
            Rule::Misses => 19,
            Rule::Soft => 20,
        }
    }
}

impl Refusal {
    pub fn number(self) -> u8
        ensures { result ≡ number_of self }
    {
        match self {
            Refusal::Unfit => 16,
            Refusal::Broken { rule, .. } => rule.number(),
        }
    }

    pub fn place(self) -> Option<usize>
        ensures { result ≡ place_in self }
    {
        match self {
            Refusal::Unfit => None,
            Refusal::Broken { place, .. } => Some(place),
        }
    }
}

// Whether the rule is kept at this place.
#[tactic(auto, using(crate::proofs::Laws::test_true, crate::proofs::Laws::test_false))]
pub fn tested(ok: bool, rule: Rule, place: usize) -> Result<(), Refusal>
    ensures { answered result ≡ test ok (numbered rule) place }
{
    if ok {
        Ok(())
    } else {
        Err(Refusal::Broken { rule, place })
    }
}

// The first refusal among check(0), check(1), .., check(n − 1).
pub fn each<F: Fn(usize) -> Result<(), Refusal>>(n: usize, check: F) -> Result<(), Refusal>
    requires { (i : _) → i < n → F.pre check i }
    ensures { (f : _) → ((i r : _) → i < n → F.post check i r → answered r ≡ f i) → answered result ≡ each f n }
{
    for i in 0..n {
        check(i)?;
    }
    Ok(())
}
