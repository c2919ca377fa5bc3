// What is refused, as C is told it: a number and a place in one, or 0 where nothing is.
ghost use Rattle.std.specs.Prelude.{◌≡◌, None, Ok, Err, cond};
ghost use Rattle.ticks.specs.Times as times;
ghost use Rattle.answers.specs.Answers.{number_of, place_in};
ghost use Rattle.dispatch.specs.Run as runs;
ghost use Rattle.exports.specs.Exports.{told};

// The number of a refusal, which include/mettulos.h names, and its place where it has one.
#[derive(Clone, Copy, Debug, PartialEq, Eq)]
pub struct Refusal {
    pub number: u8,
    pub place: Option<usize>,
}

// A kind or a setting that is none.
pub const BAD_KIND: u8 = 5;

// A slot or a time beyond 2^40.
pub const BEYOND: Refusal = Refusal {
    number: 15,
    place: None,
};

// A plan value, a state or a tick that no call takes.
pub const UNFIT: Refusal = Refusal {
    number: 16,
    place: None,
};

// Buffer lengths that do not fit.
pub const MISFIT: Refusal = Refusal {
    number: 17,
    place: None,
};

// The number in the low half, the place in the high half: the most that the half holds where there is none.
#[tactic(auto, unfolding(crate::specs::Exports::refusal))]
pub fn told(answer: Result<(), Refusal>) -> u64
    ensures { result ≡ told answer }
{
    match answer {
        Ok(()) => 0,
        Err(refusal) => {
            let place = refusal.place.unwrap_or(usize::MAX).min(0xffff_ffff);
            refusal.number as u64 + 0x1_0000_0000 * place as u64
        }
    }
}

// Whether buffers have the lengths that they are to have.
pub fn lengths(fit: bool) -> Result<(), Refusal>
    ensures { result ≡ cond fit (Ok tt) (Err MISFIT) }
{
    if fit { Ok(()) } else { Err(MISFIT) }
}

impl From<ticks::Refusal> for Refusal {
    ghost from_gives = { λ r e. (times.said (Err r) ≡ times.refused e.number) × (e.place ≡ None) };

    fn from(refusal: ticks::Refusal) -> Refusal {
        Refusal {
            number: refusal.number(),
            place: None,
        }
    }
}

impl From<answers::Refusal> for Refusal {
    ghost from_gives = { λ r e. e ≡ record { number = number_of r; place = place_in r } };

    fn from(refusal: answers::Refusal) -> Refusal {
        Refusal {
            number: refusal.number(),
            place: refusal.place(),
        }
    }
}

impl From<dispatch::Refusal> for Refusal {
    ghost from_gives = { λ r e. e ≡ record { number = runs.number r; place = None } };

    fn from(refusal: dispatch::Refusal) -> Refusal {
        match refusal {
            dispatch::Refusal::Beyond => BEYOND,
            dispatch::Refusal::Unfit => UNFIT,
            dispatch::Refusal::Misfit => MISFIT,
        }
    }
}
