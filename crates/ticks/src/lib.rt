// Slot times, from the exact fraction: document 01, "Slot times". A slot lasts P/Q microseconds, and no length is ever rounded
// before it is multiplied. Each call takes the tick by value and any number, and answers the number asked for or a refusal.
// The definitions that the contracts cite are in specs/Times.antt, and what follows from them is promised in specs/Promises.antt.
#![tactic(auto, using(crate::proofs::Arithmetic::product_small), unfolding(crate::specs::Times::timed, crate::specs::Times::limited, crate::specs::Times::begins, crate::specs::Times::is_fit, crate::specs::Times::in_range))]

ghost use Rattle.std.specs.Prelude.{◌≡◌, ◌*◌, ◌/◌, ◌^◌, ◌<◌};
ghost use Rattle.ticks.specs.Times.{begins, in_range, is_fit, limited, per_minute, refused, said, SlotSays, timed};

// A slot lasts p/q microseconds. The numbers may be anything that 32 bits hold.
#[derive(Clone, Copy, Debug, PartialEq, Eq)]
pub struct Tick {
    pub p: u32,
    pub q: u32,
}

// Why no number is answered: `said` of specs/Times.antt gives document 01's number for each.
#[derive(Clone, Copy, Debug, PartialEq, Eq)]
pub enum Refusal {
    // A slot, a time or an answer lies beyond 2^40.
    Beyond,
    // The tick is out of its range.
    Unfit,
}

impl Refusal {
    // Its number in document 01's table.
    pub fn number(self) -> u8
        ensures { refused result ≡ said (Err self) }
    {
        match self {
            Refusal::Beyond => 15,
            Refusal::Unfit => 16,
        }
    }
}

// 2^40, the last slot, the last time and the largest answer.
const LIMIT: u64 = 1 << 40;

// The start of slot n, in microseconds.
pub fn start(tick: Tick, n: u64) -> Result<u64, Refusal>
    ensures { said result ≡ timed tick n (begins tick n) }
{
    let n = asked(tick, n)?;
    within(floor(n, tick.p as u64, tick.q as u64))
}

// The minute in which slot n begins.
pub fn minute(tick: Tick, n: u64) -> Result<u64, Refusal>
    ensures { said result ≡ per_minute (timed tick n (begins tick n)) }
{
    let v = start(tick, n)?;
    Ok(v / 60_000_000)
}

// The slot of a time t, in microseconds.
pub fn slot(tick: Tick, t: u64) -> Result<u64, Refusal>
    ensures { SlotSays tick t (said result) }
{
    let t = asked(tick, t)?;
    within(((t + 1) * tick.q as u64 - 1) / tick.p as u64)
}

// What may be asked about, itself, or its refusal: 16 comes before 15.
fn asked(tick: Tick, x: u64) -> Result<u64, Refusal>
    ensures { said result ≡ timed tick x x }
{
    if !is_fit(tick) {
        return Err(Refusal::Unfit);
    }
    within(x)
}

// The exact fraction n·p/q, rounded down once.
fn floor(n: u64, p: u64, q: u64) -> u64
    requires { (n * p < 2 ^ 64) × (0 < q) }
    ensures { result ≡ n * p / q }
{
    n * p / q
}

// A number that may be asked about or answered, or the refusal of one that lies beyond.
fn within(v: u64) -> Result<u64, Refusal>
    ensures { said result ≡ limited v }
{
    if v <= LIMIT {
        Ok(v)
    } else {
        Err(Refusal::Beyond)
    }
}

// Whether both numbers of a tick are in their range.
pub fn is_fit(tick: Tick) -> bool
    ensures { result ≡ is_fit tick }
{
    in_range(tick.p) && in_range(tick.q)
}

// Whether P or Q is in its range.
pub fn in_range(x: u32) -> bool
    ensures { result ≡ in_range x }
{
    (1..=1_000_000).contains(&x)
}
