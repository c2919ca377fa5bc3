// Asks the slot times at their edges and prints one case a line: `CALL P/Q of N: ` and the number, or `refused` and its number.
// What it must print is worked out by tools/times.py from the sentences of document 01, "Slot times".
#![tactic(auto)]

use std::{fmt, io};
use ticks::{Refusal, Tick};

// 2^40, the last slot and the last time.
const LAST: u64 = 1 << 40;

fn main(rt: HostRuntime) -> io::Result<()> {
    starred(&rt)?;
    rounded_down(&rt)?;
    around_a_minute(&rt)?;
    around_the_last(&rt)?;
    fit_ticks(&rt)?;
    unfit_ticks(&rt)
}

// The two times that document 01 stars, with their neighbours.
fn starred(rt: &impl Print) -> io::Result<()> {
    let tick = Tick { p: 1000, q: 3 };
    for n in [2, 3] {
        show(rt, "start", ticks::start, tick, n)?;
    }
    for t in [999, 1000] {
        show(rt, "slot", ticks::slot, tick, t)?;
    }
    Ok(())
}

// Where slots are shorter than a microsecond, several begin in the same one.
fn rounded_down(rt: &impl Print) -> io::Result<()> {
    let third = Tick { p: 1, q: 3 };
    for n in [2, 3] {
        show(rt, "start", ticks::start, third, n)?;
    }
    for t in [0, 1] {
        show(rt, "slot", ticks::slot, third, t)?;
    }
    let two_thirds = Tick { p: 2, q: 3 };
    show(rt, "start", ticks::start, two_thirds, 2)?;
    for t in [1, 2] {
        show(rt, "slot", ticks::slot, two_thirds, t)?;
    }
    Ok(())
}

// The last start in minute 0 and the first in minute 1. With 1000/3, a length rounded to 333 would leave slot 180,000 in minute 0.
fn around_a_minute(rt: &impl Print) -> io::Result<()> {
    for (p, q, n) in [
        (1, 1, 59_999_999),
        (1, 1, 60_000_000),
        (1, 3, 179_999_999),
        (1, 3, 180_000_000),
        (1000, 3, 179_999),
        (1000, 3, 180_000),
    ] {
        show_begins(rt, Tick { p, q }, n)?;
    }
    Ok(())
}

// Answers just within 2^40 and just beyond.
fn around_the_last(rt: &impl Print) -> io::Result<()> {
    for (p, q, n) in [
        (2, 1, 549_755_813_888),
        (2, 1, 549_755_813_889),
        (1_000_000, 999_999, 1_099_510_528_265),
        (1_000_000, 999_999, 1_099_510_528_266),
    ] {
        show_begins(rt, Tick { p, q }, n)?;
    }
    for (p, q, t) in [
        (1, 2, 549_755_813_887),
        (1, 2, 549_755_813_888),
        (999_999, 1_000_000, 1_099_510_528_264),
        (999_999, 1_000_000, 1_099_510_528_265),
    ] {
        show(rt, "slot", ticks::slot, Tick { p, q }, t)?;
    }
    Ok(())
}

// The first and the last number of a tick's range, slots longer and shorter than a microsecond.
fn fit_ticks(rt: &impl Print) -> io::Result<()> {
    for (p, q) in [
        (1, 1),
        (1_000_000, 1_000_000),
        (1_000_000, 1),
        (1, 1_000_000),
        (1000, 3),
        (3, 1000),
    ] {
        for n in [0, 1, LAST, LAST + 1, u64::MAX] {
            show_all(rt, Tick { p, q }, n)?;
        }
    }
    Ok(())
}

// P or Q just out of its range, or far out. The second slot is at fault too, and 16 comes before 15.
fn unfit_ticks(rt: &impl Print) -> io::Result<()> {
    for (p, q) in [
        (0, 1),
        (1, 0),
        (0, 0),
        (1_000_001, 1),
        (1, 1_000_001),
        (u32::MAX, u32::MAX),
    ] {
        for n in [1, LAST + 1] {
            show_all(rt, Tick { p, q }, n)?;
        }
    }
    Ok(())
}

fn show_all(rt: &impl Print, tick: Tick, n: u64) -> io::Result<()> {
    show_begins(rt, tick, n)?;
    show(rt, "slot", ticks::slot, tick, n)
}

// When a slot begins: its microsecond and its minute.
fn show_begins(rt: &impl Print, tick: Tick, n: u64) -> io::Result<()> {
    show(rt, "start", ticks::start, tick, n)?;
    show(rt, "minute", ticks::minute, tick, n)
}

// What a call, which has this name, answers about n.
fn show<F: Fn(Tick, u64) -> Result<u64, Refusal> + Drop>(
    rt: &impl Print,
    name: &str,
    call: F,
    tick: Tick,
    n: u64,
) -> io::Result<()>
    requires { F.IsAlwaysCallable call }
{
    let Tick { p, q } = tick;
    let answer = Answer(call(tick, n));
    println!(rt; "{name} {p}/{q} of {n}: {answer}")
}

// What a call answers, in document 01's numbers.
#[derive(Drop)]
struct Answer(Result<u64, Refusal>);

impl fmt::Display for Answer {
    fn fmt<W: fmt::Write>(&self, f: &mut fmt::Formatter<W>) -> fmt::Result {
        match self.0 {
            Ok(number) => write!(f, "{number}"),
            Err(refusal) => write!(f, "refused {}", refusal.number()),
        }
    }
}
