// Mettulos for C: the functions of include/mettulos.h. Each takes the numbers apart, makes one call of a proved crate, and lays the answer down in the
// slices that it was lent. What each answers and leaves in those slices is said in specs/Exports.antt; how values lie in numbers is said by crate numbers.
#![tactic(auto)]

ghost use Rattle.std.specs.Prelude.{◌≡◌};
ghost use Rattle.exports.specs.Exports.{starting, minuting, slotting, deciding, reading, naming, freshening, stepping, running};

mod decisions;
mod reads;
mod refusals;
mod slots;
mod times;

use meaning::SlotType;
use refusals::told;
use ticks::Tick;

// Whether a giving type stands in for a wanted one.
#[unsafe(no_mangle)]
pub extern "C" fn mettulos_decide(
    gives: u8,
    giver_c: u16,
    giver_t: u16,
    wants: u8,
    wanted_c: u16,
    wanted_t: u16,
    out: &mut [u8],
    answer: &mut [u32],
) -> u64
    ensures { (result, out.new, answer.new) ≡
        deciding gives (record { c = giver_c; t = giver_t }) wants (record { c = wanted_c; t = wanted_t }) out.old answer.old }
{
    let giver = SlotType {
        c: giver_c,
        t: giver_t,
    };
    let wanted = SlotType {
        c: wanted_c,
        t: wanted_t,
    };
    told(decisions::decide(gives, giver, wants, wanted, out, answer))
}

// Reads a plan of any bytes.
#[unsafe(no_mangle)]
pub extern "C" fn mettulos_read(bytes: &[u8], plan: &mut [u32]) -> u64
    ensures { (result, plan.new) ≡ reading bytes.now plan.old }
{
    told(reads::read(bytes, plan))
}

// Where the name of node i stands in the bytes of a plan.
#[unsafe(no_mangle)]
pub extern "C" fn mettulos_name(bytes: &[u8], i: usize, answer: &mut [u64]) -> u64
    ensures { (result, answer.new) ≡ naming bytes.now i answer.old }
{
    told(reads::name(bytes, i, answer))
}

// A fresh state of a plan value.
#[unsafe(no_mangle)]
pub extern "C" fn mettulos_fresh(plan: &[u32], state: &mut [u64]) -> u64
    ensures { (result, state.new) ≡ freshening plan.now state.old }
{
    told(slots::fresh(plan, state))
}

// One slot, under a setting.
#[unsafe(no_mangle)]
pub extern "C" fn mettulos_step(
    setting: u8,
    plan: &[u32],
    state: &mut [u64],
    supplied: u8,
    declines: u64,
    grants: &mut [u8],
) -> u64
    ensures { (result, state.new, grants.new) ≡
        stepping setting plan.now state.old supplied declines grants.old }
{
    told(slots::step(setting, plan, state, supplied, declines, grants))
}

// As many slots as there are supply bytes, all under one setting.
#[unsafe(no_mangle)]
pub extern "C" fn mettulos_run(
    setting: u8,
    plan: &[u32],
    state: &mut [u64],
    supplies: &[u8],
    declines: &[u64],
    out: &mut [u8],
) -> u64
    ensures { (result, state.new, out.new) ≡
        running setting plan.now state.old supplies.now declines.now out.old }
{
    told(slots::run(setting, plan, state, supplies, declines, out))
}

// The start of slot n, in microseconds.
#[tactic(auto, unfolding(crate::specs::Exports::starting))]
#[unsafe(no_mangle)]
pub extern "C" fn mettulos_start(p: u32, q: u32, n: u64, answer: &mut [u64]) -> u64
    ensures { (result, answer.new) ≡ starting (record { p = p; q = q }) n answer.old }
{
    told(times::lay(ticks::start(Tick { p, q }, n), answer))
}

// The minute in which slot n begins.
#[tactic(auto, unfolding(crate::specs::Exports::minuting))]
#[unsafe(no_mangle)]
pub extern "C" fn mettulos_minute(p: u32, q: u32, n: u64, answer: &mut [u64]) -> u64
    ensures { (result, answer.new) ≡ minuting (record { p = p; q = q }) n answer.old }
{
    told(times::lay(ticks::minute(Tick { p, q }, n), answer))
}

// The slot of a time t, in microseconds.
#[tactic(auto, using(crate::proofs::Told::slot_told))]
#[unsafe(no_mangle)]
pub extern "C" fn mettulos_slot(p: u32, q: u32, t: u64, answer: &mut [u64]) -> u64
    ensures { (result, answer.new) ≡ slotting (record { p = p; q = q }) t answer.old }
{
    told(times::lay(ticks::slot(Tick { p, q }, t), answer))
}
