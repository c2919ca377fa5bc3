// A failing window, and its allocation, written slot by slot.
ghost use Rattle.std.specs.Prelude.{◌≡◌, ◌+◌, ◌≤◌, length};
ghost use Rattle.meaning.specs.Allocation.{bit};
ghost use Rattle.meaning.specs.Written.{written, stretch_from, stretch_to};
ghost use Rattle.types.specs.Bounds.{last_start, last_slot};
ghost use Rattle.types.specs.Decision.{said_of, failing, writing, bytes};

use crate::Decision;
use crate::pair::Pair;

// The window of the wanted type that starts at `start`, one of those that are looked at.
#[derive(Clone, Copy)]
pub struct Window {
    pub pair: Pair,
    pub start: u32,
    ghost near: { start ≤ last_start },
}

impl Window {
    // That it fails, with its ones, and its allocation where there is room.
    #[tactic(auto, unfolding(crate::specs::Decision::failing, crate::specs::Decision::stretch))]
    pub fn show(self, out: &mut [u8]) -> Decision
        ensures answer { said_of result ≡ failing self.pair.giver self.pair.wanted (length out.old) self.start }
        ensures buffer { out.new ≡ writing self.pair.giver self.pair.wanted out.old
            (failing self.pair.giver self.pair.wanted (length out.old) self.start) }
    {
        let from = self.first_slot();
        let length = self.last_slot() - from;
        if out.len() < length as usize {
            return Decision::Refused {
                number: 17,
                place: None,
            };
        }
        self.write(from, &mut out[..length as usize]);
        Decision::Fails {
            start: self.start,
            ones: self.pair.ones_from(self.start),
            length,
        }
    }

    // The multiple of T at or below the window's start.
    #[tactic(auto, using(crate::proofs::Windows::fits), unfolding(meaning::specs::Written::stretch_from))]
    fn first_slot(self) -> u32
        ensures { (result ≡ stretch_from self.pair.giver.t self.start) × (result ≤ self.start) }
    {
        let t = u32::from(self.pair.giver.t);
        self.start / t * t
    }

    // The first multiple of T at or above the window's end.
    #[tactic(auto, using(crate::proofs::Windows::fits), unfolding(meaning::specs::Written::stretch_to))]
    fn last_slot(self) -> u32
        ensures { (result ≡ stretch_to self.pair.giver.t self.start self.pair.wanted.t) ×
            ((self.start ≤ result) × (result ≤ last_slot)) }
    {
        let t = u32::from(self.pair.giver.t);
        (self.start + u32::from(self.pair.wanted.t) + (t - 1)) / t * t
    }

    // Writes the bytes of the slots from `from` on over all of `out`.
    #[tactic(auto, using(crate::proofs::Bytes::none_written, crate::proofs::Bytes::more_written))]
    fn write(self, from: u32, out: &mut [u8])
        requires { from + length out.old ≤ last_slot }
        ensures { out.new ≡ bytes (written self.pair.giver.c self.pair.giver.t self.start self.pair.wanted.t) from (length out.old) }
    {
        for (i, byte) in out.iter_mut().enumerate() {
            *byte = self.slot_byte(from + i as u32);
        }
    }

    // The byte of slot n: 0 inside the window, where fewer than T − C slots of its block stand inside before it.
    #[tactic(auto, using(crate::proofs::Windows::fits), unfolding(meaning::specs::Written::written))]
    fn slot_byte(self, n: u32) -> u8
        requires { n ≤ last_slot }
        ensures { result ≡ bit (written self.pair.giver.c self.pair.giver.t self.start self.pair.wanted.t n) }
    {
        let t = u32::from(self.pair.giver.t);
        let zeros = t - u32::from(self.pair.giver.c);
        let end = self.start + u32::from(self.pair.wanted.t);
        if self.start <= n && n < end && n - self.start.max(n / t * t) < zeros {
            0
        } else {
            1
        }
    }
}
