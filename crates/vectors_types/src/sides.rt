// Reads the two sides of a pair from its line, and prints them.
use meaning::{Kind, SlotType};
use std::fmt;

// One side of a pair: `aligned 1/4`.
#[derive(Clone, Copy)]
pub struct Side {
    pub kind: Kind,
    pub slots: SlotType,
}

impl fmt::Display for Side {
    fn fmt<W: fmt::Write>(&self, f: &mut fmt::Formatter<W>) -> fmt::Result {
        let kind = match self.kind {
            Kind::Aligned => "aligned",
            Kind::Sliding => "sliding",
        };
        let SlotType { c, t } = self.slots;
        write!(f, "{kind} {c}/{t}")
    }
}

// The side of the three words at the front, kind, C and T, and the words behind them.
pub fn one_side(words: &[u8]) -> (Side, &[u8]) {
    let (kind, rest) = lines::cut(words, b' ');
    let (c, rest) = lines::cut(rest, b' ');
    let (t, rest) = lines::cut(rest, b' ');
    let kind = match kind.first() {
        Some(b's') => Kind::Sliding,
        _ => Kind::Aligned,
    };
    let slots = SlotType {
        c: sixteen(c),
        t: sixteen(t),
    };
    (Side { kind, slots }, rest)
}

// The number of a word, or 0 where it is larger than sixteen bits hold.
fn sixteen(word: &[u8]) -> u16 {
    u16::try_from(lines::number(word, 10)).unwrap_or(0)
}
