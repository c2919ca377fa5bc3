// Edits of a case: `with WHAT INDEX VALUE` changes the plan value or the state, to something that a reader would refuse too.
use dispatch::State;
use meaning::{Misses, SlotType};
use plans::{Node, NodeKind, Parent, Plan};

// What a call is made on.
#[derive(Clone, Copy)]
pub struct Case {
    pub plan: Plan,
    pub state: State,
}

// What an edit changes, and to what; entries by their index.
#[derive(Drop)]
enum Edit {
    Clock(u64),
    Left(usize, u16),
    Edition(u8),
    TickP(u32),
    TickQ(u32),
    Cores(usize),
    Size(usize),
    Supply(usize, SlotType),
    Node(usize, NodeEdit),
}

#[derive(Drop)]
enum NodeEdit {
    Kind(NodeKind),
    Parent(Parent),
    Wanted(SlotType),
    Misses(Misses),
    Served(SlotType),
}

// The case after the edits at the front of the words, and the words behind them.
pub fn edited(mut case: Case, words: &[u8]) -> (Case, &[u8]) {
    let mut rest = words;
    // A `while`, since the words behind the last edit are handed on, which a `for` over edits would not give.
    while rest.starts_with(b"w") {
        let (_, behind) = lines::cut(rest, b' ');
        let (what, behind) = lines::cut(behind, b' ');
        let (index, behind) = lines::cut(behind, b' ');
        let (value, behind) = lines::cut(behind, b' ');
        if let Some(edit) = edit_of(what, lines::number(index, 10) as usize, value) {
            case.apply(edit);
        }
        rest = behind;
    }
    (case, rest)
}

// The edit whose value the word spells, as `2` or `1/4`: a number that does not fit is taken for 0. There is none where `what` is not known.
fn edit_of(what: &[u8], i: usize, value: &[u8]) -> Option<Edit> {
    let (first, rest) = lines::cut(value, b'/');
    let (second, _) = lines::cut(rest, b'/');
    let first = lines::number(first, 10);
    let pair = (
        u16::try_from(first).unwrap_or(0),
        u16::try_from(lines::number(second, 10)).unwrap_or(0),
    );
    match what.first()? {
        b'c' => Some(Edit::Clock(first)),
        b'l' => Some(Edit::Left(i, pair.0)),
        b'e' => Some(Edit::Edition(u8::try_from(first).unwrap_or(0))),
        b'P' => Some(Edit::TickP(u32::try_from(first).unwrap_or(0))),
        b'Q' => Some(Edit::TickQ(u32::try_from(first).unwrap_or(0))),
        b'S' => Some(Edit::Cores(first as usize)),
        b'N' => Some(Edit::Size(first as usize)),
        b's' => Some(Edit::Supply(i, type_of(pair))),
        b'k' => Some(Edit::Node(i, NodeEdit::Kind(NodeKind::named(first)))),
        b'p' => Some(Edit::Node(i, NodeEdit::Parent(parent_of(first)))),
        b'w' => Some(Edit::Node(i, NodeEdit::Wanted(type_of(pair)))),
        b'm' => Some(Edit::Node(i, NodeEdit::Misses(misses_of(pair)))),
        b'g' => Some(Edit::Node(i, NodeEdit::Served(type_of(pair)))),
        _ => None,
    }
}

fn type_of((c, t): (u16, u16)) -> SlotType {
    SlotType { c, t }
}

fn misses_of((d, w): (u16, u16)) -> Misses {
    Misses { d, w }
}

// The parent that a byte names; what is no byte is taken for the last.
fn parent_of(n: u64) -> Parent {
    u8::try_from(n).map_or(Parent::Node(255), Parent::from)
}

impl Case {
    // Where there is no such entry, nothing changes.
    fn apply(&mut self, edit: Edit) {
        match edit {
            Edit::Clock(n) => self.state.clock = n,
            Edit::Left(i, n) => {
                if let Some(left) = self.state.left.get_mut(i) {
                    *left = n;
                }
            }
            Edit::Edition(n) => self.plan.edition = n,
            Edit::TickP(n) => self.plan.tick.p = n,
            Edit::TickQ(n) => self.plan.tick.q = n,
            Edit::Cores(n) => self.plan.cores = n,
            Edit::Size(n) => self.plan.size = n,
            Edit::Supply(i, kind) => {
                if let Some(supply) = self.plan.supplies.get_mut(i) {
                    *supply = kind;
                }
            }
            Edit::Node(i, edit) => {
                if let Some(node) = self.plan.nodes.get_mut(i) {
                    edit.apply(node);
                }
            }
        }
    }
}

impl NodeEdit {
    fn apply(self, node: &mut Node) {
        match self {
            NodeEdit::Kind(kind) => node.kind = kind,
            NodeEdit::Parent(parent) => node.parent = parent,
            NodeEdit::Wanted(wanted) => node.wanted = wanted,
            NodeEdit::Misses(misses) => node.misses = misses,
            NodeEdit::Served(served) => node.served = served,
        }
    }
}
