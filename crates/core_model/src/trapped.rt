use word_ops::{Name, Pos, TrapKind};

/// A strand that trapped at a nodelet: the stamp of the event, why, the place in the text, and the
/// strand (docs/machine.md, "Nodelets").
#[derive(Clone, Copy, PartialEq, Eq, Debug)]
pub struct Trapped {
    pub stamp: u64,
    pub kind: TrapKind,
    pub pos: Pos,
    pub name: Name,
}
