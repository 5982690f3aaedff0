use crate::frame::Frame;
use word_ops::{List, Name, Pos, Ticket};

/// A strand as it travels: its name, the nodelet where it was born, its place, where its result goes, its
/// frames, the deepest last, and the first place in the text of an operation of its own that was not
/// granted, if any. The place is the strand's, which a context that was sent keeps until the step that
/// changes it (docs/machine.md, "Contexts and packets").
#[derive(Debug, Drop)]
pub struct Context {
    pub name: Name,
    pub home: u32,
    pub place: u32,
    pub ticket: Option<Ticket>,
    pub frames: List<Frame>,
    pub late: Option<Pos>,
}
