/// What stands around a statement: whether its function spawns, the slot in which a `cilk_for` keeps its
/// variable (its bound is in the next), and where a break and a continue lead.
#[derive(Clone, Copy, Debug)]
pub struct Around {
    pub spawns: bool,
    pub kept: u32,
    pub broken: u32,
    pub continued: u32,
}
