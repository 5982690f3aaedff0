use crate::list::List;

/// A word that is not 0, at its nodelet and address.
#[derive(Clone, Copy, PartialEq, Eq, Debug)]
pub struct Cell {
    pub nodelet: u32,
    pub address: i64,
    pub word: i64,
}

/// What a run sent between its `n` nodelets and did at each (docs/outputs.md, "Report"). The first four
/// lists have `n * n` numbers, with the number from nodelet i to nodelet j at `i * n + j`; the last two
/// have one for each nodelet.
#[derive(Debug, Drop)]
pub struct Traffic {
    pub n: u32,
    pub moves: List<u64>,
    pub births: List<u64>,
    pub posts: List<u64>,
    pub dones: List<u64>,
    pub turns: List<u64>,
    pub applied: List<u64>,
}
