/// What becomes of an access outside the words that were granted: under `Loose` it is an access like
/// any other, under `Checked` it traps (docs/machine.md, "Grants").
#[derive(Clone, Copy, PartialEq, Eq, Debug)]
pub enum Rules {
    Loose,
    Checked,
}
