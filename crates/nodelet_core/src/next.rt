/// Whether a context can go on where it stands (docs/machine.md, "Nodelets").
#[derive(Clone, Copy, PartialEq, Eq, Debug)]
pub enum Next {
    /// A silent instruction comes next, or an action that can be done here or elsewhere now.
    Goes,
    /// An action comes next that has to wait.
    Waits,
}
