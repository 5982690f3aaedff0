/// The rules of verified code, in the order in which they are looked at in each place
/// (docs/machine.md, "Rules of code").
#[derive(Clone, Copy, PartialEq, Eq, Debug)]
pub enum Rule {
    /// The first instruction is a Turn.
    NoEntryTurn,
    /// There are as many positions as instructions.
    BadPlaces,
    /// Slots that are named are there, and so is one for each parameter.
    BadSlot,
    /// Functions that are named are there, main among them, which has no parameters.
    BadFunction,
    /// Formats that are named are there.
    BadFormat,
    /// A jump stays in the body.
    BadTarget,
    /// A jump to its own place or before goes to a Turn.
    LoopWithoutTurn,
    /// The last instruction is a jump or a return.
    FallsOff,
    /// The stack holds what is popped.
    Underflow,
    /// All ways to a place have the same stack height.
    HeightDiffers,
    /// The stack is no higher than the function says.
    TooHigh,
    /// Only a function that says so spawns.
    SpawnUntold,
    /// In a function that spawns, each return stands behind a sync, and no jump goes to it.
    ReturnUnsynced,
}
