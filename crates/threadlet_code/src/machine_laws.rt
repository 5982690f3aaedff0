//! What holds of the machine, as functions that do nothing and whose contracts are the laws.

ghost use Rattle.threadlet_code.specs.Laws.{ActionIsMade, LastActionEnds, SilentGoesOn};

/// A silent instruction changes nothing of what is done from a state on (docs/machine.md, "Code").
pub fn law_silent_goes_on()
    ensures { SilentGoesOn }
{}

/// An action is made, and its answer leads on (docs/machine.md, "Code").
pub fn law_action_is_made()
    ensures { ActionIsMade }
{}

/// The last action ends what is done (docs/machine.md, "Code").
pub fn law_last_action_ends()
    ensures { LastActionEnds }
{}
