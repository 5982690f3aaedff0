//! What holds of the states of a strand, as functions that do nothing and whose contracts are the laws.

ghost use Rattle.threadlet_code.specs.Following.{ActionHaltsHere, AnswerFollows, EndIsLast, LastActionHaltsHere, NextIsLast, SilentFollows, SilentHaltsLater, StartFollows};

/// A strand follows no answers at its start (docs/machine.md, "Code").
pub fn law_start_follows()
    ensures { StartFollows }
{}

/// Behind a silent instruction it follows the same answers (docs/machine.md, "Code").
pub fn law_silent_follows()
    ensures { SilentFollows }
{}

/// Once its action is answered it follows that answer too (docs/machine.md, "Code").
pub fn law_answer_follows()
    ensures { AnswerFollows }
{}

/// The action that comes next is the last on its answers, and it has made one for each of these
/// (docs/machine.md, "Code").
pub fn law_next_is_last()
    ensures { NextIsLast }
{}

/// An end or a trap that comes next is the last on its answers (docs/machine.md, "Code").
pub fn law_end_is_last()
    ensures { EndIsLast }
{}

/// Behind a silent instruction it halts in the same state (docs/machine.md, "Code").
pub fn law_silent_halts_later()
    ensures { SilentHaltsLater }
{}

/// Before an action it halts at once (docs/machine.md, "Code").
pub fn law_action_halts_here()
    ensures { ActionHaltsHere }
{}

/// Before an end or a trap it halts at once (docs/machine.md, "Code").
pub fn law_last_action_halts_here()
    ensures { LastActionHaltsHere }
{}
