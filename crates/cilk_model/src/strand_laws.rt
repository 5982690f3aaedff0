//! What holds of the actions of every program, as functions that do nothing and whose contracts are the
//! laws.

ghost use Rattle.cilk_model.specs.Laws.{ActionsAreBounded, MoreAnswersMakeMoreActions, OneActionWaits, OverIsOver, StrandsBeginWithTurn};

/// The first action of every strand is a Turn (docs/language.md, "Meaning").
pub fn law_strands_begin_with_turn()
    ensures { StrandsBeginWithTurn }
{}

/// More answers leave the actions that were made, and add to them (docs/language.md, "Meaning").
pub fn law_more_answers_make_more_actions()
    ensures { MoreAnswersMakeMoreActions }
{}

/// A strand that has ended or trapped makes no more actions (docs/language.md, "Meaning").
pub fn law_over_is_over()
    ensures { OverIsOver }
{}

/// Until it ends or traps, a strand has made an action for each answer and one more
/// (docs/language.md, "Meaning").
pub fn law_one_action_waits()
    ensures { OneActionWaits }
{}

/// A strand never makes more actions than that (docs/language.md, "Meaning").
pub fn law_actions_are_bounded()
    ensures { ActionsAreBounded }
{}
