//! More of what holds of all events: how they go on, where they end, and whom they leave. Each function here
//! does nothing; its contract is the law.

ghost use Rattle.core_model.specs.AllCells.{CellsAreAll, CellsBeyondAreZero};
ghost use Rattle.core_model.specs.CoreEnd.{EventTrapsAtOneNodelet, MergedEndIsShown, SerialEndIsShown};
ghost use Rattle.core_model.specs.GoingOn.{EventGoesOn, EventsGoOn, LegalIsListed, NoneListedIsStill};
ghost use Rattle.core_model.specs.Strands.{ContextsTravel, EventsMissNothing, MainEndsLast};
ghost use Rattle.core_model.specs.Touched.{EventsAreLocal, OthersGoOnAlike, OthersGoOnUnlessHeld, OthersStand};

/// Where events lead to a core and more go on from it, or one more does, all of them lead where those do and
/// tell of both (docs/machine.md, "The core").
pub fn law_events_go_on()
    ensures list { EventsGoOn }
    ensures one { EventGoesOn }
{}

/// The list of legal events has every one of them; so where it is empty no event is legal
/// (docs/machine.md, "The core").
pub fn law_legal_is_listed()
    ensures listed { LegalIsListed }
    ensures still { NoneListedIsStill }
{}

/// In every run of every meaning the words of nodelets that are not there are 0
/// (docs/machine.md, "The core").
pub fn law_cells_beyond_are_zero()
    ensures { CellsBeyondAreZero }
{}

/// After legal events each nodelet has the words that the world has there, whether there is such a nodelet or
/// not (docs/machine.md, "The core").
pub fn law_cells_are_all()
    ensures { CellsAreAll }
{}

/// After legal events each context on a link is that of a live strand: it has its place, and is due its action
/// (docs/machine.md, "The core").
pub fn law_contexts_travel()
    ensures { ContextsTravel }
{}

/// Legal events take contexts of verified code through no state in which an instruction, an operand, a slot or
/// a target is missing (docs/machine.md, "The core").
pub fn law_events_miss_nothing()
    ensures { EventsMissNothing }
{}

/// Once main of verified code has ended each strand has, so that none lives, and no context is left
/// (docs/machine.md, "The core").
pub fn law_main_ends_last()
    ensures { MainEndsLast }
{}

/// Where no nodelet has kept a trap, one event makes strands trap at one nodelet at most
/// (docs/machine.md, "The core").
pub fn law_event_traps_at_one_nodelet()
    ensures { EventTrapsAtOneNodelet }
{}

/// Where legal events have stopped, with traps at one nodelet at most, the run has ended as the core shows,
/// in whatever order its events were told (docs/machine.md, "The core").
pub fn law_serial_end_is_shown()
    ensures { SerialEndIsShown }
{}

/// Where legal events have stopped that were told by stamp and then nodelet, the run has ended as the core
/// shows, whatever traps there were (docs/machine.md, "The core").
pub fn law_merged_end_is_shown()
    ensures { MergedEndIsShown }
{}

/// A strand that a legal event does not touch can go on at the event's nodelet if and only if it could before,
/// unless the last turn was served; in cores to which no legal events led, also unless its own result is kept
/// there only before or only after (docs/machine.md, "The core").
pub fn law_others_go_on_alike()
    ensures alike { OthersGoOnAlike }
    ensures unless_held { OthersGoOnUnlessHeld }
{}

/// A legal event leaves the contexts of strands that it does not touch, other nodelets, and links but for what it
/// took and sent (docs/machine.md, "The core").
pub fn law_events_touch_few()
    ensures others { OthersStand }
    ensures elsewhere { EventsAreLocal }
{}
