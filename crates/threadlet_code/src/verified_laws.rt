//! What holds of verified code, as functions that do nothing and whose contracts are the laws.

ghost use Rattle.threadlet_code.specs.Sound.{HeightsAreOfWays, RulesAreKept, VerifiedHeightsLead, WellCodeIsSound};
ghost use Rattle.threadlet_code.specs.Fitting.{AnswerFits, AnswerStaysTidy, ChildrenFit, HaltsAtDue, NeverStuck, NothingSilentIsDue, SilentFits, SilentStaysTidy, SlotsAreThere, StartsFit};

/// A code whose functions all have heights that fit breaks no rule (docs/machine.md, "Rules of code").
pub fn law_well_code_is_sound()
    ensures { WellCodeIsSound }
{}

/// Each function keeps the rules that need no ways, and main can start (docs/machine.md, "Rules of code").
pub fn law_rules_are_kept()
    ensures { RulesAreKept }
{}

/// Wherever a way leads there is an instruction with its operands, and with what it leaves behind it
/// (docs/machine.md, "Rules of code").
pub fn law_verified_heights_lead()
    ensures { VerifiedHeightsLead }
{}

/// All ways to a place have its height, and where it has none no way leads (docs/machine.md, "Rules of
/// code").
pub fn law_heights_are_of_ways()
    ensures { HeightsAreOfWays }
{}

/// A function that starts with its arguments fits, and owes nothing (docs/machine.md, "Code").
pub fn law_starts_fit()
    ensures { StartsFit }
{}

/// An operand, a function, a format or an instruction is never missing (docs/machine.md, "Code").
pub fn law_never_stuck()
    ensures { NeverStuck }
{}

/// A slot that is named is there (docs/machine.md, "Code").
pub fn law_slots_are_there()
    ensures { SlotsAreThere }
{}

/// What follows a silent instruction fits (docs/machine.md, "Code").
pub fn law_silent_fits()
    ensures { SilentFits }
{}

/// What follows an answer fits, whatever the answer (docs/machine.md, "Code").
pub fn law_answer_fits()
    ensures { AnswerFits }
{}

/// A child starts with as many arguments as its function has parameters (docs/machine.md, "Code").
pub fn law_children_fit()
    ensures { ChildrenFit }
{}

/// A silent instruction leaves what each depth owes (docs/machine.md, "Code").
pub fn law_silent_stays_tidy()
    ensures { SilentStaysTidy }
{}

/// An answered action changes what each depth owes as it changes the children to join (docs/machine.md,
/// "Code").
pub fn law_answer_stays_tidy()
    ensures { AnswerStaysTidy }
{}

/// A strand halts before its next action (docs/machine.md, "Code").
pub fn law_halts_at_due()
    ensures { HaltsAtDue }
{}

/// Silent instructions end (docs/machine.md, "Code").
pub fn law_nothing_silent_is_due()
    ensures { NothingSilentIsDue }
{}
