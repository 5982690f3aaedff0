//! What holds of syntax whatever the tokens, as functions that do nothing and whose contracts are the
//! laws.

ghost use Rattle.cilk_parser.specs.Laws.{OneTree, OneFault, NotBoth, OneOfBoth};

/// Tokens spell at most one tree (docs/language.md, "Grammar").
pub fn law_one_tree()
    ensures { OneTree }
{}

/// Tokens have at most one fault of syntax (docs/language.md, "Faults").
pub fn law_one_fault()
    ensures { OneFault }
{}

/// Tokens that spell a tree have no fault of syntax (docs/language.md, "Faults").
pub fn law_not_both()
    ensures { NotBoth }
{}

/// Tokens that end with the one end of their text spell a tree or have a fault (docs/language.md,
/// "Faults").
pub fn law_one_of_both()
    ensures { OneOfBoth }
{}
