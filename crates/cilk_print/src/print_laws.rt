//! What holds of canonical texts, as functions that do nothing and whose contracts are the laws.

ghost use Rattle.cilk_model.specs.Canonical.{CanonicalTextIsOne};
ghost use Rattle.cilk_print.specs.Laws.{CanonicalTextSpellsSame};

/// The canonical text of a tree that some text spells spells the same tree, places aside, and no token
/// of it is too deep (docs/language.md, "Canonical text").
pub fn law_canonical_text_spells()
    ensures { CanonicalTextSpellsSame }
{}

/// Trees that are the same, places aside, have one canonical text (docs/language.md, "Canonical text").
pub fn law_canonical_text_is_one()
    ensures { CanonicalTextIsOne }
{}
