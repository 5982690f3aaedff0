//! What holds of every text, as functions that do nothing but call those of the laws below them, and
//! whose contracts are the laws.

ghost use Rattle.cilk_parser.specs.TextLaws.{OneTreeOfAText, OneFaultOfAText, OneProgramOfAText, FaultyTextsSpellNoProgram, TextsSpellOrFail};

use crate::syntax_laws::{law_not_both, law_one_fault, law_one_of_both, law_one_tree};
use cilk_model::{
    law_lexemes_end_once, law_lexical_fault_is_one, law_texts_lex, law_tokens_are_one,
    law_tokens_have_no_fault,
};

/// A text spells at most one tree (docs/language.md, "Grammar").
pub fn law_one_tree_of_a_text()
    ensures { OneTreeOfAText }
{
    law_tokens_are_one();
    law_one_tree();
}

/// A text has at most one first fault (docs/language.md, "Faults").
pub fn law_one_fault_of_a_text()
    ensures { OneFaultOfAText }
{
    law_one_tree_of_a_text();
    law_tokens_are_one();
    law_lexical_fault_is_one();
    law_tokens_have_no_fault();
    law_one_fault();
    law_not_both();
}

/// A text spells at most one program (docs/language.md, "Grammar").
pub fn law_one_program_of_a_text()
    ensures { OneProgramOfAText }
{
    law_one_tree_of_a_text();
}

/// A text with a fault spells no program (docs/language.md, "Faults").
pub fn law_faulty_texts_spell_no_program()
    ensures { FaultyTextsSpellNoProgram }
{
    law_one_tree_of_a_text();
    law_tokens_are_one();
    law_tokens_have_no_fault();
    law_not_both();
}

/// A text spells a tree in which no rule is broken, or has a first fault (docs/language.md, "Faults").
pub fn law_texts_spell_or_fail()
    ensures { TextsSpellOrFail }
{
    law_texts_lex();
    law_lexemes_end_once();
    law_one_of_both();
}
