//! What holds of the tokens of every text, as functions that do nothing and whose contracts are the
//! laws.

ghost use Rattle.cilk_model.specs.TokenLaws.{TokensAreOne, LexicalFaultIsOne, TokensHaveNoFault, TextsLex, TokensAreSpelled, TokensFinish, LexemesEndOnce};

/// A text has at most one list of tokens (docs/language.md, "Tokens").
pub fn law_tokens_are_one()
    ensures { TokensAreOne }
{}

/// A text has at most one first lexical fault (docs/language.md, "Tokens").
pub fn law_lexical_fault_is_one()
    ensures { LexicalFaultIsOne }
{}

/// A text with tokens has no lexical fault (docs/language.md, "Tokens").
pub fn law_tokens_have_no_fault()
    ensures { TokensHaveNoFault }
{}

/// A text has tokens or a lexical fault (docs/language.md, "Tokens").
pub fn law_texts_lex()
    ensures { TextsLex }
{}

/// Each token lies in its text, and is spelled there as its kind demands (docs/language.md, "Tokens").
pub fn law_tokens_are_spelled()
    ensures { TokensAreSpelled }
{}

/// The tokens of a text end with Finish, and no other is Finish (docs/language.md, "Tokens").
pub fn law_tokens_finish()
    ensures { TokensFinish }
{}

/// What the tokens of a text say ends with the end of the text, which stands nowhere else
/// (docs/language.md, "Tokens").
pub fn law_lexemes_end_once()
    ensures { LexemesEndOnce }
{}
