//! What holds of the code of expressions, as a function that does nothing and whose contract is the law.

ghost use Rattle.codegen_expr.specs.Laws.{CodeOfExpressionsActs};

/// The code of an expression makes its actions and leaves its value (docs/machine.md, "Code").
pub fn law_code_of_expressions_acts()
    ensures { CodeOfExpressionsActs }
{}
