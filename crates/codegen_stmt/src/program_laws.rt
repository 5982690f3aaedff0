//! What holds of the code of programs, as a function that does nothing and whose contract is the law.

ghost use Rattle.codegen_stmt.specs.Laws.{CodeOfProgramsKeepsRules};

/// The code of every program keeps all rules (docs/machine.md, "Rules of code").
pub fn law_code_of_programs_keeps_rules()
    ensures { CodeOfProgramsKeepsRules }
{}
