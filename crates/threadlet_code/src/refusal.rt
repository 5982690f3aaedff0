use crate::code::Code;
use crate::rule::Rule;

/// Why code was not verified; it is handed back. `Bad` names the first rule that is broken, by function, place
/// and order of rules (docs/machine.md, "Rules of code").
#[derive(Debug, Drop)]
pub enum VerifyRefusal {
    Bad {
        code: Code,
        function: u32,
        place: u32,
        rule: Rule,
    },
    OutOfMemory {
        code: Code,
    },
}
