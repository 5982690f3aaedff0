//! Whether code keeps all rules.

ghost use Rattle.std.specs.Prelude.{◌≡◌, ◌<◌, ◌^◌, length, map, Some, None, slice_get, IfOk, MatchResult};
ghost use Rattle.word_ops.specs.Formats.{words_in};
ghost use Rattle.threadlet_code.specs.Breaches.{first_breach};
ghost use Rattle.threadlet_code.specs.Verdict.{IsShort, Refuses, Judges, JudgesFunction};

use crate::code::{Code, FuncCode};
use crate::judging::first_in;
use crate::operands::words_of_formats;
use crate::refusal::VerifyRefusal;
use crate::rule::Rule;
use crate::surveying::survey_of;
use crate::verdict::{FunctionVerdict, Verdict};
use crate::verified::Verified;
use std::alloc::{AllocError, Global};
use word_ops::List;

/// Verifies code: it keeps all rules, or it is handed back with the first rule that it breaks, by function,
/// place and order of rules (docs/machine.md, "Rules of code"). Takes time in proportion to the code.
pub fn verify(alloc: Global, code: Code) -> Result<Verified, VerifyRefusal>
    requires { IsShort code }
    ensures { MatchResult result (λ verified. (verified.code ≡ code) × (first_breach code ≡ None)) (λ refusal. Refuses code refusal) }
{
    match judge(alloc, &code) {
        Err(_) => Err(VerifyRefusal::OutOfMemory { code }),
        Ok(Verdict::Sound { heights }) => Ok(Verified::new(code, heights)),
        Ok(
            Verdict::Broken {
                function,
                place,
                rule,
            },
        ) => Err(VerifyRefusal::Bad {
            code,
            function,
            place,
            rule,
        }),
    }
}

/// The first rule that a code breaks, or the heights in all its functions.
fn judge(alloc: Global, code: &Code) -> Result<Verdict, AllocError>
    requires { IsShort code.now }
    ensures { IfOk result (Judges code.now) }
{
    if code.functions.len() == 0 {
        return Ok(Verdict::Broken {
            function: 0,
            place: 0,
            rule: Rule::BadFunction,
        });
    }
    let counts = words_of_formats(alloc, &code.formats)?;
    let mut heights = List::new(alloc);
    for function in 0..code.functions.len() {
        let f = code.functions.at(function);
        match judge_function(alloc, code, &counts, function, f)? {
            FunctionVerdict::Keeps { heights: known } => heights.add(known)?,
            FunctionVerdict::Breaks { place, rule } => {
                return Ok(Verdict::Broken {
                    function: function as u32,
                    place,
                    rule,
                });
            }
        }
    }
    Ok(Verdict::Sound { heights })
}

/// The first rule that a function breaks, or its heights.
fn judge_function(
    alloc: Global,
    code: &Code,
    counts: &List<u64>,
    function: usize,
    f: &FuncCode,
) -> Result<FunctionVerdict, AllocError>
    requires counts { counts.now ≡ map words_in code.now.formats }
    requires known { slice_get code.now.functions function ≡ Some f.now }
    requires short { length f.now.body < 2 ^ 32 }
    ensures { IfOk result (JudgesFunction code.now function f.now) }
{
    if f.body.len() == 0 {
        return Ok(FunctionVerdict::Breaks {
            place: 0,
            rule: Rule::NoEntryTurn,
        });
    }
    let survey = survey_of(alloc, code, counts, function, f)?;
    match first_in(code, counts, function, f, &survey) {
        None => Ok(FunctionVerdict::Keeps {
            heights: survey.heights,
        }),
        Some((place, rule)) => Ok(FunctionVerdict::Breaks {
            place: place as u32,
            rule,
        }),
    }
}
