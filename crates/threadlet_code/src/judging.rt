//! Which rule a function breaks first.

ghost use Rattle.std.specs.Prelude.{◌≡◌, ◌<◌, ◌≤◌, length, map, Some, IfSome, slice_get};
ghost use Rattle.word_ops.specs.Formats.{words_in};
ghost use Rattle.threadlet_code.specs.Walking.{AreFound};
ghost use Rattle.threadlet_code.specs.Judging.{AreJumps, lacks_least, is_wide, exceeds, IsFirst, IsFirstIn};
ghost use Rattle.threadlet_code.specs.Breaches.{breaks, all_rules};

use crate::code::{Code, FuncCode};
use crate::instr::Instr;
use crate::operands::popped_by;
use crate::rule::Rule;
use crate::rules::{
    has_bad_format, has_bad_function, has_bad_places, has_bad_slot, has_bad_target,
    lacks_entry_turn, loops_without_turn, returns_unsynced, runs_off, spawns_untold,
};
use crate::survey::Survey;
use crate::walk::Span;
use word_ops::List;

/// The rules in their order.
const RULES: [Rule; 13] = [
    Rule::NoEntryTurn,
    Rule::BadPlaces,
    Rule::BadSlot,
    Rule::BadFunction,
    Rule::BadFormat,
    Rule::BadTarget,
    Rule::LoopWithoutTurn,
    Rule::FallsOff,
    Rule::Underflow,
    Rule::HeightDiffers,
    Rule::TooHigh,
    Rule::SpawnUntold,
    Rule::ReturnUnsynced,
];

/// The first place at which a function breaks a rule, with the rule, if any.
pub fn first_in(
    code: &Code,
    counts: &List<u64>,
    function: usize,
    f: &FuncCode,
    survey: &Survey,
) -> Option<(usize, Rule)>
    requires counts { counts.now ≡ map words_in code.now.formats }
    requires known { slice_get code.now.functions function ≡ Some f.now }
    requires some { 1 ≤ length f.now.body }
    requires ways { AreFound code.now function f.now survey.now.ways }
    requires jumped { AreJumps f.now survey.now.jumped }
    ensures first { IsFirstIn code.now function result }
    ensures inside { IfSome result (λ at. at.0 < length f.now.body) }
{
    for place in 0..f.body.len() {
        match first_rule(code, counts, function, f, survey, place) {
            None => {}
            Some(rule) => return Some((place, rule)),
        }
    }
    None
}

/// The first rule that a function breaks at a place, if any.
fn first_rule(
    code: &Code,
    counts: &List<u64>,
    function: usize,
    f: &FuncCode,
    survey: &Survey,
    place: usize,
) -> Option<Rule>
    requires counts { counts.now ≡ map words_in code.now.formats }
    requires place { place < length f.now.body }
    requires ways { AreFound code.now function f.now survey.now.ways }
    requires jumped { AreJumps f.now survey.now.jumped }
    ensures { IsFirst (breaks code.now function f.now place) all_rules result }
{
    first_of(&RULES, code, counts, function, f, survey, place)
}

/// The first of some rules that a function breaks at a place, if any.
fn first_of(
    rules: &[Rule],
    code: &Code,
    counts: &List<u64>,
    function: usize,
    f: &FuncCode,
    survey: &Survey,
    place: usize,
) -> Option<Rule>
    requires counts { counts.now ≡ map words_in code.now.formats }
    requires place { place < length f.now.body }
    requires ways { AreFound code.now function f.now survey.now.ways }
    requires jumped { AreJumps f.now survey.now.jumped }
    ensures { IsFirst (breaks code.now function f.now place) rules.now result }
{
    for rule in rules {
        if breaks_rule(code, counts, function, f, survey, place, *rule) {
            return Some(*rule);
        }
    }
    None
}

/// A function breaks a rule at a place.
fn breaks_rule(
    code: &Code,
    counts: &List<u64>,
    function: usize,
    f: &FuncCode,
    survey: &Survey,
    place: usize,
    rule: Rule,
) -> bool
    requires counts { counts.now ≡ map words_in code.now.formats }
    requires place { place < length f.now.body }
    requires ways { AreFound code.now function f.now survey.now.ways }
    requires jumped { AreJumps f.now survey.now.jumped }
    ensures { result ≡ breaks code.now function f.now place rule }
{
    match rule {
        Rule::NoEntryTurn => lacks_entry_turn(f, place),
        Rule::BadPlaces => has_bad_places(f, place),
        Rule::BadSlot => has_bad_slot(f, place),
        Rule::BadFunction => has_bad_function(code, function, f, place),
        Rule::BadFormat => has_bad_format(code, f, place),
        Rule::BadTarget => has_bad_target(f, place),
        Rule::LoopWithoutTurn => loops_without_turn(f, place),
        Rule::FallsOff => runs_off(f, place),
        Rule::Underflow => underflows(code, counts, f.body.at(place), *survey.ways.at(place)),
        Rule::HeightDiffers => differs(*survey.ways.at(place)),
        Rule::TooHigh => rises_over(f.height, *survey.ways.at(place)),
        Rule::SpawnUntold => spawns_untold(f, place),
        Rule::ReturnUnsynced => returns_unsynced(f, place, *survey.jumped.at(place)),
    }
}

/// The lowest way lacks what an instruction pops.
fn underflows(code: &Code, counts: &List<u64>, instr: &Instr, ways: Option<Span>) -> bool
    requires { counts.now ≡ map words_in code.now.formats }
    ensures { result ≡ lacks_least code.now (Some instr.now) ways }
{
    match ways {
        None => false,
        Some(span) => match popped_by(code, counts, instr) {
            None => true,
            Some(popped) => popped > span.least as u64,
        },
    }
}

/// The lowest way and the highest have different heights.
fn differs(ways: Option<Span>) -> bool
    ensures { result ≡ is_wide ways }
{
    match ways {
        None => false,
        Some(span) => span.least != span.most,
    }
}

/// The highest way is higher than this.
fn rises_over(height: u32, ways: Option<Span>) -> bool
    ensures { result ≡ exceeds height ways }
{
    match ways {
        None => false,
        Some(span) => height < span.most,
    }
}
