use crate::rule::Rule;
use word_ops::List;

/// What comes out of a code: that it keeps all rules, with the heights in each function, or the first rule that
/// it breaks.
#[derive(Debug, Drop)]
pub enum Verdict {
    Sound {
        heights: List<List<Option<u32>>>,
    },
    Broken {
        function: u32,
        place: u32,
        rule: Rule,
    },
}

/// The same of one function.
#[derive(Debug, Drop)]
pub enum FunctionVerdict {
    Keeps { heights: List<Option<u32>> },
    Breaks { place: u32, rule: Rule },
}
