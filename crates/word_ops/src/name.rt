ghost use Rattle.std.specs.Prelude.{Some};

use std::fmt;

/// A strand's name: the nodelet that gave it, and a number that this nodelet gives once
/// (docs/machine.md, "Names"). Names are in order of nodelet, then number.
#[derive(Clone, Copy, PartialEq, Eq, PartialOrd, Ord, Debug)]
pub struct Name {
    pub nodelet: u32,
    pub number: u64,
}

impl fmt::Display for Name {
    ghost use Rattle.word_ops.specs.Naming.{name_text};

    ghost output = { λ name. Some (name_text name) };

    fn fmt<W: fmt::Write>(&self, f: &mut fmt::Formatter<W>) -> fmt::Result {
        write!(f, "{}.{}", self.nodelet, self.number)
    }
}
