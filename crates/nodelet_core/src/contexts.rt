//! The contexts of a nodelet, changed.

use crate::nodelet::Nodelet;
use std::alloc::AllocError;
use threadlet_state::Context;
use word_ops::{Box, Name, Pos};

impl Nodelet {
    ghost use Rattle.std.specs.Prelude.{◌≡◌, [], ◌∷◌, true, Contains, IfErr, OnOk, OnErr};
    ghost use Rattle.word_ops.specs.declared.name.Name.{Name as StrandName};
    ghost use Rattle.core_model.specs.Contexts.{context_of};
    ghost use Rattle.nodelet_core.specs.Carried.{context_in};
    ghost use Rattle.core_model.specs.Nodes.{with_strand, without_strand};
    ghost use Rattle.core_model.specs.Takes.{made_late};
    ghost use Rattle.nodelet_core.specs.code.Standing.{is_among};
    ghost use Rattle.nodelet_core.specs.Kept.{names_at, IsUnchanged};
    ghost use Rattle.nodelet_core.specs.code.Became.{Became};

    /// A context takes the place of the one of its name, whose frames are room for the next copy.
    pub(crate) fn replace(&mut self, x: Context)
        requires here { Contains (names_at self.old) x.name }
        requires among { is_among self.old.nodelets x ≡ true }
        ensures { Became (λ code v. with_strand v (context_in code x)) (x ∷ []) self.old self.new }
    {
        if let Some(old) = self.standing.replace(x) {
            self.room = old.frames;
        }
    }

    /// A context comes. Want of memory changes nothing.
    pub(crate) fn add(&mut self, x: Context) -> Result<(), AllocError>
        requires among { is_among self.old.nodelets x ≡ true }
        ensures ok { OnOk result (Became (λ code v. with_strand v (context_in code x)) (x ∷ []) self.old self.new) }
        ensures names { OnOk result ((name : StrandName) → Contains (names_at self.old) name → Contains (names_at self.new) name) }
        ensures err { OnErr result (IsUnchanged self.old self.new) }
    {
        self.standing.add(x)
    }

    /// A context that was sent comes. Want of memory hands it back and changes nothing.
    pub(crate) fn arrive(&mut self, x: Box<Context>) -> Result<(), Box<Context>>
        requires among { is_among self.old.nodelets x ≡ true }
        ensures ok { OnOk result (Became (λ code v. with_strand v (context_in code x)) (x ∷ []) self.old self.new) }
        ensures err { OnErr result (IsUnchanged self.old self.new) }
        ensures handed_back { IfErr result (λ back. back ≡ x) }
    {
        self.standing.arrive(x)
    }

    /// The context of a name goes, and its frames are room for the next copy.
    pub(crate) fn depart(&mut self, name: Name)
        ensures { Became (λ code v. without_strand v name) [] self.old self.new }
    {
        if let Some(left) = self.standing.leave(name) {
            self.room = left.frames;
        }
    }

    /// The context of a name is late, where it is here.
    pub(crate) fn make_late(&mut self, name: Name, at: Pos)
        ensures { Became (λ code v. made_late v at (context_of name v.contexts)) [] self.old self.new }
    {
        self.standing.make_late(name, at);
    }
}
