//! Contexts come, change and go.

ghost use Rattle.std.specs.Prelude.{◌≡◌, ◌<◌, ◌≤◌, length, Contains, IfErr, OnOk, OnErr};
ghost use Rattle.std.specs.List.{insert, remove};
ghost use Rattle.world_model.specs.Step.{late_after};
ghost use Rattle.nodelet_core.specs.code.Standing.{names_of};
ghost use Rattle.nodelet_core.specs.code.Changed.{IsPlace, IsWith, IsWithout, IsTaken, IsLater};

use crate::standing::Standing;
use std::alloc::AllocError;
use threadlet_state::Context;
use word_ops::{Box, List, Name, Pos};

/// Puts a name before the i-th one. Want of memory changes nothing.
fn insert_name(names: &mut List<Name>, i: usize, name: Name) -> Result<(), AllocError>
    requires { i ≤ length names.old }
    ensures ok { OnOk result (names.new ≡ insert names.old i name) }
    ensures err { OnErr result (names.new ≡ names.old) }
{
    let alloc = names.allocator();
    let mut all = std::mem::replace(names, List::new(alloc)).into_vec();
    let inserted = all.insert(i, name);
    *names = List::from_vec(all);
    inserted?;
    Ok(())
}

/// Takes the i-th name out.
fn remove_name(names: &mut List<Name>, i: usize)
    requires { i < length names.old }
    ensures { names.new ≡ remove names.old i }
{
    let alloc = names.allocator();
    let mut all = std::mem::replace(names, List::new(alloc)).into_vec();
    let _ = all.remove(i);
    *names = List::from_vec(all);
}

/// The late position after one more place.
fn later(late: Option<Pos>, at: Pos) -> Pos
    ensures { result ≡ late_after late at }
{
    match late {
        None => at,
        Some(old) => {
            if old.line < at.line || (old.line == at.line && old.column <= at.column) {
                old
            } else {
                at
            }
        }
    }
}

impl Standing {
    /// The place of a name, or where it would go.
    fn place(&self, name: Name) -> Result<usize, usize>
        ensures { IsPlace name (names_of self.now.contexts.items) result }
    {
        self.names.as_slice().binary_search(&name)
    }

    /// The context takes the place of the one of its name, which is handed out. Takes no memory.
    pub fn replace(&mut self, x: Context) -> Option<Context>
        requires { Contains (names_of self.old.contexts.items) x.name }
        ensures { IsWith x self.old.contexts.items self.new.contexts.items }
    {
        match self.place(x.name) {
            Ok(i) => Some(std::mem::replace(&mut self.contexts[i], x)),
            Err(_) => None,
        }
    }

    /// The context goes where its name belongs, or in the place of the one of its name. Want of memory drops it
    /// and leaves the others.
    pub fn add(&mut self, x: Context) -> Result<(), AllocError>
        ensures ok { OnOk result (IsWith x self.old.contexts.items self.new.contexts.items) }
        ensures err { OnErr result (self.new.contexts.items ≡ self.old.contexts.items) }
    {
        match self.place(x.name) {
            Ok(i) => {
                self.contexts[i] = x;
                Ok(())
            }
            Err(i) => {
                self.contexts.reserve(1)?;
                insert_name(&mut self.names, i, x.name)?;
                self.contexts.insert(i, x).unwrap();
                Ok(())
            }
        }
    }

    /// The same of a context that was sent. Want of memory hands it back and leaves the others.
    pub fn arrive(&mut self, x: Box<Context>) -> Result<(), Box<Context>>
        ensures ok { OnOk result (IsWith x self.old.contexts.items self.new.contexts.items) }
        ensures err { OnErr result (self.new.contexts.items ≡ self.old.contexts.items) }
        ensures handed_back { IfErr result (λ back. back ≡ x) }
    {
        match self.place(x.name) {
            Ok(i) => {
                self.contexts[i] = x.into_inner();
                Ok(())
            }
            Err(i) => {
                if self.contexts.reserve(1).is_err()
                    || insert_name(&mut self.names, i, x.name).is_err()
                {
                    return Err(x);
                }
                self.contexts.insert(i, x.into_inner()).unwrap();
                Ok(())
            }
        }
    }

    /// Where a context has the name, it is late from `at`, or from where it was already. Takes no memory.
    pub fn make_late(&mut self, name: Name, at: Pos)
        ensures { IsLater name at self.old.contexts.items self.new.contexts.items }
    {
        if let Ok(i) = self.place(name) {
            let x = &mut self.contexts[i];
            x.late = Some(later(x.late, at));
        }
    }

    /// The context of the name, which is no longer here. Takes no memory.
    pub fn leave(&mut self, name: Name) -> Option<Context>
        ensures taken { IsTaken name self.old.contexts.items result }
        ensures left { IsWithout name self.old.contexts.items self.new.contexts.items }
    {
        match self.place(name) {
            Ok(i) => {
                remove_name(&mut self.names, i);
                Some(self.contexts.remove(i))
            }
            Err(_) => None,
        }
    }
}
