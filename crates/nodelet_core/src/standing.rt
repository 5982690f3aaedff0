//! The contexts that stand at a nodelet.

ghost use Rattle.std.specs.Prelude.{◌≡◌, [], ◌∷◌, true, IfOk};
ghost use Rattle.std.specs.Option.{option_copied};
ghost use Rattle.nodelet_core.specs.code.Standing.{names_of, ascends, IsFound};

use std::alloc::{AllocError, Global};
use threadlet_state::Context;
use word_ops::{List, Name};

/// Contexts in the order of their names, and the names.
#[derive(Debug, Drop)]
pub(crate) struct Standing {
    pub(crate) names: List<Name>,
    pub(crate) contexts: Vec<Context>,
    ghost same_names: { names_of contexts.items ≡ names },
    ghost ascending: { ascends names ≡ true },
}

impl Standing {
    /// No contexts; they grow on `alloc`.
    pub fn new(alloc: Global) -> Standing
        ensures { result.contexts.items ≡ [] }
    {
        Standing {
            names: List::new(alloc),
            contexts: Vec::new(alloc),
        }
    }

    /// One context.
    pub fn of(alloc: Global, x: Context) -> Result<Standing, AllocError>
        ensures { IfOk result (λ it. it.contexts.items ≡ x ∷ []) }
    {
        let mut names = List::new(alloc);
        names.add(x.name)?;
        let mut contexts = Vec::new(alloc);
        contexts.push(x)?;
        Ok(Standing { names, contexts })
    }

    /// The names, ascending.
    pub fn names(&self) -> &List<Name>
        ensures { result.now ≡ names_of self.now.contexts.items }
    {
        &self.names
    }

    /// The contexts, in the order of their names.
    pub fn contexts(&self) -> &[Context]
        ensures { result.now ≡ self.now.contexts.items }
    {
        self.contexts.as_slice()
    }

    /// The context of a name, if it is here.
    pub fn find(&self, name: Name) -> Option<&Context>
        ensures { IsFound name self.now.contexts.items (option_copied result) }
    {
        match self.names.as_slice().binary_search(&name) {
            Ok(i) => Some(&self.contexts[i]),
            Err(_) => None,
        }
    }
}
