//! Scopes that open and close, and names that are declared in them.

ghost use Rattle.std.specs.Prelude.{◌≡◌, suc, OnOk, IfOk};
ghost use Rattle.cilk_model.specs.Scopes.{declared, opened, closed, is_twice, has_name, with_new};
ghost use Rattle.cilk_types.specs.Shown.{scopes_of, bare};

use crate::counts::one_more;
use crate::scopes::{Local, Scopes};
use cilk_ast::Kind;
use indexmap::IndexMap;
use std::alloc::{AllocError, Global};

/// Opens a scope.
pub fn open_scope(alloc: Global, scopes: &mut Scopes<'_, '_>) -> Result<(), AllocError>
    ensures { OnOk result (scopes_of scopes.new ≡ opened (scopes_of scopes.old)) }
{
    scopes.around.add(IndexMap::new(alloc))
}

/// Closes the innermost scope.
pub fn close_scope(scopes: &mut Scopes<'_, '_>)
    ensures { scopes_of scopes.new ≡ closed (scopes_of scopes.old) }
{
    let _ = scopes.around.pop();
}

/// Puts a value into a map where its name is not there, and says whether it is.
pub fn insert_new<'a, T: Drop>(
    map: &mut IndexMap<&'a [u8], T>,
    name: &'a [u8],
    value: T,
) -> Result<bool, AllocError>
    ensures twice { IfOk result (λ twice. twice ≡ has_name name.now (bare map.old.entries)) }
    ensures entries { OnOk result (bare map.new.entries ≡ with_new name.now value (bare map.old.entries)) }
{
    match map.get(name) {
        Some(_) => Ok(true),
        None => {
            map.insert(name, value)?;
            Ok(false)
        }
    }
}

/// Declares a local in the innermost scope, and says whether its name is there already.
pub fn declare<'a>(
    scopes: &mut Scopes<'_, 'a>,
    name: &'a [u8],
    kind: Kind,
) -> Result<bool, AllocError>
    ensures twice { IfOk result (λ twice. twice ≡ is_twice name.now (scopes_of scopes.old).around) }
    ensures scopes { OnOk result (scopes_of scopes.new ≡ declared name.now kind (scopes_of scopes.old)) }
{
    let local = Local {
        kind,
        number: scopes.count,
        level: scopes.level,
    };
    let count = one_more(scopes.count)?;
    scopes.count = count;
    match scopes.around.pop() {
        None => Ok(false),
        Some(mut scope) => {
            let twice = insert_new(&mut scope, name, local)?;
            scopes.around.add(scope)?;
            Ok(twice)
        }
    }
}
