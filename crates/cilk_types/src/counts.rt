//! How many functions and globals are declared so far.

ghost use Rattle.std.specs.Prelude.{◌≡◌, suc, IfOk};

use std::alloc::AllocError;

/// The functions, the plain globals and the replicated ones that are declared so far.
#[derive(Clone, Copy)]
pub struct Counts {
    pub functions: u32,
    pub plain: u32,
    pub replicated: u32,
}

/// The next number, if one is left.
pub fn one_more(n: u32) -> Result<u32, AllocError>
    ensures { IfOk result (λ m. m ≡ suc n) }
{
    match n.checked_add(1) {
        Some(m) => Ok(m),
        None => Err(AllocError),
    }
}
