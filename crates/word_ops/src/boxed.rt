ghost use Rattle.std.specs.Prelude.{◌≡◌, IfOk, IfErr};

use std::alloc::{AllocFailed, Global};
use std::marker::Model;

/// A `Box` that contracts see as the value in it, so that two trees of one shape are equal wherever
/// they lie.
#[derive(Debug, Drop)]
pub struct Box<T> {
    inner: std::boxed::Box<T>,
}

impl<T> Model for Box<T> {
    ghost Value = { T };

    ghost coded = { T.code };

    ghost view = { λ b. b.inner.value };
}

impl<T> Box<T> {
    /// `value`, on the heap. Want of memory hands it back.
    pub fn new(alloc: Global, value: T) -> Result<Box<T>, AllocFailed<T>>
        ensures ok { IfOk result (λ b. b ≡ value) }
        ensures handed_back { IfErr result (λ e. e.value ≡ value) }
    {
        let inner = std::boxed::Box::new(alloc, value)?;
        Ok(Box { inner })
    }

    /// The value, to be read.
    pub fn get(&self) -> &T
        ensures { result.now ≡ self.now }
    {
        &self.inner
    }

    /// The value, moved out.
    pub fn into_inner(self) -> T
        ensures { result ≡ self }
    {
        let Box { inner } = self;
        std::boxed::Box::into_inner(inner)
    }
}

impl<T> std::ops::Deref for Box<T> {
    type Target = T;

    ghost deref_gives = { λ b r. r ≡ b };

    fn deref(&self) -> &T {
        &self.inner
    }
}
